//! Why a trade-through may be lawful: `specs/Causes`.
ghost use Rattle.std.specs.Prelude.{◌≡◌};
ghost use Rattle.nms_trades.specs.Causes.{applies, word_of};

use crate::claims::Claims;

/// How many causes there are.
pub const CAUSES: usize = 13;

/// Why a trade-through may be lawful, in the order of 17 CFR 242.611(b). After those come the causes that no paragraph of it names.
#[derive(Clone, Copy)]
pub enum Cause {
    /// (b)(1): self-help is claimed against a participant that was traded through.
    SelfHelp,
    /// (b)(2): a contract that was not regular way is claimed.
    NotRegular,
    /// (b)(3): a single-priced opening, reopening or closing is claimed.
    SinglePriced,
    /// (b)(4): the board found a protected bid above a protected offer.
    Crossed,
    /// (b)(5): an intermarket sweep order is claimed.
    Sweep,
    /// (b)(6): sweep orders that were sent at the same time are claimed.
    Swept,
    /// (b)(7): a benchmark price is claimed.
    Benchmark,
    /// (b)(8): within one second before, each remaining participant had shown a protected quotation at the price or inferior to it.
    Flicker,
    /// (b)(9): a stopped order is claimed.
    Stopped,
    /// A qualified contingent trade is claimed.
    Contingent,
    /// The execution is marked exempt, without a reason.
    Exempt,
    /// It is claimed that the execution was outside regular trading hours.
    OutsideHours,
    /// It is claimed that the execution is out of sequence.
    OutOfSequence,
}

impl Cause {
    /// All causes, in order.
    pub const ALL: [Cause; CAUSES] = [
        Cause::SelfHelp,
        Cause::NotRegular,
        Cause::SinglePriced,
        Cause::Crossed,
        Cause::Sweep,
        Cause::Swept,
        Cause::Benchmark,
        Cause::Flicker,
        Cause::Stopped,
        Cause::Contingent,
        Cause::Exempt,
        Cause::OutsideHours,
        Cause::OutOfSequence,
    ];

    /// The word for the cause. It shows whether the cause is claimed or found.
    pub fn word(self) -> &'static str
        ensures { result.now ≡ word_of self }
    {
        match self {
            Cause::SelfHelp => "SELFHELP-CLAIMED",
            Cause::NotRegular => "NOTREGULAR-CLAIMED",
            Cause::SinglePriced => "AUCTION-CLAIMED",
            Cause::Crossed => "CROSSED",
            Cause::Sweep => "ISO-CLAIMED",
            Cause::Swept => "SWEPT-CLAIMED",
            Cause::Benchmark => "BENCHMARK-CLAIMED",
            Cause::Flicker => "FLICKER",
            Cause::Stopped => "STOPPED-CLAIMED",
            Cause::Contingent => "CONTINGENT-CLAIMED",
            Cause::Exempt => "EXEMPT-CLAIMED",
            Cause::OutsideHours => "HOURS-CLAIMED",
            Cause::OutOfSequence => "SEQUENCE-CLAIMED",
        }
    }

    /// Whether the cause applies. This depends on what is claimed, on the crossed market, on the rows that self-help takes out,
    /// and on whether the other rows flickered.
    pub fn applies(self, claims: &Claims, crossed: bool, helped: bool, flickering: bool) -> bool
        ensures { result ≡ applies self claims.now crossed helped flickering }
    {
        match self {
            Cause::SelfHelp => helped,
            Cause::NotRegular => claims.not_regular,
            Cause::SinglePriced => claims.single_priced,
            Cause::Crossed => crossed,
            Cause::Sweep => claims.sweep,
            Cause::Swept => claims.swept,
            Cause::Benchmark => claims.benchmark,
            Cause::Flicker => flickering,
            Cause::Stopped => claims.stopped,
            Cause::Contingent => claims.contingent,
            Cause::Exempt => claims.exempt,
            Cause::OutsideHours => claims.outside_hours,
            Cause::OutOfSequence => claims.out_of_sequence,
        }
    }
}
