//! Why a plan is not confirmed, as numbers: `specs/DoubtNumbers`.
ghost use Rattle.std.specs.Prelude.{◌≡◌};
ghost use Rattle.nms_calls.specs.DoubtNumbers.{breach_number, breached, doubt_numbers, no_doubt};

use nms_cert::Doubt;
use nms_rules::Breach;

/// Why a plan is not confirmed; all 0 if it is.
#[repr(C)]
#[derive(Clone, Copy)]
pub struct NmsDoubt {
    /// The kind of the doubt, 1 to 7 for K1 to K7.
    pub doubt: u32,
    /// The plan's first breach of a rule, 1 to 12 for P1 to P12, if the doubt is 1, else 0.
    pub breach: u32,
    /// The place of the participant that is traded through if the breach is 10, else 0.
    pub part: u32,
    /// The place in the certificate, counted from 0, of the first cut whose bound fails. It is 0 unless the doubt is 7.
    pub cut: u32,
}

impl NmsDoubt {
    /// The numbers of no doubt, all 0: the plan is confirmed.
    pub(crate) fn none() -> Self
        ensures { result ≡ no_doubt }
    {
        NmsDoubt {
            doubt: 0,
            breach: 0,
            part: 0,
            cut: 0,
        }
    }

    /// The numbers of a doubt about a plan.
    pub(crate) fn of(doubt: Doubt) -> Self
        ensures { result ≡ doubt_numbers doubt }
    {
        match doubt {
            Doubt::Breach(breach) => NmsDoubt::of_breach(breach),
            Doubt::NotMost => NmsDoubt::plain(2),
            Doubt::CutMissing => NmsDoubt::plain(3),
            Doubt::CutExtra => NmsDoubt::plain(4),
            Doubt::WrongKind => NmsDoubt::plain(5),
            Doubt::MarginalRange => NmsDoubt::plain(6),
            Doubt::BoundFails { cut } => NmsDoubt {
                doubt: 7,
                breach: 0,
                part: 0,
                cut: u32::from(cut),
            },
        }
    }

    /// A doubt of the given kind that names no breach, no participant and no cut.
    fn plain(doubt: u32) -> Self
        ensures { result ≡ record { doubt = doubt; breach = 0; part = 0; cut = 0 } }
    {
        NmsDoubt {
            doubt,
            breach: 0,
            part: 0,
            cut: 0,
        }
    }

    /// The numbers of the doubt that a plan breaches a rule.
    fn of_breach(breach: Breach) -> Self
        ensures { result ≡ breached breach }
    {
        let part = match breach {
            Breach::TradedThrough { part } => u32::from(part.get()),
            Breach::OtherVersion
            | Breach::OtherOrder
            | Breach::NoSuchQuotation
            | Breach::PriceDiffers
            | Breach::ZeroLeg
            | Breach::OverSize
            | Breach::Repeated
            | Breach::BeyondLimit
            | Breach::OverAsked
            | Breach::FilledWrong
            | Breach::CostWrong => 0,
        };
        NmsDoubt {
            doubt: 1,
            breach: breach_number(breach),
            part,
            cut: 0,
        }
    }
}

/// The number of a breach, P1 to P12.
fn breach_number(breach: Breach) -> u32
    ensures { result ≡ breach_number breach }
{
    match breach {
        Breach::OtherVersion => 1,
        Breach::OtherOrder => 2,
        Breach::NoSuchQuotation => 3,
        Breach::PriceDiffers => 4,
        Breach::ZeroLeg => 5,
        Breach::OverSize => 6,
        Breach::Repeated => 7,
        Breach::BeyondLimit => 8,
        Breach::OverAsked => 9,
        Breach::TradedThrough { .. } => 10,
        Breach::FilledWrong => 11,
        Breach::CostWrong => 12,
    }
}
