//! The rules that a plan can break.
use nms_quote::Part;
use std::fmt;
use thiserror::Error;

/// The rule that a plan breaks, least number first. Only the first that holds is reported.
#[derive(Clone, Copy, Debug, PartialEq, Eq, Error)]
pub enum Breach {
    /// P1: the plan is of another version than the view.
    OtherVersion,
    /// P2: the plan is for another order than the one given, or for another symbol than the view's.
    OtherOrder,
    /// P3: a leg's participant has no quotation on the contra side, is named by the order, or has a manual one that the
    /// order does not allow.
    NoSuchQuotation,
    /// P4: a leg's price is not that of its participant's quotation.
    PriceDiffers,
    /// P5: a leg has 0 shares.
    ZeroLeg,
    /// P6: a leg has more shares than its participant's quotation displays.
    OverSize,
    /// P7: two legs go to one participant.
    Repeated,
    /// P8: a leg's price is worse than the order's limit.
    BeyondLimit,
    /// P9: the legs together have more shares than the order asks for.
    OverAsked,
    /// P10: the plan trades through a protected quotation. The order does not name its participant, and its price is strictly
    /// better than some leg's. The plan gives it less than its full displayed size (17 CFR 242.611).
    TradedThrough {
        /// The quotation's participant; the least place if several are traded through.
        part: Part,
    },
    /// P11: the number of shares that the plan says it fills is not the sum of its legs' shares.
    FilledWrong,
    /// P12: the cost that the plan says it has is not the cost of its legs with fees.
    CostWrong,
}

impl Breach {
    ghost use Rattle.std.specs.Prelude.{◌≡◌};
    ghost use Rattle.nms_rules.specs.Codes.{code_of};

    /// The code of the breach, `P1` to `P12`.
    pub fn code(self) -> &'static str
        ensures { result.now ≡ code_of self }
    {
        match self {
            Breach::OtherVersion => "P1",
            Breach::OtherOrder => "P2",
            Breach::NoSuchQuotation => "P3",
            Breach::PriceDiffers => "P4",
            Breach::ZeroLeg => "P5",
            Breach::OverSize => "P6",
            Breach::Repeated => "P7",
            Breach::BeyondLimit => "P8",
            Breach::OverAsked => "P9",
            Breach::TradedThrough { .. } => "P10",
            Breach::FilledWrong => "P11",
            Breach::CostWrong => "P12",
        }
    }
}

impl fmt::Display for Breach {
    fn fmt<W: fmt::Write>(&self, f: &mut fmt::Formatter<W>) -> fmt::Result {
        f.write_str(match self {
            Breach::OtherVersion => "P1: another version",
            Breach::OtherOrder => "P2: another order",
            Breach::NoSuchQuotation => "P3: no such quotation",
            Breach::PriceDiffers => "P4: not the quotation's price",
            Breach::ZeroLeg => "P5: a leg of no shares",
            Breach::OverSize => "P6: more shares than are displayed",
            Breach::Repeated => "P7: two legs to one participant",
            Breach::BeyondLimit => "P8: beyond the limit",
            Breach::OverAsked => "P9: more shares than were asked for",
            Breach::TradedThrough { .. } => "P10: a protected quotation is traded through",
            Breach::FilledWrong => "P11: the shares are summed wrongly",
            Breach::CostWrong => "P12: the cost is summed wrongly",
        })
    }
}
