//! Why a plan and its certificate are not confirmed.
use nms_rules::Breach;
use std::fmt;
use thiserror::Error;

/// Why a plan and its certificate are not confirmed, least number first. Only the first that holds is reported.
#[derive(Clone, Copy, Debug, PartialEq, Eq, Error)]
pub enum Doubt {
    /// K1: the plan is not lawful, or its sums are wrong.
    Breach(Breach),
    /// K2: the plan fills less than can be filled.
    NotMost,
    /// K3: a price of a usable quotation has no cut.
    CutMissing,
    /// K4: a cut is at no price of a usable quotation, or the cuts are not in order, best price first and each price once.
    CutExtra,
    /// K5: a cut is of the wrong kind, because what it claims is false. `TooMuch` claims that the better protected quotations
    /// have more shares than can be filled. `TooLittle` claims that all shares that may be traded with are fewer than can be
    /// filled. `Marginal` claims that the better protected quotations have no more shares than can be filled.
    WrongKind,
    /// K6: a marginal is below -10^18 or above 10^18 nanodollars.
    MarginalRange,
    /// K7: a cut's bound is below the plan's cost.
    BoundFails {
        /// The first cut whose bound is below the plan's cost, counted from 0.
        cut: u8,
    },
}

impl Doubt {
    ghost use Rattle.std.specs.Prelude.{◌≡◌};
    ghost use Rattle.nms_cert.specs.Codes.{code_of};

    /// The code of the doubt, `K1` to `K7`.
    pub fn code(self) -> &'static str
        ensures { result.now ≡ code_of self }
    {
        match self {
            Doubt::Breach(_) => "K1",
            Doubt::NotMost => "K2",
            Doubt::CutMissing => "K3",
            Doubt::CutExtra => "K4",
            Doubt::WrongKind => "K5",
            Doubt::MarginalRange => "K6",
            Doubt::BoundFails { .. } => "K7",
        }
    }
}

impl fmt::Display for Doubt {
    fn fmt<W: fmt::Write>(&self, f: &mut fmt::Formatter<W>) -> fmt::Result {
        f.write_str(match self {
            Doubt::Breach(_) => "K1: the plan is not lawful",
            Doubt::NotMost => "K2: more can be filled",
            Doubt::CutMissing => "K3: a price has no cut",
            Doubt::CutExtra => "K4: a cut too many",
            Doubt::WrongKind => "K5: a cut of the wrong kind",
            Doubt::MarginalRange => "K6: a marginal out of its range",
            Doubt::BoundFails { .. } => "K7: a cut's bound is below the cost",
        })
    }
}
