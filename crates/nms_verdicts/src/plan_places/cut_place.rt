//! A cut of a certificate, and the sums at its price (specs/DoubtPlaces).
ghost use Rattle.std.specs.Prelude.{◌≡◌, ◌<◌, ◌≤◌, length, slice_index_or};
ghost use Rattle.nms_quote.specs.declared.certificate.Cut.{Cut};
ghost use Rattle.nms_verdicts.specs.DoubtPlaces.{AreSums, IsCutPlace};

use nms_board::MOST_ROWS;
use nms_quote::Cut;
use nms_rules::{Rank, UsableRow, pool, swept};

/// A cut of a certificate.
#[derive(Clone, Copy)]
pub(crate) struct CutPlace {
    /// The cut's number in the certificate, counted from 0: at most 31.
    pub(crate) number: u8,
    /// The cut as the certificate has it.
    pub(crate) cut: Cut,
}

/// How many shares must be swept and may be taken at a cut's price, and how many can be filled.
#[derive(Clone, Copy)]
pub(crate) struct CutSums {
    /// How many shares can be filled: the number asked for, or what may be traded with if that is less.
    pub(crate) most: u64,
    /// The displayed sizes of the protected quotations at better prices, which must be swept first.
    pub(crate) swept: u64,
    /// The displayed sizes of the other usable quotations at the cut's price or better.
    pub(crate) pool: u64,
}

/// The cut with the given number in a certificate, counted from 0.
pub(crate) fn cut_place(cuts: &[Cut], number: usize) -> CutPlace
    requires within { number < length cuts.now }
    requires few { length cuts.now ≤ MOST_ROWS }
    ensures place { IsCutPlace cuts.now result }
    ensures number { result.number ≡ number }
    ensures own { (d : Cut) → result.cut ≡ slice_index_or cuts.now number d }
{
    CutPlace {
        number: number as u8,
        cut: cuts[number],
    }
}

/// The shares that must be swept and may be taken at the price of a cut, next to the number that can be filled.
pub(crate) fn sums_at(rows: &[UsableRow], most: u64, cutoff: Rank) -> CutSums
    requires { length rows.now ≤ MOST_ROWS }
    ensures { AreSums rows.now most cutoff result }
{
    CutSums {
        most,
        swept: swept(rows, cutoff),
        pool: pool(rows, cutoff),
    }
}
