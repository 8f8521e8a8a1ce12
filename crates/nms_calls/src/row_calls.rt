//! One row of a board, and what a share costs there: `specs/Looked`.
ghost use Rattle.std.specs.Prelude.{◌≡◌, IfOk, OnErr, OnOk};
ghost use Rattle.std.specs.Result.{result_err};
ghost use Rattle.nms_calls.specs.Looked.{cost_on, market_side_said, ranked_said};
ghost use Rattle.nms_calls.specs.Opened.{error_of};
ghost use Rattle.nms_calls.specs.RowNumbers.{some_row};

use crate::call_fault::CallFault;
use crate::change_reading::{part_of, sym_of};
use crate::open_board::OpenBoard;
use crate::order_reading::side_of;
use crate::row_numbers::NmsRow;
use nms_quote::Side;
use nms_units::Price;

impl OpenBoard {
    /// Writes the row at a place of a side's rank order, counted from 0.
    pub fn ranked(&self, sym: u16, side: u8, place: u8, out: &mut NmsRow) -> Result<(), CallFault>
        ensures answer { result_err result ≡ error_of (ranked_said self.now sym side place) }
        ensures row { OnOk result (IfOk (ranked_said self.now sym side place) (λ row. out.new ≡ some_row row)) }
        ensures unwritten { OnErr result (out.new ≡ out.old) }
    {
        let Some(side) = market_side_of(side) else {
            return Err(CallFault::Range);
        };
        let sym = sym_of(self.setup.roster(), sym)?;
        match self.rolling.board().ranked(side, sym, place) {
            Some(row) => {
                *out = NmsRow::some(&row);
                Ok(())
            }
            None => Err(CallFault::NoRow),
        }
    }

    /// Writes what one share costs with a participant's fee, in nanodollars.
    pub fn unit_cost(&self, part: u8, side: u8, price: u64, out: &mut i64) -> Result<(), CallFault>
        ensures answer { result_err result ≡ error_of (cost_on self.now part side price) }
        ensures cost { OnOk result (IfOk (cost_on self.now part side price) (λ cost. out.new ≡ cost)) }
        ensures unwritten { OnErr result (out.new ≡ out.old) }
    {
        let (Some(side), Some(price)) = (side_of(side), Price::new(price)) else {
            return Err(CallFault::Range);
        };
        let part = part_of(self.setup.roster(), part)?;
        *out = self.setup.fees().unit_cost(part, side, price).get() as i64;
        Ok(())
    }
}

/// The side of a market that a number means: 0 the bids, 1 the offers. `None` for any other number.
pub(crate) fn market_side_of(number: u8) -> Option<Side>
    ensures { result ≡ market_side_said number }
{
    match number {
        0 => Some(Side::Bid),
        1 => Some(Side::Offer),
        _ => None,
    }
}
