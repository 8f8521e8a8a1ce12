//! All rows of a side or of a symbol, those that a price trades through, and a symbol's opening changes: `specs/Looked`.
ghost use Rattle.std.specs.Prelude.{◌≡◌, IfOk, OnErr, OnOk};
ghost use Rattle.std.specs.Result.{result_err};
ghost use Rattle.nms_board.specs.Shown.{rows_held};
ghost use Rattle.nms_calls.specs.ChangeNumbers.{IsOpening};
ghost use Rattle.nms_calls.specs.Looked.{market_side_said, side_looked_at, through_fault};
ghost use Rattle.nms_calls.specs.Opened.{error_of, sizes_on, sym_fault};
ghost use Rattle.nms_calls.specs.RowNumbers.{AreRanked, AreThrough, IsView};

use crate::MOST_MILLIONTHS;
use crate::call_fault::CallFault;
use crate::change_reading::sym_of;
use crate::change_writing::put_opening;
use crate::open_board::OpenBoard;
use crate::opening_numbers::NmsOpening;
use crate::row_calls::market_side_of;
use crate::row_numbers::{NmsRows, NmsThrough, NmsView, market_number};
use crate::side_writing::{put_side, put_through};
use nms_nbbo::market_between;
use nms_quote::Side;

impl OpenBoard {
    /// Writes the rows of a side in rank order, with their total size.
    pub fn rows(&self, sym: u16, side: u8, out: &mut NmsRows) -> Result<(), CallFault>
        ensures answer { result_err result ≡ error_of (side_looked_at self.now sym (market_side_said side)) }
        ensures rows { OnOk result (IfOk (side_looked_at self.now sym (market_side_said side)) (λ side. AreRanked side (rows_held self.now.board sym side) out.new)) }
        ensures unwritten { OnErr result (out.new ≡ out.old) }
    {
        let Some(side) = market_side_of(side) else {
            return Err(CallFault::Range);
        };
        let sym = sym_of(self.setup.roster(), sym)?;
        put_side(self.rolling.board(), side, sym, out);
        Ok(())
    }

    /// Writes both sides of a symbol, with the state of its market.
    pub fn view(&self, sym: u16, out: &mut NmsView) -> Result<(), CallFault>
        ensures answer { result_err result ≡ sym_fault self.now sym }
        ensures view { OnOk result (IsView self.now sym out.new) }
        ensures unwritten { OnErr result (out.new ≡ out.old) }
    {
        let sym = sym_of(self.setup.roster(), sym)?;
        let board = self.rolling.board();
        let bid = board.ranked(Side::Bid, sym, 0);
        let offer = board.ranked(Side::Offer, sym, 0);
        out.version = self.rolling.version();
        out.market = market_number(market_between(bid, offer));
        out.sym = sym.get();
        out.spare = 0;
        put_side(board, Side::Bid, sym, &mut out.bid);
        put_side(board, Side::Offer, sym, &mut out.offer);
        Ok(())
    }

    /// Writes the protected quotations that a price in 1/1,000,000 dollar trades through.
    pub fn through(&self, sym: u16, millionths: u64, out: &mut NmsThrough) -> Result<(), CallFault>
        ensures answer { result_err result ≡ through_fault self.now sym millionths }
        ensures through { OnOk result (AreThrough self.now sym millionths out.new) }
        ensures unwritten { OnErr result (out.new ≡ out.old) }
    {
        if millionths < 1 || millionths > MOST_MILLIONTHS {
            return Err(CallFault::Range);
        }
        let sym = sym_of(self.setup.roster(), sym)?;
        let board = self.rolling.board();
        out.version = self.rolling.version();
        out.bids = put_through(board, Side::Bid, sym, millionths, &mut out.bid);
        out.offers = put_through(board, Side::Offer, sym, millionths, &mut out.offer);
        Ok(())
    }

    /// Writes the opening changes of a symbol. They bring a new board of the same setup to the symbol's rows.
    pub fn opening(&self, sym: u16, out: &mut NmsOpening) -> Result<(), CallFault>
        ensures answer { result_err result ≡ sym_fault self.now sym }
        ensures opening { OnOk result (IsOpening (sizes_on self.now) self.now.board sym out.new) }
        ensures unwritten { OnErr result (out.new ≡ out.old) }
    {
        let sym = sym_of(self.setup.roster(), sym)?;
        put_opening(self.rolling.board(), sym, out);
        Ok(())
    }
}
