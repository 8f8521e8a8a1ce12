//! Rows of a board as numbers: `specs/RowNumbers`.
ghost use Rattle.std.specs.Prelude.{◌≡◌};
ghost use Rattle.nms_calls.specs.RowNumbers.{market_number, no_row, row_numbers, some_row};

use nms_board::Row;
use nms_nbbo::Market;

/// A quotation. Size 0 means none, and then all its numbers are 0.
#[repr(C)]
#[derive(Clone, Copy)]
pub struct NmsRow {
    /// The price, in 1/10,000 dollar.
    pub price: u64,
    /// The receipts of a symbol's quotations are in the order of the changes that last altered their price or shares. Each is at
    /// least 1 and at most the version. Until 9,990,000 changes were applied, a receipt is the number of that change.
    pub receipt: u64,
    /// The size in shares: whole round lots, at least one.
    pub size: u32,
    /// The participant's place on the roster, counted from 0.
    pub part: u8,
    /// 1 if the quotation is protected, 0 if it is manual.
    pub is_protected: u8,
    /// Always 0.
    pub spare: u16,
}

/// The best bid and the best offer of a symbol.
#[repr(C)]
#[derive(Clone, Copy)]
pub struct NmsBest {
    /// How many changes were applied.
    pub version: u64,
    /// The best bid.
    pub bid: NmsRow,
    /// The best offer.
    pub offer: NmsRow,
    /// The state of the market: 0 empty, 1 one-sided, 2 normal, 3 locked, 4 crossed.
    pub market: u32,
    /// Always 0.
    pub spare: u32,
}

/// The rows of one side in rank order, best first.
#[repr(C)]
#[derive(Clone, Copy)]
pub struct NmsRows {
    /// The shares of all rows together.
    pub total: u64,
    /// The prices of the rows, in 1/10,000 dollar.
    pub price: [u64; 32],
    /// The receipts of the rows, which order them by time.
    pub receipt: [u64; 32],
    /// The sizes of the rows, in shares.
    pub size: [u32; 32],
    /// The places of the rows' participants on the roster.
    pub part: [u8; 32],
    /// 1 if a row is protected, 0 if it is manual.
    pub is_protected: [u8; 32],
    /// How many rows there are. The places after the last are 0.
    pub count: u32,
    /// Always 0.
    pub spare: u32,
}

/// Both sides of a symbol.
#[repr(C)]
#[derive(Clone, Copy)]
pub struct NmsView {
    /// How many changes were applied.
    pub version: u64,
    /// The state of the market: 0 empty, 1 one-sided, 2 normal, 3 locked, 4 crossed.
    pub market: u32,
    /// The symbol's place on the roster, counted from 0.
    pub sym: u16,
    /// Always 0.
    pub spare: u16,
    /// The bids.
    pub bid: NmsRows,
    /// The offers.
    pub offer: NmsRows,
}

/// The protected quotations that a price trades through, by participant place.
#[repr(C)]
#[derive(Clone, Copy)]
pub struct NmsThrough {
    /// How many changes were applied.
    pub version: u64,
    /// How many bids there are. The places after the last are rows of size 0.
    pub bids: u32,
    /// How many offers there are. The places after the last are rows of size 0.
    pub offers: u32,
    /// The protected bids above the price.
    pub bid: [NmsRow; 32],
    /// The protected offers below the price.
    pub offer: [NmsRow; 32],
}

impl NmsRow {
    /// The numbers of an empty place, which has no row: all are 0.
    pub(crate) fn none() -> Self
        ensures { result ≡ no_row }
    {
        NmsRow {
            price: 0,
            receipt: 0,
            size: 0,
            part: 0,
            is_protected: 0,
            spare: 0,
        }
    }

    /// The numbers of a row. All are 0 if there is no row.
    #[inline(always)]
    pub(crate) fn of(row: &Option<Row>) -> Self
        ensures { result ≡ row_numbers row.now }
    {
        match row {
            Some(row) => NmsRow::some(row),
            None => NmsRow::none(),
        }
    }

    /// The numbers of a row.
    #[inline(always)]
    pub(crate) fn some(row: &Row) -> Self
        ensures { result ≡ some_row row.now }
    {
        NmsRow {
            price: row.price.get(),
            receipt: row.receipt,
            size: row.size,
            part: row.part.get(),
            is_protected: u8::from(row.protected),
            spare: 0,
        }
    }
}

/// The number of a market's state: 0 empty, 1 one-sided, 2 normal, 3 locked, 4 crossed.
pub(crate) fn market_number(market: Market) -> u32
    ensures { result ≡ market_number market }
{
    match market {
        Market::Empty => 0,
        Market::OneSided => 1,
        Market::Normal => 2,
        Market::Locked => 3,
        Market::Crossed => 4,
    }
}
