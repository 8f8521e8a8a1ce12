//! A change of a board as numbers, as a caller in another language gives it to the library.
ghost use Rattle.std.specs.Prelude.{◌≡◌};
ghost use Rattle.nms_calls.specs.ChangeNumbers.{no_change};

/// A change of the board. The fields that its kind does not use are ignored.
#[repr(C)]
#[derive(Clone, Copy)]
pub struct NmsChange {
    /// The best bid in 1/10,000 dollar; 0 with 0 shares for none.
    pub bid_price: u64,
    /// The best offer in 1/10,000 dollar; 0 with 0 shares for none.
    pub offer_price: u64,
    /// The shares of the bid, 1 to 999,999,999; 0 with price 0 for none.
    pub bid_shares: u32,
    /// The shares of the offer, 1 to 999,999,999; 0 with price 0 for none.
    pub offer_shares: u32,
    /// The symbol's place on the roster, counted from 0.
    pub sym: u16,
    /// The new round lot, 1 to 1,000 shares.
    pub lot: u16,
    /// The participant's place on the roster, counted from 0.
    pub part: u8,
    /// The kind of the change: 0 a quotation, 1 a state, 2 a withdrawal, 3 a round lot.
    pub kind: u8,
    /// The state of the participant's quotations: 0 automated, 1 manual, 2 halted.
    pub state: u8,
    /// The library ignores this number. It only fills the structure to its size.
    pub spare: u8,
}

impl NmsChange {
    /// A change whose numbers are all 0. It fills a place that has no change.
    pub(crate) fn none() -> Self
        ensures { result ≡ no_change }
    {
        NmsChange {
            bid_price: 0,
            offer_price: 0,
            bid_shares: 0,
            offer_shares: 0,
            sym: 0,
            lot: 0,
            part: 0,
            kind: 0,
            state: 0,
            spare: 0,
        }
    }
}
