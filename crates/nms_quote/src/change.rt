//! The changes of which a tape is made: `specs/Tape`.
ghost use Rattle.std.specs.Prelude.{◌≡◌};

use crate::participant::Part;
use crate::side_quote::{QState, SideQuote};
use crate::symbol::Sym;
use nms_units::Lot;

/// A participant's change of its quotations, or a new round lot of a symbol. Each participant sends
/// only its best bid and its best offer in a symbol (this product's own rule).
#[derive(Clone, Copy, Debug, PartialEq, Eq)]
pub enum Change {
    /// Both sides of a symbol, `None` if there is no quotation, and their state.
    Quote {
        /// The participant that sends it.
        part: Part,
        /// The symbol that is quoted.
        sym: Sym,
        /// The state of both sides.
        state: QState,
        /// The best bid: a price in 1/10,000 dollar and 1 or more shares.
        bid: Option<SideQuote>,
        /// The best offer, in the same form.
        offer: Option<SideQuote>,
    },
    /// Only the state of the symbol's quotations.
    State {
        /// The participant that sends it.
        part: Part,
        /// The symbol whose state changes.
        sym: Sym,
        /// The new state of both sides.
        state: QState,
    },
    /// A participant withdraws its quotations in all symbols.
    Withdraw {
        /// The participant that sends it.
        part: Part,
    },
    /// The symbol's new round lot, after its average closing price (17 CFR 242.600, "round lot"). No participant sends it.
    Lot {
        /// The symbol whose round lot changes.
        sym: Sym,
        /// The new round lot, 1 to 1,000 shares.
        lot: Lot,
    },
}

impl Change {
    ghost use Rattle.std.specs.Prelude.{◌≡◌};
    ghost use Rattle.nms_quote.specs.Tape.{participant_of};

    /// The participant that sends the change. A new round lot is sent by no participant.
    pub fn part(&self) -> Option<Part>
        ensures { result ≡ participant_of self.now }
    {
        match *self {
            Change::Quote { part, .. } | Change::State { part, .. } | Change::Withdraw { part } =>
                Some(part),
            Change::Lot { .. } => None,
        }
    }
}
