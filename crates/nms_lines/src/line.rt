//! What records mean, and their sources. The words of `specs/Layout`, `specs/Sources` and `specs/LineOf` are over these types.
use nms_quote::{Change, Feed, Order, Sym};
use nms_units::Price;

/// The source of a record, which decides the kinds that it may have. This product's own rule.
#[derive(Clone, Copy)]
pub enum Reading {
    /// A script, which may have every kind.
    Script {
        /// The setup's number of desks, 1 to 16.
        desks: u8,
    },
    /// A feed. It has `Q`, `S` and `X` of its own participants only, and the first feed has `R`.
    FromFeed(Feed),
    /// A file of changes, which has `Q`, `S` and `X` of any participant, and `R`.
    Changes,
    /// A file of orders, which has only `O`.
    Orders {
        /// The setup's number of desks, 1 to 16.
        desks: u8,
    },
}

/// What a record means.
#[derive(Clone, Copy, Debug)]
pub enum Line {
    /// `Q`, `S` or `X`: a participant's change; `R`: a new round lot.
    Change(Change),
    /// `T`: take one queued change to the tape.
    TakeOne,
    /// `F`: take changes from the queue to the tape until the queue is empty, then publish the tape.
    TakeAll,
    /// `P`: make all of the tape the published version.
    Publish,
    /// `L`: report the published version to the desk.
    Tell {
        /// The desk, below the number of desks.
        desk: u8,
    },
    /// `N`: the desk looks for the national best bid and offer (17 CFR 242.600).
    Best {
        /// The desk, below the number of desks.
        desk: u8,
        /// The symbol's place on the roster.
        sym: Sym,
    },
    /// `E`: the desk looks for what a trade at the price trades through (17 CFR 242.611).
    Through {
        /// The desk, below the number of desks.
        desk: u8,
        /// The symbol's place on the roster.
        sym: Sym,
        /// The price of the trade, in 1/10,000 dollar.
        price: Price,
    },
    /// `O`: the desk looks at the order's symbol and plans the order.
    Sweep {
        /// The desk, below the number of desks.
        desk: u8,
        /// The order to plan, of at least one share.
        order: Order,
    },
}

/// The kind of a record, which its first field names.
#[derive(Clone, Copy, PartialEq, Eq)]
pub enum Kind {
    /// `Q`: both sides and the state of a participant's quotations in a symbol.
    Quote,
    /// `S`: only the state of a participant's quotations in a symbol.
    State,
    /// `X`: the participant no longer quotes any symbol.
    Withdraw,
    /// `R`: the new round lot of a symbol (17 CFR 242.600, "round lot").
    Lot,
    /// `T`: takes one queued change to the tape.
    TakeOne,
    /// `F`: takes changes from the queue to the tape until the queue is empty, then publishes the tape.
    TakeAll,
    /// `P`: makes all of the tape the published version.
    Publish,
    /// `L`: reports the published version to a desk.
    Tell,
    /// `N`: asks for the national best bid and offer.
    Best,
    /// `E`: asks what a trade at a price trades through.
    Through,
    /// `O`: asks for the plan of an order.
    Sweep,
}
