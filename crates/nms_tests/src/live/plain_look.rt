//! A plain slow look at a participant's side after each change of a tape, without a board.
use nms_quote::{Change, Leg, Order, OrderSide, Part, Plan, QState, SideQuote};

/// What a tape says of a participant's side of a symbol: the round lot, whether the side is halted, and its price and shares. The
/// price and shares are 0 if there is no quotation.
#[derive(Drop)]
struct Known {
    lot: u16,
    is_halted: bool,
    price: u64,
    shares: u32,
}

/// The price and the shares of a side; both are 0 if there is no quotation.
fn content_of(quote: &Option<SideQuote>) -> (u64, u32) {
    match quote {
        Some(quote) => (quote.price.get(), quote.shares.get()),
        None => (0, 0),
    }
}

/// Takes a change into account if it is about the order's symbol or the participant. Only the side that the order trades with
/// counts.
fn follow(side: &mut Known, change: &Change, order: &Order, who: Part) {
    match *change {
        Change::Quote {
            part,
            sym,
            state,
            bid,
            offer,
        } => if part == who && sym == order.sym {
            let (price, shares) = match order.side {
                OrderSide::Buy => content_of(&offer),
                OrderSide::Sell => content_of(&bid),
            };
            side.is_halted = state == QState::Halted;
            side.price = price;
            side.shares = shares;
        },
        Change::State { part, sym, state } => if part == who && sym == order.sym {
            side.is_halted = state == QState::Halted;
        },
        Change::Withdraw { part } => if part == who {
            side.shares = 0;
        },
        Change::Lot { sym, lot } => if sym == order.sym {
            side.lot = lot.get();
        },
    }
}

/// Whether a leg takes no more than the displayed round lots of its participant after n changes, at its price.
fn is_shown(tape: &[Change], count: u64, order: &Order, leg: &Leg) -> bool {
    let mut side = Known {
        lot: 100,
        is_halted: false,
        price: 0,
        shares: 0,
    };
    for (change, _) in tape.iter().zip(0..count) {
        follow(&mut side, change, order, leg.part);
    }
    let more = side.shares.checked_rem(u32::from(side.lot)).unwrap_or(0);
    let Some(displayed) = side.shares.checked_sub(more) else {
        return false;
    };
    !side.is_halted && leg.price.get() == side.price && leg.shares.get() <= displayed
}

/// Whether each leg of a plan takes displayed shares. All setups of the runs open with round lots of 100 shares.
pub(crate) fn are_shown(tape: &[Change], plan: &Plan) -> bool {
    for leg in plan.legs.as_slice() {
        if !is_shown(tape, plan.version, &plan.order, leg) {
            return false;
        }
    }
    true
}
