//! Reading an order from its numbers: `specs/OrderSaid`.
ghost use Rattle.std.specs.Prelude.{◌≡◌, ◌<◌, ◌^◌, length, nat_lt, if◌then◌else◌, IfOk};
ghost use Rattle.nms_quote.specs.Roster.{sizes_of};
ghost use Rattle.nms_calls.specs.OrderSaid.{flag_said, order_said, side_said};

use crate::call_fault::CallFault;
use crate::change_reading::sym_of;
use crate::order_numbers::NmsOrder;
use nms_quote::{Order, OrderSide, PartSet, Roster};
use nms_units::{Price, Shares};

/// The order that numbers give on a roster. If they give none, the fault with the least code.
pub(crate) fn order_of(roster: &Roster, numbers: &NmsOrder) -> Result<Order, CallFault>
    ensures order { result ≡ order_said (sizes_of roster.now) numbers.now }
    ensures there { IfOk result (λ order. order.sym < length roster.now.syms) }
    ensures named { IfOk result (λ order. order.self_help < 2 ^ length roster.now.parts) }
{
    let (Some(side), Some(manual)) = (side_of(numbers.side), flag_of(numbers.manual)) else {
        return Err(CallFault::Range);
    };
    let (Some(shares), Some(limit)) = (Shares::new(numbers.shares), Price::new(numbers.limit))
    else {
        return Err(CallFault::Range);
    };
    if shares.get() == 0 {
        return Err(CallFault::Range);
    }
    let self_help = set_of(roster, numbers.self_help)?;
    let sym = sym_of(roster, numbers.sym)?;
    Ok(Order {
        side,
        sym,
        shares,
        limit,
        manual,
        self_help,
    })
}

/// The participants of the roster whose bits are set in a number.
fn set_of(roster: &Roster, digits: u32) -> Result<PartSet, CallFault>
    ensures { result ≡ (if nat_lt digits (2 ^ length roster.now.parts) then Ok digits else Err CallFault.NoParticipant) }
{
    if u64::from(digits) < 1 << roster.parts() {
        Ok(PartSet::of(digits))
    } else {
        Err(CallFault::NoParticipant)
    }
}

/// The side of an order that a number means: 0 buys, 1 sells. `None` for any other number.
pub(crate) fn side_of(number: u8) -> Option<OrderSide>
    ensures { result ≡ side_said number }
{
    match number {
        0 => Some(OrderSide::Buy),
        1 => Some(OrderSide::Sell),
        _ => None,
    }
}

/// The answer that a number means: 0 no, 1 yes. `None` for any other number.
fn flag_of(number: u8) -> Option<bool>
    ensures { result ≡ flag_said number }
{
    match number {
        0 => Some(false),
        1 => Some(true),
        _ => None,
    }
}
