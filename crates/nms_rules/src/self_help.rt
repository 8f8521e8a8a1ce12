//! Which quotations an order may trade with and has to sweep, apart from their prices: `specs/Usable`.
ghost use Rattle.std.specs.Prelude.{◌≡◌};
ghost use Rattle.nms_rules.specs.Usable.{is_allowed, is_binding, is_named};

use nms_board::Row;
use nms_quote::Order;

/// Whether an order names the quotation's participant under self-help (17 CFR 242.611(b)(1)).
fn is_named(order: &Order, row: &Row) -> bool
    ensures { result ≡ is_named order.now row.now }
{
    order.self_help.has(row.part)
}

/// Whether an order may trade with a quotation, apart from its price. It may if the participant is not named, and it is
/// protected, or manual and the order allows that.
pub fn is_allowed(order: &Order, row: &Row) -> bool
    ensures { result ≡ is_allowed order.now row.now }
{
    !is_named(order, row) && (row.protected || order.manual)
}

/// Whether an order has to sweep a quotation before it trades at a worse price. It has to if the participant is not named, and
/// it is protected.
pub(crate) fn is_binding(order: &Order, row: &Row) -> bool
    ensures { result ≡ is_binding order.now row.now }
{
    !is_named(order, row) && row.protected
}
