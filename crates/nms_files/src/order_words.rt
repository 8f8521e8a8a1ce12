//! Reading an order from the arguments of a call (specs/OrderWords).
ghost use Rattle.std.specs.Prelude.{◌≡◌, ◌<◌, IfSome, length, option_copied};
ghost use Rattle.nms_lines.specs.Named.{AreBelow};
ghost use Rattle.nms_files.specs.OrderWords.{named_by, order_asked, order_with};

use nms_lines::{price_of, read_names, side_of, some_shares_of};
use nms_quote::{Order, PartSet, Roster};

/// The order that arguments give: a side (`B` or `S`), a symbol, shares and a limit, as in a script's record `O`. The
/// participants, joined by `+`, are those against which self-help is declared (17 CFR 242.611(b)(1)). `None` if such a record
/// is refused.
pub fn order_of(
    roster: &Roster,
    side: &str,
    sym: &str,
    shares: &str,
    limit: &str,
    manual: bool,
    names: Option<&str>,
) -> Option<Order>
    ensures order { result ≡ order_asked roster.now side.now sym.now shares.now limit.now manual (option_copied names.entry) }
    ensures there { IfSome result (λ order. order.sym < length roster.now.syms) }
    ensures named { IfSome result (λ order. AreBelow (length roster.now.parts) order.self_help) }
{
    let self_help = named_by(roster, names)?;
    order_with(roster, side, sym, shares, limit, manual, self_help)
}

/// The order that a side, a symbol, shares and a limit give, with the participants against which self-help is declared.
fn order_with(
    roster: &Roster,
    side: &str,
    sym: &str,
    shares: &str,
    limit: &str,
    manual: bool,
    self_help: PartSet,
) -> Option<Order>
    ensures order { result ≡ order_with roster.now side.now sym.now shares.now limit.now manual self_help }
    ensures there { IfSome result (λ order. order.sym < length roster.now.syms) }
    ensures named { IfSome result (λ order. order.self_help ≡ self_help) }
{
    let sym = roster.find_sym(sym.as_bytes())?;
    let side = side_of(side.as_bytes())?;
    let limit = price_of(limit.as_bytes())?;
    let shares = some_shares_of(shares.as_bytes())?;
    Order::new(side, sym, shares, limit, manual, self_help)
}

/// The participants that the names give; none if there are no names.
fn named_by(roster: &Roster, names: Option<&str>) -> Option<PartSet>
    ensures set { result ≡ named_by roster.now (option_copied names.entry) }
    ensures there { IfSome result (AreBelow (length roster.now.parts)) }
{
    match names {
        Some(names) => read_names(names.as_bytes(), roster),
        None => Some(PartSet::none()),
    }
}
