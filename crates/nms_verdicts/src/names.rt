//! The words for sides, symbols, participants and codes.
use nms_quote::{Order, OrderSide, Part, Roster, Sym};
use nms_show::Item;
use std::alloc::AllocError;

/// The name of a participant.
pub(crate) fn name_of(roster: &Roster, part: Part) -> Item<'_> {
    if usize::from(part.get()) < roster.parts() {
        Item::Text(roster.part_name(part))
    } else {
        Item::Absent
    }
}

/// The name of a symbol.
pub(crate) fn symbol_of(roster: &Roster, sym: Sym) -> Item<'_> {
    if roster.has_sym(sym) {
        Item::Text(roster.sym_name(sym))
    } else {
        Item::Absent
    }
}

/// The word for an order's side.
pub(crate) fn verb_of(side: OrderSide) -> Item<'static> {
    match side {
        OrderSide::Buy => Item::Text("buy"),
        OrderSide::Sell => Item::Text("sell"),
    }
}

/// The words for the quotations with which an order trades.
pub(crate) fn quotation_of(side: OrderSide) -> Item<'static> {
    match side {
        OrderSide::Buy => Item::Text("offer"),
        OrderSide::Sell => Item::Text("bid"),
    }
}

/// A code as an item of a report, which is absent if there is no code.
pub(crate) fn code_item(code: Option<&'static str>) -> Item<'static> {
    match code {
        Some(code) => Item::Text(code),
        None => Item::Absent,
    }
}

/// Appends the names of the participants against which an order declares self-help. They are sorted by participant, with a `+`
/// between two names.
pub(crate) fn push_named(
    names: &mut Vec<u8>,
    roster: &Roster,
    order: &Order,
) -> Result<(), AllocError> {
    for place in 0..roster.parts() {
        let part = Part::new(place as u8).unwrap();
        if order.self_help.has(part) {
            if !names.is_empty() {
                names.push(b'+')?;
            }
            names.extend_from_slice(roster.part_name(part).as_bytes())?;
        }
    }
    Ok(())
}
