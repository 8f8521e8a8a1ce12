//! The quotations on the side that an order trades with, in rank order, and what its plan does with each.
ghost use Rattle.std.specs.Prelude.{◌≤◌, length};

use crate::names::name_of;
use crate::telling::{Heading, tell, tell_head};
use nms_board::{Row, View};
use nms_fees::Setup;
use nms_quote::{Leg, OrderSide, Part, Plan};
use nms_rules::{UsableRow, contra, is_better, is_usable};
use nms_show::{Form, Item, ShowFault};
use nms_units::Price;
use std::alloc::Global;
use std::io::Write;

/// The columns of the table of quotations.
const HEADINGS: [Heading; 7] = [
    Heading("from", "participant", 6, false),
    Heading("price", "price", 12, true),
    Heading("displayed", "displayed", 9, true),
    Heading("state", "state", 9, false),
    Heading("a share with the fee", "unit_cost", 24, true),
    Heading("sent", "sent", 9, true),
    Heading("", "note", 0, false),
];

/// Reports the quotations on the side that a plan's order trades with, best first. It shows the cost of a share at each with
/// the fee, whether it is protected, and how many shares the plan sends there.
pub(crate) fn tell_rows<W: Write>(
    alloc: Global,
    answers: &mut W,
    form: Form,
    setup: &Setup,
    view: &View,
    plan: &Plan,
) -> Result<(), ShowFault> {
    tell_head(answers, form, &HEADINGS)?;
    for place in 0..32_u8 {
        let Some(row) = view.ranked(contra(plan.order.side), place) else {
            break;
        };
        tell_row(alloc, answers, form, setup, plan, &row)?;
    }
    Ok(())
}

/// Reports one quotation.
fn tell_row<W: Write>(
    alloc: Global,
    answers: &mut W,
    form: Form,
    setup: &Setup,
    plan: &Plan,
    row: &Row,
) -> Result<(), ShowFault> {
    let unit = UsableRow::of(&plan.order, setup.fees(), row);
    let sent = sent_to(plan.legs.as_slice(), row.part);
    tell(
        alloc,
        answers,
        form,
        &HEADINGS,
        &[],
        &[
            ("what", Item::Text("quotation")),
            ("participant", name_of(setup.roster(), row.part)),
            ("price", Item::of_price(row.price)),
            ("displayed", Item::Number(u64::from(row.size))),
            ("state", state_of(row.protected)),
            ("unit_cost", Item::of_money(unit.cost)),
            ("sent", Item::Number(sent)),
            ("note", Item::Text(note_of(plan, row, sent).words())),
        ],
    )
}

/// The word of a quotation's state.
fn state_of(protected: bool) -> Item<'static> {
    if protected {
        Item::Text("protected")
    } else {
        Item::Text("manual")
    }
}

/// The shares that legs send to a participant.
pub(crate) fn sent_to(legs: &[Leg], part: Part) -> u64
    requires { length legs.now ≤ 32 }
{
    let mut sent: u64 = 0;
    for leg in legs {
        if leg.part == part {
            sent += u64::from(leg.shares.get());
        }
    }
    sent
}

/// What a plan does with a quotation.
#[derive(Clone, Copy)]
pub enum Note {
    /// The quotation has to be swept, and the plan sweeps it.
    Swept,
    /// The quotation has to be swept, but the plan does not sweep it.
    NotSwept,
    /// The plan takes all shares of the quotation.
    TakenInFull,
    /// The plan takes some shares of the quotation.
    TakenInPart,
    /// The plan takes no share of the quotation.
    Left,
    /// The order may not trade with the quotation, because its price is beyond the limit.
    BeyondLimit,
    /// The order declares self-help against the participant, so it may not trade with the quotation.
    SelfHelp,
    /// The order may not trade with the quotation, because it is manual.
    Manual,
}

impl Note {
    /// The words by which a report shows what the plan does with the quotation.
    pub fn words(self) -> &'static str {
        match self {
            Note::Swept => "must be swept, and is",
            Note::NotSwept => "must be swept, and is not",
            Note::TakenInFull => "taken in full",
            Note::TakenInPart => "taken in part",
            Note::Left => "left",
            Note::BeyondLimit => "beyond the limit",
            Note::SelfHelp => "passed over: self-help",
            Note::Manual => "manual, not allowed",
        }
    }
}

/// Says what a plan does with a quotation, if it sends the given number of shares to that participant.
pub(crate) fn note_of(plan: &Plan, row: &Row, sent: u64) -> Note {
    if !is_usable(&plan.order, row) {
        return why_unusable(plan, row);
    }
    let must = row.protected && trades_beyond(plan.order.side, plan.legs.as_slice(), row.price);
    let full = sent >= u64::from(row.size);
    match (must, full, sent) {
        (true, true, _) => Note::Swept,
        (true, false, _) => Note::NotSwept,
        (false, true, _) => Note::TakenInFull,
        (false, false, 0) => Note::Left,
        (false, false, _) => Note::TakenInPart,
    }
}

/// Whether some leg has a worse price than the given one.
fn trades_beyond(side: OrderSide, legs: &[Leg], price: Price) -> bool {
    legs.iter().any(|leg| is_better(side, price, leg.price))
}

/// Why a plan's order may not trade with a quotation.
fn why_unusable(plan: &Plan, row: &Row) -> Note {
    let order = &plan.order;
    if is_better(order.side, order.limit, row.price) {
        Note::BeyondLimit
    } else if order.self_help.has(row.part) {
        Note::SelfHelp
    } else {
        Note::Manual
    }
}
