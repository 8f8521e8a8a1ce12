//! The rows of a page that come from a plan (`specs/Plans`).
ghost use Rattle.std.specs.Prelude.{◌≡◌, ◌∷◌, [], map, IfOk, OnOk};
ghost use Rattle.nms_drawing.specs.Plans.{flag_cell, leg_row, leg_rows, order_cell, plan_row, quotation_row, quotation_rows};

use crate::rows::Window;
use nms_quote::{Leg, OrderSide, Plan};
use nms_verdicts::{Quotation, Said};
use std::alloc::{AllocError, Global};

/// The rows of the tables of a plan, and a list of texts. A row refers to a text by its place in the list.
#[derive(Drop)]
pub(crate) struct PlanRows<'a> {
    pub(crate) plans: Vec<[u64; 9]>,
    pub(crate) legs: Vec<[u64; 4]>,
    pub(crate) quotations: Vec<[u64; 8]>,
    /// The remarks about the plan, a row for each line.
    pub(crate) said: Vec<[u64; 3]>,
    /// The texts of the plan, after an empty one at place 0.
    pub(crate) words: Vec<&'a [u8]>,
}

/// Empty tables and an empty list of texts, for a page without a plan.
pub(crate) fn no_plan<'a>(alloc: Global) -> PlanRows<'a>
    ensures plans { result.plans.items ≡ [] }
    ensures legs { result.legs.items ≡ [] }
    ensures quotations { result.quotations.items ≡ [] }
{
    PlanRows {
        plans: Vec::new(alloc),
        legs: Vec::new(alloc),
        quotations: Vec::new(alloc),
        said: Vec::new(alloc),
        words: Vec::new(alloc),
    }
}

/// The rows of a plan of a day.
pub(crate) fn plan_rows<'a>(
    alloc: Global,
    window: &Window<'_>,
    day: u64,
    name: &'a [u8],
    plan: &Plan,
    said: &'a Said,
) -> Result<PlanRows<'a>, AllocError>
    ensures plans { IfOk result (λ rows. rows.plans.items ≡ plan_row window.now day plan.now ∷ []) }
    ensures legs { IfOk result (λ rows. rows.legs.items ≡ leg_rows plan.now) }
    ensures quotations { IfOk result (λ rows. rows.quotations.items ≡ quotation_rows 3 said.now.quotations.items) }
{
    let mut rows = no_plan(alloc);
    match add_plan(&mut rows, window, day, name, plan, said) {
        Ok(()) => Ok(rows),
        Err(fault) => Err(fault),
    }
}

/// Adds the rows of a plan to empty lists.
fn add_plan<'a>(
    rows: &mut PlanRows<'a>,
    window: &Window<'_>,
    day: u64,
    name: &'a [u8],
    plan: &Plan,
    said: &'a Said,
) -> Result<(), AllocError>
    requires plans { rows.old.plans.items ≡ [] }
    requires legs { rows.old.legs.items ≡ [] }
    requires quotations { rows.old.quotations.items ≡ [] }
    ensures plans { OnOk result (rows.new.plans.items ≡ plan_row window.now day plan.now ∷ []) }
    ensures legs { OnOk result (rows.new.legs.items ≡ leg_rows plan.now) }
    ensures quotations { OnOk result (rows.new.quotations.items ≡ quotation_rows 3 said.now.quotations.items) }
{
    rows.plans.push(plan_row(window, day, plan))?;
    add_legs(&mut rows.legs, plan.legs.as_slice())?;
    add_quotations(&mut rows.quotations, &said.quotations)?;
    add_words(&mut rows.words, name, &said.verdict, &said.quotations)?;
    add_lines(&mut rows.said, &mut rows.words, 0, &said.order)?;
    add_lines(&mut rows.said, &mut rows.words, 1, &said.doubt)?;
    add_lines(&mut rows.said, &mut rows.words, 2, &said.certificate)
}

/// The row of a plan. Its last two numbers are the places of its name and its verdict in the list of texts.
fn plan_row(window: &Window<'_>, day: u64, plan: &Plan) -> [u64; 9]
    ensures { result ≡ plan_row window.now day plan.now }
{
    let order = &plan.order;
    [
        day,
        plan.version,
        window.time_of(plan.version),
        order_cell(order.side),
        u64::from(order.shares.get()),
        order.limit.get(),
        u64::from(plan.filled),
        1,
        2,
    ]
}

/// The number that means an order's side: 1 for an order to buy, 2 for an order to sell.
fn order_cell(side: OrderSide) -> u64
    ensures { result ≡ order_cell side }
{
    match side {
        OrderSide::Buy => 1,
        OrderSide::Sell => 2,
    }
}

/// Adds the rows of legs to an empty list.
fn add_legs(rows: &mut Vec<[u64; 4]>, legs: &[Leg]) -> Result<(), AllocError>
    requires { rows.old.items ≡ [] }
    ensures { OnOk result (rows.new.items ≡ map leg_row legs.now) }
{
    for leg in legs {
        rows.push(leg_row(leg))?;
    }
    Ok(())
}

/// The row of a leg: the number of its plan, the number of the participant, the price, and the shares.
fn leg_row(leg: &Leg) -> [u64; 4]
    ensures { result ≡ leg_row leg.now }
{
    [
        0,
        u64::from(leg.part.get()) + 1,
        leg.price.get(),
        u64::from(leg.shares.get()),
    ]
}

/// Adds the rows of quotations to an empty list. Their notes follow the plan's name and verdict in the list of texts, from
/// place 3.
fn add_quotations(rows: &mut Vec<[u64; 8]>, quotations: &[Quotation]) -> Result<(), AllocError>
    requires { rows.old.items ≡ [] }
    ensures { OnOk result (rows.new.items ≡ quotation_rows 3 quotations.now) }
{
    let mut note = 3;
    for quotation in quotations {
        rows.push(quotation_row(note, quotation))?;
        note += 1;
    }
    Ok(())
}

/// The row of a quotation.
fn quotation_row(note: u64, quotation: &Quotation) -> [u64; 8]
    ensures { result ≡ quotation_row note quotation.now }
{
    let row = &quotation.row;
    [
        0,
        u64::from(row.part.get()) + 1,
        row.price.get(),
        u64::from(row.size),
        u64::from(!row.protected),
        quotation.sent,
        u64::from(quotation.is_over),
        note,
    ]
}

/// Adds an empty text, the name of a plan, its verdict, and the notes of its quotations.
fn add_words<'a>(
    words: &mut Vec<&'a [u8]>,
    name: &'a [u8],
    verdict: &'a [u8],
    quotations: &'a [Quotation],
) -> Result<(), AllocError> {
    words.push(b"")?;
    words.push(name)?;
    words.push(verdict)?;
    for quotation in quotations {
        words.push(quotation.note.words().as_bytes())?;
    }
    Ok(())
}

/// Adds each line of a text as a separate text, without the spaces at its beginning.
fn add_lines<'a>(
    said: &mut Vec<[u64; 3]>,
    words: &mut Vec<&'a [u8]>,
    part: u64,
    text: &'a [u8],
) -> Result<(), AllocError> {
    for line in text.split(|byte| *byte == b'\n') {
        let line = line.trim_ascii_start();
        if !line.is_empty() {
            said.push([0, part, words.len() as u64])?;
            words.push(line)?;
        }
    }
    Ok(())
}
