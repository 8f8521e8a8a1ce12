//! Judging plans for another version or another order than their own. A program judges each plan only for its own.
use super::{same, there};
use crate::offers::apply_offer;
use nms_board::{Boards, View};
use nms_engine::order_of;
use nms_fees::Setup;
use nms_lines::read_plan;
use nms_quote::{Order, Plan, QState};
use nms_rules::breach;
use std::alloc::Global;
use std::test::Fail;

/// Judges the plans on versions before the plans' own, on their own, and on the next one.
pub(super) fn try_all(alloc: Global, setup: &Setup) -> Result<(), Fail> {
    let mut board = Boards::new(alloc, setup.roster())?;
    let sym = there(setup.roster().find_sym(b"ABC"))?;
    for (place, price, shares) in [
        (0, 100_000, 300),
        (1, 100_100, 500),
        (2, 100_200, 100),
        (2, 100_200, 200),
    ] {
        apply_offer(&mut board, place, QState::Automated, price, shares);
        try_plans(alloc, setup, &board.view(sym))?;
    }
    Ok(())
}

/// Judges plans of version 3 to buy 700 ABC at 10.01 or better, on a given view. Each plan has its expected first breach.
fn try_plans(alloc: Global, setup: &Setup, view: &View) -> Result<(), Fail> {
    for (rest, code) in [
        ("700,7006.020000000\nLEG,N,10,300\nLEG,P,10.01,400", "none"),
        (
            "700,7006.020000000,Z\nLEG,N,10,300\nLEG,P,10.01,400",
            "none",
        ),
        ("100,1000.000000000\nLEG,Z,10,100", "P3"),
        ("100,1000.000000000\nLEG,N,10.01,100", "P4"),
        ("0,0.000000000\nLEG,N,10,0", "P5"),
        ("301,3010.000000000\nLEG,N,10,301", "P6"),
        ("200,2000.000000000\nLEG,N,10,100\nLEG,N,10,100", "P7"),
        ("100,1002.000000000\nLEG,Y,10.02,100", "P8"),
        ("800,8000.000000000\nLEG,N,10,300\nLEG,P,10.01,500", "P9"),
        ("400,4001.000000000\nLEG,N,10,299\nLEG,P,10.01,101", "P10"),
        ("701,7006.020000000\nLEG,N,10,300\nLEG,P,10.01,400", "P11"),
        ("700,7006.030000000\nLEG,N,10,300\nLEG,P,10.01,400", "P12"),
    ] {
        let text = format!(in alloc; "PLAN,3,B,ABC,700,10.01,,{rest}\nEND\n")?;
        let (plan, _) = read_plan(alloc, text.as_bytes(), setup.roster())?;
        try_plan(setup, view, &plan, code)?;
    }
    Ok(())
}

/// Judges a plan for its own order, and for each order that differs from it in one field.
fn try_plan(setup: &Setup, view: &View, plan: &Plan, code: &'static str) -> Result<(), Fail> {
    let is_its_own = view.version() == plan.version;
    let first = if is_its_own { code } else { "P1" };
    same(found(setup, view, &plan.order, plan), first)?;
    let first = if is_its_own { "P2" } else { "P1" };
    for (side, sym, shares, limit, manual, names) in [
        ("S", "ABC", "700", "10.01", false, None),
        ("B", "PNY", "700", "10.01", false, None),
        ("B", "ABC", "699", "10.01", false, None),
        ("B", "ABC", "700", "10.02", false, None),
        ("B", "ABC", "700", "10.01", true, None),
        ("B", "ABC", "700", "10.01", false, Some("Y")),
        ("B", "ABC", "700", "10.01", false, Some("Y+Z")),
    ] {
        let order = order_of(setup.roster(), side, sym, shares, limit, manual, names);
        same(found(setup, view, &there(order)?, plan), first)?;
    }
    Ok(())
}

/// The code of the first breach of a plan for an order; `none` if it has none.
fn found(setup: &Setup, view: &View, order: &Order, plan: &Plan) -> &'static str {
    match breach(view, order, setup.fees(), plan) {
        Some(breach) => breach.code(),
        None => "none",
    }
}
