//! Comparing the planner with a plain slow planner on every small board.
use crate::compared::{Quoted, Wanted, finding, quote};
use crate::same::same;
use nms_board::{Boards, View};
use nms_fees::{FeeBook, SETUP_K, Setup, read_setup};
use nms_quote::{OrderSide, PartSet, QState, Sym};
use std::alloc::Global;
use std::process::Abort;

/// One of twelve quotations, by its number: automated or manual, at 0.9999, 1.0000 or 1.0001, with 100 or 200 shares.
fn quoted_as(number: u32) -> Quoted {
    Quoted {
        state: if number % 2 == 0 {
            QState::Automated
        } else {
            QState::Manual
        },
        price: u64::from(number / 2 % 3).wrapping_add(9999),
        shares: if number / 6 % 2 == 0 { 100 } else { 200 },
    }
}

/// Plans an order of each size on a view, with manual quotations and without. Returns how many plans were right, and what is
/// wrong with the first that is not.
fn plan_each(
    view: &View,
    fees: &FeeBook,
    side: OrderSide,
    self_help: PartSet,
) -> (u32, &'static str) {
    let limit = match side {
        OrderSide::Buy => 10_001,
        OrderSide::Sell => 9999,
    };
    let mut right = 0u32;
    for shares in [100, 300, 600] {
        for manual in [false, true] {
            let wanted = Wanted {
                side,
                shares,
                limit,
                manual,
                self_help,
            };
            let found = finding(view, fees, &wanted).unwrap_or("no answer");
            if !found.is_empty() {
                return (right, found);
            }
            right = right.wrapping_add(1);
        }
    }
    (right, "")
}

/// Plans orders on each of the 1,728 boards of three quotations of a side. Returns how many plans were right, and what is wrong
/// with the first that is not.
fn plan_all(
    boards: &mut Boards,
    fees: &FeeBook,
    sym: Sym,
    side: OrderSide,
    self_help: PartSet,
) -> (u32, &'static str) {
    let mut right = 0u32;
    for number in 0..1728u32 {
        let quotes = [
            quoted_as(number % 12),
            quoted_as(number / 12 % 12),
            quoted_as(number / 144 % 12),
        ];
        if quote(boards, sym, side, &quotes).is_none() {
            return (right, "no quotation");
        }
        let (more, found) = plan_each(&boards.view(sym), fees, side, self_help);
        right = right.wrapping_add(more);
        if !found.is_empty() {
            return (right, found);
        }
    }
    (right, "")
}

/// N, P and Y each quote every one of the twelve quotations of one side, and orders of both sides are planned. There are 20,736
/// plans that name no participant, and as many that name P.
#[test]
fn same_plan(rt: HostRuntime) {
    same(&rt, plan_small(&rt, rt.alloc()), (41_472, ""));
}

/// How many plans were right under the built-in setup, and what is wrong with the first that is not.
fn plan_small<R: Abort>(rt: &R, alloc: Global) -> (u32, &'static str) {
    let setup = read_setup(alloc, SETUP_K).expect(rt, "a setup");
    let mut boards = Boards::new(alloc, setup.roster()).expect(rt, "memory");
    plan_both_sides(rt, &mut boards, &setup)
}

/// Plans orders of both sides, with no participant under self-help and then with P. Returns how many plans were right, and what
/// is wrong with the first that is not.
fn plan_both_sides<R: Abort>(rt: &R, boards: &mut Boards, setup: &Setup) -> (u32, &'static str) {
    let sym = setup.roster().find_sym(b"ABC").expect(rt, "ABC");
    let p = setup.roster().find_part(b"P").expect(rt, "P");
    let mut right = 0u32;
    for self_help in [PartSet::none(), PartSet::none().with(p)] {
        for side in [OrderSide::Buy, OrderSide::Sell] {
            let (more, found) = plan_all(boards, setup.fees(), sym, side, self_help);
            right = right.wrapping_add(more);
            if !found.is_empty() {
                return (right, found);
            }
        }
    }
    (right, "")
}
