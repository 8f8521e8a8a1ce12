//! Live runs over texts: a setup's text, the texts of its feeds, and a table of orders.
ghost use Rattle.std.specs.Prelude.{◌<◌, All};

mod chance;
mod drawn;
mod feeds;
mod gated;
mod judge;
mod lots;
mod overlap;
mod pace;
mod plain_look;
mod worked;

use nms_fees::{Setup, read_setup};
use nms_live::{DeskOrder, Gate, Live, LiveFault, run_live};
use nms_quote::{Order, OrderSide, PartSet, Sym};
use nms_units::{Price, Shares};
use std::alloc::Global;
use std::process::Abort;
use std::sync::Wait;
use std::thread::Threads;

/// An order as numbers: its desk, its side, the symbol's place, the shares, a limit in 1/10,000 dollar, and whether it takes
/// manual quotations.
#[derive(Clone, Copy)]
pub(crate) struct Wanted {
    pub(crate) desk: u8,
    pub(crate) buys: bool,
    pub(crate) sym: u16,
    pub(crate) shares: u32,
    pub(crate) limit: u64,
    pub(crate) manual: bool,
}

/// The text of a setup: N and P on feed A, Y and Z on feed B, ABC and PNY in lots of 100. The limit of the tape, the room in the
/// queue and the number of desks are given.
pub(crate) fn setup_text<R: Abort>(
    rt: &R,
    alloc: Global,
    limit: u32,
    queue: u32,
    desks: u32,
) -> String {
    format!(in alloc;
        "tape_limit = {limit}\nqueue = {queue}\ndesks = {desks}\n{}",
        participants()
    )
    .expect(rt, "memory")
}

/// The participants N, P, Y and Z and the symbols ABC and PNY, as a setup's text gives them.
fn participants() -> &'static str {
    r#"
[[participant]]
name = "N"
feed = "A"
fee = 3000000
rate = 300
[[participant]]
name = "P"
feed = "A"
fee = 2800000
rate = 300
[[participant]]
name = "Y"
feed = "B"
fee = -200000
rate = 0
[[participant]]
name = "Z"
feed = "B"
fee = 3000000
rate = 300
[[symbol]]
name = "ABC"
lot = 100
[[symbol]]
name = "PNY"
lot = 100
"#
}

/// The order that the numbers in a row of a table give.
pub(crate) fn order_of(wanted: &Wanted) -> Option<Order> {
    let side = if wanted.buys {
        OrderSide::Buy
    } else {
        OrderSide::Sell
    };
    let shares = Shares::new(wanted.shares)?;
    let limit = Price::new(wanted.limit)?;
    Order::new(
        side,
        Sym::new(wanted.sym)?,
        shares,
        limit,
        wanted.manual,
        PartSet::none(),
    )
}

/// Adds an order to a list. An order for a desk that the setup does not have is left out.
fn add_order<R: Abort>(rt: &R, orders: &mut Vec<DeskOrder>, desks: u8, wanted: &Wanted)
    requires { All (λ order. order.desk < desks) orders.old.items }
    ensures { All (λ order. order.desk < desks) orders.new.items }
{
    let order = order_of(wanted).expect(rt, "an order");
    let desk = wanted.desk;
    if desk < desks {
        orders.push(DeskOrder { desk, order }).expect(rt, "memory");
    }
}

/// The orders of a table, without those for a desk that the setup does not have.
fn orders_of<R: Abort>(rt: &R, alloc: Global, desks: u8, table: &[Wanted]) -> Vec<DeskOrder>
    ensures { All (λ order. order.desk < desks) result.items }
{
    let mut orders = Vec::new(alloc);
    for wanted in table {
        add_order(rt, &mut orders, desks, wanted);
    }
    orders
}

/// The texts of feeds, each in its own memory.
fn texts_of<R: Abort>(rt: &R, alloc: Global, feeds: &[&[u8]]) -> Vec<Vec<u8>> {
    let mut texts = Vec::new(alloc);
    for feed in feeds {
        let text = Vec::from_slice(alloc, feed).expect(rt, "memory");
        texts.push(text).expect(rt, "memory");
    }
    texts
}

/// Runs feeds with orders. The setup has to have as many feeds as there are texts.
fn run_orders<R: Threads + Wait + Abort + Sync, G: Gate>(
    rt: &R,
    alloc: Global,
    setup: &Setup,
    feeds: &[&[u8]],
    orders: Vec<DeskOrder>,
    gate: &G,
) -> Result<Live, LiveFault>
    requires { All (λ order. order.desk < setup.now.desks) orders.items }
{
    let texts = texts_of(rt, alloc, feeds);
    assert!(rt; texts.len() == usize::from(setup.feeds()));
    run_live(rt, alloc, setup, texts, orders, gate)
}

/// Makes one live run over the texts of feeds and a table of orders.
fn run_once<R: Threads + Wait + Abort + Sync, G: Gate>(
    rt: &R,
    alloc: Global,
    setup: &Setup,
    feeds: &[&[u8]],
    table: &[Wanted],
    gate: &G,
) -> Result<Live, LiveFault> {
    let orders = orders_of(rt, alloc, setup.desks(), table);
    run_orders(rt, alloc, setup, feeds, orders, gate)
}

/// Makes a live run under the setup that a text gives.
pub(crate) fn run<R: Threads + Wait + Abort + Sync, G: Gate>(
    rt: &R,
    alloc: Global,
    setup: &str,
    feeds: &[&[u8]],
    table: &[Wanted],
    gate: &G,
) -> Result<Live, LiveFault> {
    let setup = read_setup(alloc, setup).expect(rt, "a setup");
    run_under(rt, alloc, &setup, feeds, table, gate)
}

/// Makes a live run under a setup. The opening may fail because no place for a reader is free, so it tries up to 100 times.
fn run_under<R: Threads + Wait + Abort + Sync, G: Gate>(
    rt: &R,
    alloc: Global,
    setup: &Setup,
    feeds: &[&[u8]],
    table: &[Wanted],
    gate: &G,
) -> Result<Live, LiveFault> {
    for _ in 0..100u32 {
        let came_to = run_once(rt, alloc, setup, feeds, table, gate);
        if !matches!(&came_to, Err(LiveFault::Open)) {
            return came_to;
        }
    }
    Err(LiveFault::Open)
}
