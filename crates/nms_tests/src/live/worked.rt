//! Runs of a few changes, with values worked out by hand.
use super::{Wanted, run, setup_text};
use crate::same::same;
use nms_fees::{SETUP_K, read_setup};
use nms_lines::{LineFault, read_plan};
use nms_live::{Answer, Gate, GatePoint, Live, LiveFault, OpenGate};
use nms_quote::{Certificate, Change, Feed, Leg, Part, Plan, Roster};
use std::alloc::Global;
use std::process::Abort;
use std::sync::Wait;
use std::thread::Threads;

/// The text of feed A: an offer of 300 by N and one of 500 by P, both at 10.00.
pub(crate) fn feed_a() -> &'static [u8] {
    b"Q,N,ABC,A,,,10.00,300\nQ,P,ABC,A,,,10.00,500\n"
}

/// The text of feed B: an offer of 200 by Y at 10.01 and one of 100 by Z at 10.02.
pub(crate) fn feed_b() -> &'static [u8] {
    b"Q,Y,ABC,A,,,10.01,200\nQ,Z,ABC,A,,,10.02,100\n"
}

/// The order of desk 0, which buys 600 ABC at 10.01 or better.
pub(crate) fn order() -> Wanted {
    Wanted {
        desk: 0,
        buys: true,
        sym: 0,
        shares: 600,
        limit: 100_100,
        manual: false,
    }
}

/// The facts of an answer: its desk, its number, its version and the shares filled.
pub(crate) fn told(answer: &Answer) -> (u8, usize, u64, u32) {
    let plan = &answer.plan;
    (answer.desk, answer.number, plan.version, plan.filled)
}

/// The desk, the number, the version and the filled shares of the first answer. `None` if there is no answer.
pub(crate) fn first_told(answers: &[Answer]) -> Option<(u8, usize, u64, u32)> {
    match answers.first() {
        Some(answer) => Some(told(answer)),
        None => None,
    }
}

/// The place in the tape of the first change of a participant.
fn place_of(tape: &[Change], part: u8) -> Option<usize> {
    let part = Part::new(part)?;
    tape.iter().position(|change| change.part() == Some(part))
}

/// Whether no number is below the one before it.
pub(crate) fn never_falls(numbers: &[u64]) -> bool {
    let mut last = 0;
    for number in numbers {
        if *number < last {
            return false;
        }
        last = *number;
    }
    true
}

/// Whether the tape has the four changes of feeds A and B, and was published completely. The changes of each feed have to be in
/// its order.
pub(crate) fn has_four(tape: &[Change], published: &[u64]) -> bool {
    tape.len() == 4
        && place_of(tape, 0) < place_of(tape, 1)
        && place_of(tape, 2) < place_of(tape, 3)
        && place_of(tape, 0).is_some()
        && place_of(tape, 2).is_some()
        && never_falls(published)
        && published.last() == Some(&4)
}

/// The plan text of the closing answer, worked out by hand.
const CLOSING: &[u8] =
    b"PLAN,4,B,ABC,600,10.0100,,600,6001.700000000\nLEG,N,10.0000,100\nLEG,P,10.0000,500\nCUT,10.0000,MARGINAL,10.003000000\nCUT,10.0100,TOOMUCH,\nEND\n";

/// Whether an answer is the closing plan with its certificate, both worked out by hand. `None` if the expected text is not read.
pub(crate) fn says_closing(alloc: Global, answer: &Answer) -> Option<bool> {
    match read_setup(alloc, SETUP_K) {
        Ok(setup) => says_under(alloc, setup.roster(), answer),
        Err(_) => None,
    }
}

/// Whether an answer is the closing plan that was worked out by hand. A given roster has the names in its text.
fn says_under(alloc: Global, roster: &Roster, answer: &Answer) -> Option<bool> {
    match read_plan(alloc, CLOSING, roster) {
        Ok((plan, certificate)) => Some(is_answered(answer, &plan, &certificate)),
        Err(_) => None,
    }
}

/// Whether an answer has a given plan and a given certificate.
fn is_answered(answer: &Answer, plan: &Plan, certificate: &Certificate) -> bool {
    is_plan(&answer.plan, plan) && answer.certificate.as_slice() == certificate.as_slice()
}

/// Whether legs are the same, in the same order.
fn are_legs(one: &[Leg], other: &[Leg]) -> bool {
    one == other
}

/// Whether two plans are the same.
fn is_plan(one: &Plan, other: &Plan) -> bool {
    one.version == other.version
        && one.order == other.order
        && are_legs(one.legs.as_slice(), other.legs.as_slice())
        && one.filled == other.filled
        && one.cost == other.cost
}

/// Compares each closing answer with the plan and the certificate that were worked out by hand.
pub(crate) fn compare_closing<R: Abort>(rt: &R, alloc: Global, closing: &[Answer]) {
    for answer in closing {
        same(rt, says_closing(alloc, answer), Some(true));
    }
}

/// Compares the tape and the answers of the run of two feeds with the values worked out by hand.
fn compare_worked<R: Abort>(rt: &R, alloc: Global, live: &Live) {
    same(rt, has_four(&live.tape, &live.published), true);
    same(rt, (live.answers.len(), live.closing.len()), (1, 1));
    same(rt, first_told(&live.closing), Some((0, 0, 4, 600)));
    compare_closing(rt, alloc, &live.closing);
}

#[test]
fn the_worked_run_answers_on_the_whole_tape(rt: HostRuntime) {
    let feeds = [feed_a(), feed_b()];
    let came_to = run(&rt, rt.alloc(), SETUP_K, &feeds, &[order()], &OpenGate);
    let live = came_to.expect(&rt, "a run");
    compare_worked(&rt, rt.alloc(), &live);
}

#[test]
fn an_order_for_a_symbol_off_the_roster_is_answered_with_no_leg(rt: HostRuntime) {
    let feeds = [feed_a(), feed_b()];
    let stranger = Wanted { sym: 9, ..order() };
    let orders = [stranger, order()];
    let came_to = run(&rt, rt.alloc(), SETUP_K, &feeds, &orders, &OpenGate);
    let live = came_to.expect(&rt, "a run");
    same(&rt, first_told(&live.closing), Some((0, 0, 4, 0)));
    same(&rt, live.closing.last().map(told), Some((0, 1, 4, 600)));
}

/// The fault that ends a run with an order to buy 600 ABC. The setup has a given limit of the tape, and room for two changes in
/// the queue.
fn fault<R: Threads + Wait + Abort + Sync, G: Gate>(
    rt: &R,
    alloc: Global,
    limit: u32,
    feeds: &[&[u8]],
    gate: &G,
) -> Option<LiveFault> {
    let setup = setup_text(rt, alloc, limit, 2, 2);
    run(rt, alloc, setup.as_str(), feeds, &[order()], gate).err()
}

#[test]
fn the_first_refused_record_is_named_and_feed_a_goes_first(rt: HostRuntime) {
    let stranger = b"Q,N,ABC,A,,,10.00,300\nQ,Z,ABC,A,,,10.02,100\n".as_slice();
    let short = b"Q,N,ABC,A,,,10.00,300\nQ,N,ABC,A,10.00,100\n".as_slice();
    let unknown = b"Z\nQ,Z,ABC,A,,,10.02,100\n".as_slice();
    let lot = b"R,ABC,40\n".as_slice();
    let no_lot = b"R,ABC,1000\nR,ABC,1001\n".as_slice();
    for (text_a, text_b, feed, number, fault_told) in [
        (feed_a(), stranger, Feed::B, 1, LineFault::WrongFeed),
        (short, unknown, Feed::A, 2, LineFault::FieldCount),
        (feed_a(), unknown, Feed::B, 1, LineFault::UnknownKind),
        (short, feed_b(), Feed::A, 2, LineFault::FieldCount),
        (lot, lot, Feed::B, 1, LineFault::WrongFeed),
        (no_lot, lot, Feed::A, 2, LineFault::BadLot),
    ] {
        let told = fault(&rt, rt.alloc(), 1000, &[text_a, text_b], &OpenGate);
        let want = LiveFault::Line {
            feed,
            number,
            fault: fault_told,
        };
        same(&rt, told, Some(want));
    }
}

/// The text of a feed with five quotations of one participant.
pub(crate) const FIVE: &[u8] =
    b"Q,N,ABC,A,,,10.00,100\nQ,N,ABC,A,,,10.00,100\nQ,N,ABC,A,,,10.00,100\nQ,N,ABC,A,,,10.00,100\nQ,N,ABC,A,,,10.00,100\n";

/// How many changes the tape of a run has, how many answers and closing answers there are, and the last published version.
fn lengths_of(live: &Live) -> (usize, usize, usize, Option<u64>) {
    (
        live.tape.len(),
        live.answers.len(),
        live.closing.len(),
        live.published.last().copied(),
    )
}

/// How many changes and answers a run without orders has, through a lane of two places, and the last published version.
fn lengths<R: Threads + Wait + Abort + Sync>(
    rt: &R,
    alloc: Global,
    feeds: &[&[u8]],
) -> (usize, usize, usize, Option<u64>) {
    let setup = setup_text(rt, alloc, 1000, 2, 2);
    let live = run(rt, alloc, setup.as_str(), feeds, &[], &OpenGate).expect(rt, "a run");
    lengths_of(&live)
}

#[test]
fn five_changes_go_through_a_lane_of_2_and_not_on_a_tape_of_4(rt: HostRuntime) {
    for (text, all) in [(FIVE, 5), (b"", 0)] {
        let told = lengths(&rt, rt.alloc(), &[text, b""]);
        same(&rt, told, (all, 0, 0, Some(all as u64)));
    }
    let told = fault(&rt, rt.alloc(), 4, &[FIVE, b""], &OpenGate);
    same(&rt, told, Some(LiveFault::Append));
}

/// A gate that never opens at sends of feed A, at looks or at publishings; else it is open.
#[derive(Clone, Copy, Debug, PartialEq)]
enum Shut {
    Send,
    Look,
    Publish,
}

impl Gate for Shut {
    fn may(&self, at: GatePoint) -> bool {
        match self {
            Shut::Send => !matches!(at, GatePoint::Send { feed: Feed::A, .. }),
            Shut::Look => !matches!(at, GatePoint::Look { .. }),
            Shut::Publish => !matches!(at, GatePoint::Publish { .. }),
        }
    }

    fn done(&self, _at: GatePoint) {}
}

#[test]
fn a_gate_that_never_opens_ends_the_run_and_nobody_hangs(rt: HostRuntime) {
    for gate in [Shut::Send, Shut::Look, Shut::Publish] {
        let told = fault(&rt, rt.alloc(), 1000, &[FIVE, feed_b()], &gate);
        same(&rt, (gate, told), (gate, Some(LiveFault::GateLimit)));
    }
}
