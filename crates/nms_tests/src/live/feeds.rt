//! Runs with more or fewer feeds than two.
use super::chance::{Limits, setup_of};
use super::worked::{compare_closing, feed_a, feed_b, first_told, has_four, never_falls, order};
use super::{Wanted, run};
use crate::same::same;
use nms_lines::LineFault;
use nms_live::{Gate, GatePoint, Live, LiveFault, OpenGate};
use nms_quote::{Change, Feed};
use std::alloc::Global;
use std::process::Abort;
use std::sync::Wait;
use std::thread::Threads;

/// The text of a setup in which the participants N, P, Y and Z are on the given feeds.
fn worked_setup<R: Abort>(rt: &R, alloc: Global, feeds: u8, letters: [&str; 4]) -> String {
    let [n, p, y, z] = letters;
    format!(in alloc;
        "tape_limit = 1000\nqueue = 16\ndesks = 2\nfeeds = {feeds}\n
[[participant]]\nname = \"N\"\nfeed = \"{n}\"\nfee = 3000000\nrate = 300\n
[[participant]]\nname = \"P\"\nfeed = \"{p}\"\nfee = 2800000\nrate = 300\n
[[participant]]\nname = \"Y\"\nfeed = \"{y}\"\nfee = -200000\nrate = 0\n
[[participant]]\nname = \"Z\"\nfeed = \"{z}\"\nfee = 3000000\nrate = 300\n
[[symbol]]\nname = \"ABC\"\nlot = 100\n[[symbol]]\nname = \"PNY\"\nlot = 100\n"
    )
    .expect(rt, "memory")
}

/// Runs the given feeds with an order of desk 0 to buy 600 ABC at 10.01 or better. N, P, Y and Z are on the feeds with the given
/// letters.
fn run_worked<R: Threads + Wait + Abort + Sync>(
    rt: &R,
    alloc: Global,
    feeds: &[&[u8]],
    letters: [&str; 4],
) -> Live {
    let count = u8::try_from(feeds.len()).expect(rt, "at most eight feeds");
    let setup = worked_setup(rt, alloc, count, letters);
    run(rt, alloc, setup.as_str(), feeds, &[order()], &OpenGate).expect(rt, "a run")
}

/// The place in the tape of a participant's first change.
fn place_in(tape: &[Change], part: u8) -> Option<usize> {
    tape.iter().position(|change| change.part().map(|part| part.get()) == Some(part))
}

/// The text that Y sends.
const OF_Y: &[u8] = b"Q,Y,ABC,A,,,10.01,200\n";
/// The text that Z sends.
const OF_Z: &[u8] = b"Q,Z,ABC,A,,,10.02,100\n";

#[test]
fn three_feeds_come_to_one_tape(rt: HostRuntime) {
    let feeds = [feed_a(), OF_Y, OF_Z];
    let live = run_worked(&rt, rt.alloc(), &feeds, ["A", "A", "B", "C"]);
    compare_three(&rt, rt.alloc(), &live);
}

/// Compares the tape and the answers of a run of three feeds with the expected ones.
fn compare_three<R: Abort>(rt: &R, alloc: Global, live: &Live) {
    let tape = live.tape.as_slice();
    same(rt, tape.len(), 4);
    same(rt, place_in(tape, 0) < place_in(tape, 1), true);
    same(rt, first_told(&live.closing), Some((0, 0, 4, 600)));
    compare_closing(rt, alloc, &live.closing);
}

#[test]
fn one_feed_is_the_tape(rt: HostRuntime) {
    let all: &[u8] =
        b"Q,N,ABC,A,,,10.00,300\nQ,P,ABC,A,,,10.00,500\nQ,Y,ABC,A,,,10.01,200\nQ,Z,ABC,A,,,10.02,100\n";
    let live = run_worked(&rt, rt.alloc(), &[all], ["A", "A", "A", "A"]);
    compare_one(&rt, rt.alloc(), &live);
}

/// Compares the tape and the answers of a run of one feed with the expected ones.
fn compare_one<R: Abort>(rt: &R, alloc: Global, live: &Live) {
    let tape = live.tape.as_slice();
    for part in 0..4u8 {
        same(rt, place_in(tape, part), Some(usize::from(part)));
    }
    same(rt, tape.len(), 4);
    compare_closing(rt, alloc, &live.closing);
}

#[test]
fn eight_feeds_of_which_six_send_nothing(rt: HostRuntime) {
    let none: &[u8] = b"";
    let feeds = [feed_a(), feed_b(), none, none, none, none, none, none];
    let live = run_worked(&rt, rt.alloc(), &feeds, ["A", "A", "B", "B"]);
    compare_eight(&rt, rt.alloc(), &live);
}

/// Compares the tape and the answers of a run of eight feeds with the expected ones.
fn compare_eight<R: Abort>(rt: &R, alloc: Global, live: &Live) {
    same(rt, has_four(&live.tape, &live.published), true);
    same(rt, first_told(&live.closing), Some((0, 0, 4, 600)));
    compare_closing(rt, alloc, &live.closing);
}

/// The fault of a run of eight feeds, some of which send a record that is refused.
fn fault_of<R: Threads + Wait + Abort + Sync>(
    rt: &R,
    alloc: Global,
    feeds: &[&[u8]; 8],
) -> Option<LiveFault> {
    let setup = worked_setup(rt, alloc, 8, ["A", "C", "E", "H"]);
    run(rt, alloc, setup.as_str(), feeds, &[order()], &OpenGate).err()
}

#[test]
fn of_the_feeds_that_are_refused_the_first_is_named(rt: HostRuntime) {
    let (none, bad): (&[u8], &[u8]) = (b"", b"Q,N,ABC\n");
    for (feeds, feed) in [
        ([none, none, none, none, none, none, none, bad], Feed::H),
        ([none, none, none, bad, none, bad, none, bad], Feed::D),
        ([none, none, none, none, none, bad, bad, none], Feed::F),
        ([bad, bad, bad, bad, bad, bad, bad, bad], Feed::A),
    ] {
        let want = LiveFault::Line {
            feed,
            number: 1,
            fault: LineFault::FieldCount,
        };
        same(&rt, fault_of(&rt, rt.alloc(), &feeds), Some(want));
    }
}

/// The text of a feed of n changes of one participant.
fn changes_of<R: Abort>(rt: &R, alloc: Global, part: &str, count: u32) -> Vec<u8> {
    let mut text = Vec::new(alloc);
    for number in 0..count {
        let cents = number % 10;
        let line = format!(in alloc; "Q,{part},ABC,A,,,10.0{cents},300\n").expect(rt, "memory");
        text.extend_from_slice(line.as_bytes()).expect(rt, "memory");
    }
    text
}

/// A gate that holds a feed until the feed's last change was published. So each change is published separately, or nearly so.
#[derive(Drop)]
struct Stepped {
    published: std::sync::atomic::AtomicU64,
}

impl Gate for Stepped {
    fn may(&self, at: GatePoint) -> bool {
        match at {
            GatePoint::Send { k, .. } => k
                <= self.published.load(std::sync::atomic::Ordering::SeqCst),
            GatePoint::Look { .. } | GatePoint::Publish { .. } => true,
        }
    }

    fn done(&self, at: GatePoint) {
        if matches!(at, GatePoint::Publish { .. }) {
            self.published
                .fetch_add(1, std::sync::atomic::Ordering::SeqCst);
        }
    }
}

/// One order for each of 16 desks.
fn orders_of_all<R: Abort>(rt: &R, alloc: Global) -> Vec<Wanted> {
    let mut table = Vec::new(alloc);
    for desk in 0..16u8 {
        let mut wanted = order();
        wanted.desk = desk;
        table.push(wanted).expect(rt, "memory");
    }
    table
}

/// The texts of eight feeds of n changes each.
fn texts_of_all<R: Abort>(rt: &R, alloc: Global, each: u32) -> Vec<Vec<u8>> {
    let mut texts = Vec::new(alloc);
    for name in ["N", "Y", "A", "C", "J", "M", "T", "V"] {
        let text = changes_of(rt, alloc, name, each);
        texts.push(text).expect(rt, "memory");
    }
    texts
}

/// A run of eight feeds and 16 desks, in which each feed sends n changes.
fn run_all<R: Threads + Wait + Abort + Sync>(rt: &R, alloc: Global, each: u32) -> Live {
    let limits = Limits {
        tape: 100_000,
        queue: 8,
        desks: 16,
        feeds: 8,
    };
    let setup = setup_of(rt, alloc, limits);
    let texts = texts_of_all(rt, alloc, each);
    let feeds = slices_of(rt, alloc, &texts);
    let table = orders_of_all(rt, alloc);
    let gate = Stepped {
        published: std::sync::atomic::AtomicU64::new(0),
    };
    run(rt, alloc, setup.as_str(), &feeds, &table, &gate).expect(rt, "a run")
}

/// Lends each text as bytes, without a copy.
fn slices_of<'t, R: Abort>(rt: &R, alloc: Global, texts: &'t [Vec<u8>]) -> Vec<&'t [u8]> {
    let mut slices = Vec::new(alloc);
    for text in texts {
        slices.push(text.as_slice()).expect(rt, "memory");
    }
    slices
}

/// Compares a run of eight feeds and 16 desks with the expected result.
fn compare_all<R: Abort>(rt: &R, live: &Live, each: u32) {
    same(rt, live.tape.len() as u64, 8 * u64::from(each));
    same(rt, never_falls(&live.published), true);
    same(rt, live.published.len() >= 1000, true);
    same(rt, (live.answers.len(), live.closing.len()), (16, 16));
}

#[test]
fn eight_feeds_and_sixteen_desks_while_a_thousand_versions_are_published(rt: HostRuntime) {
    let live = run_all(&rt, rt.alloc(), 1100);
    compare_all(&rt, &live, 1100);
}
