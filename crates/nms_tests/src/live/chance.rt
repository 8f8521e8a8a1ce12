//! Many short random runs, each judged by a plain slow program.
use super::drawn::{Sent, drawn_feeds, part_name};
use super::judge::finding;
use super::{Wanted, run};
use crate::chance::Chance;
use crate::same::same;
use nms_live::{Gate, GatePoint, Live, LiveFault};
use nms_quote::Feed;
use std::alloc::Global;
use std::process::Abort;
use std::sync::Wait;
use std::sync::atomic::{AtomicU64, Ordering};
use std::thread;
use std::thread::Threads;

/// Draws up to 6 orders, each for a desk drawn from n.
fn drawn_orders<R: Abort>(rt: &R, alloc: Global, chance: &mut Chance, desks: u32) -> Vec<Wanted> {
    let mut table = Vec::new(alloc);
    for _ in 0..chance.draw() % 7 {
        let (cents, lots) = (chance.draw() % 10, chance.draw() % 9);
        let wanted = Wanted {
            desk: u8::try_from(chance.draw().checked_rem(desks).unwrap_or(0)).unwrap_or(0),
            buys: chance.draw() % 2 == 0,
            sym: u16::try_from(chance.draw() % 2).unwrap_or(0),
            shares: lots.wrapping_mul(100).wrapping_add(100),
            limit: u64::from(cents).wrapping_mul(100).wrapping_add(100_000),
            manual: chance.draw() % 2 == 0,
        };
        table.push(wanted).expect(rt, "memory");
    }
    table
}

/// A gate that makes a desk wait before a look. Look k waits until k times a given number of changes were sent, but for no more
/// than all.
#[derive(Drop)]
struct Paced {
    sent: AtomicU64,
    pace: u64,
    all: u64,
}

impl Paced {
    /// Waits for n changes to be sent, and reports whether they were. It gives up after 1,000 attempts.
    fn has_sent(&self, count: u64) -> bool {
        for _ in 0..1000u32 {
            if count <= self.sent.load(Ordering::SeqCst) {
                return true;
            }
            thread::yield_now();
        }
        false
    }
}

impl Gate for Paced {
    fn may(&self, at: GatePoint) -> bool {
        match at {
            GatePoint::Look { k, .. } => {
                let count = k.checked_mul(self.pace).unwrap_or(self.all);
                self.has_sent(count.min(self.all))
            }
            GatePoint::Send { .. } | GatePoint::Publish { .. } => true,
        }
    }

    fn done(&self, at: GatePoint) {
        if matches!(at, GatePoint::Send { .. }) {
            self.sent.fetch_add(1, Ordering::SeqCst);
        }
    }
}

/// The refusal that has to end a run: it is of the first feed with a wrong record, and of that feed's first one.
fn first_refusal(sent: &[Sent]) -> Option<LiveFault> {
    for (place, own) in sent.iter().enumerate() {
        if let Some(fault) = own.fault {
            return Some(LiveFault::Line {
                feed: Feed::at(u8::try_from(place).ok()?)?,
                number: own.changes.len() as u64 + 1,
                fault,
            });
        }
    }
    None
}

/// How many changes all feeds send together.
fn all_of<R: Abort>(rt: &R, sent: &[Sent]) -> u64 {
    let mut all = 0u64;
    for own in sent {
        all = all
            .checked_add(own.changes.len() as u64)
            .expect(rt, "a count");
    }
    all
}

/// The fault that has to end the run: the first refused record, or else a full tape. `None` if the run has to succeed.
fn due<R: Abort>(rt: &R, sent: &[Sent], limit: u64) -> Option<LiveFault> {
    match first_refusal(sent) {
        Some(fault) => Some(fault),
        None if limit < all_of(rt, sent) => Some(LiveFault::Append),
        None => None,
    }
}

/// The limits of a setup: those of the tape and of the queue, how many desks there are, and how many feeds.
#[derive(Clone, Copy)]
pub(crate) struct Limits {
    pub(crate) tape: u32,
    pub(crate) queue: u32,
    pub(crate) desks: u32,
    pub(crate) feeds: u8,
}

/// Draws the limits of a setup. In about one setup in four the tape is so short that it may become full.
fn drawn_limits(chance: &mut Chance) -> Limits {
    let tape = if chance.draw() % 4 == 0 {
        (chance.draw() % 40).wrapping_add(1)
    } else {
        2000
    };
    Limits {
        tape,
        queue: (chance.draw() % 63).wrapping_add(2),
        desks: (chance.draw() % 4).wrapping_add(1),
        feeds: u8::try_from(chance.draw() % 8).unwrap_or(0).wrapping_add(1),
    }
}

/// The text of a setup with these limits and two participants on each feed.
pub(crate) fn setup_of<R: Abort>(rt: &R, alloc: Global, limits: Limits) -> String {
    let Limits {
        tape,
        queue,
        desks,
        feeds,
    } = limits;
    let mut text = format!(in alloc;
        "tape_limit = {tape}\nqueue = {queue}\ndesks = {desks}\nfeeds = {feeds}\n"
    ).expect(rt, "memory");
    for part in 0..16 {
        if part / 2 < feeds {
            add_participant(rt, alloc, &mut text, part);
        }
    }
    text.push_str("[[symbol]]\nname = \"ABC\"\nlot = 100\n[[symbol]]\nname = \"PNY\"\nlot = 100\n")
        .expect(rt, "memory");
    text
}

/// Adds the participant at a place to the text of a setup.
fn add_participant<R: Abort>(rt: &R, alloc: Global, text: &mut String, part: u8) {
    let name = part_name(part);
    let letters = ["A", "B", "C", "D", "E", "F", "G", "H"];
    let letter: &str = *letters.get(usize::from(part / 2)).expect(rt, "a feed");
    let fee = u32::from(part).wrapping_mul(100_000);
    let entry = format!(in alloc;
        "[[participant]]\nname = \"{name}\"\nfeed = \"{letter}\"\nfee = {fee}\nrate = 300\n"
    ).expect(rt, "memory");
    text.push_str(entry.as_str()).expect(rt, "memory");
}

/// What is wrong with the result of a run; empty if nothing is.
fn judged(
    alloc: Global,
    setup: &str,
    sent: &[Sent],
    table: &[Wanted],
    came_to: &Result<Live, LiveFault>,
    due: Option<LiveFault>,
) -> &'static str {
    match came_to {
        Ok(live) => match due {
            None => finding(alloc, setup, sent, table, live),
            Some(_) => "no fault",
        },
        Err(fault) if Some(*fault) == due => "",
        Err(fault) => fault.code(),
    }
}

/// Draws a run and makes it. Returns what is wrong with its result; empty if nothing is.
fn try_run<R: Threads + Wait + Abort + Sync>(
    rt: &R,
    alloc: Global,
    chance: &mut Chance,
) -> &'static str {
    let limits = drawn_limits(chance);
    let sent = drawn_feeds(rt, alloc, chance, limits.feeds);
    try_feeds(rt, alloc, chance, limits, &sent)
}

/// Draws the orders and the gate, and makes the run.
fn try_feeds<R: Threads + Wait + Abort + Sync>(
    rt: &R,
    alloc: Global,
    chance: &mut Chance,
    limits: Limits,
    sent: &[Sent],
) -> &'static str {
    let table = drawn_orders(rt, alloc, chance, limits.desks);
    let pace = u64::from(chance.draw() % 12);
    try_orders(rt, alloc, limits, sent, &table, pace)
}

/// Makes the run under the setup that a text with the drawn limits gives.
fn try_orders<R: Threads + Wait + Abort + Sync>(
    rt: &R,
    alloc: Global,
    limits: Limits,
    sent: &[Sent],
    table: &[Wanted],
    pace: u64,
) -> &'static str {
    let setup = setup_of(rt, alloc, limits);
    let due = due(rt, sent, u64::from(limits.tape));
    try_under(rt, alloc, setup.as_str(), sent, table, pace, due)
}

/// The text that each feed sends, in order of feed.
fn texts_of<'s, R: Abort>(rt: &R, alloc: Global, sent: &'s [Sent]) -> Vec<&'s [u8]> {
    let mut texts = Vec::new(alloc);
    for own in sent {
        texts.push(own.text.as_slice()).expect(rt, "memory");
    }
    texts
}

/// Makes the run under a setup. Returns what is wrong with its result; empty if nothing is. The run has to end with the given
/// fault, if there is one.
fn try_under<R: Threads + Wait + Abort + Sync>(
    rt: &R,
    alloc: Global,
    setup: &str,
    sent: &[Sent],
    table: &[Wanted],
    pace: u64,
    due: Option<LiveFault>,
) -> &'static str {
    let gate = Paced {
        sent: AtomicU64::new(0),
        pace,
        all: all_of(rt, sent),
    };
    let texts = texts_of(rt, alloc, sent);
    let came_to = run(rt, alloc, setup, &texts, table, &gate);
    judged(alloc, setup, sent, table, &came_to, due)
}

/// Makes 200 runs of one to eight feeds. The result of each equals that of a plain slow program.
#[test]
fn random_runs_come_to_what_their_feeds_say(rt: HostRuntime) {
    let mut chance = Chance { state: 611 };
    for number in 1..=200u32 {
        let told = try_run(&rt, rt.alloc(), &mut chance);
        same(&rt, (number, told), (number, ""));
    }
}
