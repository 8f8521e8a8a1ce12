//! Random texts of feeds, and the changes that they give.
use crate::chance::Chance;
use nms_lines::LineFault;
use nms_quote::{Change, Feed, Part, QState, SideQuote, Sym};
use nms_units::{Lot, Price, Shares};
use std::alloc::Global;
use std::process::Abort;

/// A record as numbers. For each side it has the cents over 10 dollars, 0 to 9, and the shares. For a new round lot it has a
/// place in the list of lots.
#[derive(Clone, Copy)]
struct Record {
    kind: u32,
    part: u8,
    sym: u16,
    state: u32,
    bid: (u32, u32),
    offer: (u32, u32),
    lot: u32,
}

/// Draws the cents and shares of a side. With 0 shares there is no quotation.
fn drawn_side(chance: &mut Chance) -> (u32, u32) {
    let cents = chance.draw() % 10;
    let shares = (chance.draw() % 4).wrapping_mul(150);
    (cents, shares)
}

/// Draws a record of a feed: of one of the feed's two participants, or a new round lot. Only feed A has new round lots.
fn drawn_record(chance: &mut Chance, feed: Feed) -> Record {
    let first = feed.place().wrapping_mul(2);
    let kinds = if feed == Feed::A { 18 } else { 16 };
    let kind = chance.draw().checked_rem(kinds).unwrap_or(0);
    let state = chance.draw() % 8;
    let (part, sym) = if chance.draw() % 2 == 0 {
        (first, chance.draw() % 2)
    } else {
        (first.wrapping_add(1), 0)
    };
    Record {
        kind,
        part,
        sym: u16::try_from(sym).unwrap_or(0),
        state,
        bid: drawn_side(chance),
        offer: drawn_side(chance),
        lot: chance.draw() % 12,
    }
}

/// A new round lot in shares, and the text that gives it. Some texts give it by an average price, at and just above each
/// boundary.
fn lot_of(place: u32) -> (u16, &'static str) {
    match place {
        0 => (1, "1"),
        1 => (1000, "1000"),
        2 => (10, "0010"),
        3 => (151, "151"),
        4 => (300, "300"),
        5 => (100, "AVG,250.0000"),
        6 => (40, "AVG,250.0001"),
        7 => (40, "AVG,1000.0000"),
        8 => (10, "AVG,1000.0001"),
        9 => (10, "AVG,10000.0000"),
        10 => (1, "AVG,10000.0001"),
        _ => (100, "100"),
    }
}

/// A state of a quotation, and the letter that gives it. Numbers 0 to 5 are automated, 6 is manual, any other is halted.
fn state_of(state: u32) -> (QState, &'static str) {
    match state {
        0..=5 => (QState::Automated, "A"),
        6 => (QState::Manual, "M"),
        _ => (QState::Halted, "H"),
    }
}

/// The quotation of a side at some cents over 10 dollars. `None` for 0 shares.
fn side_of((cents, shares): (u32, u32)) -> Option<SideQuote> {
    let price = cents.wrapping_mul(100).wrapping_add(100_000);
    SideQuote::new(Price::new(u64::from(price))?, Shares::new(shares)?)
}

/// The change that a record means.
fn change_of(record: &Record) -> Option<Change> {
    let part = Part::new(record.part)?;
    let sym = Sym::new(record.sym)?;
    let (state, _) = state_of(record.state);
    Some(match record.kind {
        0 => Change::Withdraw { part },
        1 | 2 => Change::State { part, sym, state },
        16 | 17 => {
            let (shares, _) = lot_of(record.lot);
            Change::Lot {
                sym,
                lot: Lot::new(shares)?,
            }
        }
        _ => Change::Quote {
            part,
            sym,
            state,
            bid: side_of(record.bid),
            offer: side_of(record.offer),
        },
    })
}

/// The names of the participants, two to a feed.
const NAMES: [&str; 16] = [
    "N", "P", "Y", "Z", "A", "B", "C", "D", "J", "K", "M", "Q", "T", "U", "V", "X",
];

/// The name of the participant at a place.
pub(crate) fn part_name(part: u8) -> &'static str {
    match NAMES.get(usize::from(part)) {
        Some(name) => *name,
        None => "",
    }
}

/// The name of one of the two symbols.
fn sym_name(sym: u16) -> &'static str {
    if sym == 0 { "ABC" } else { "PNY" }
}

/// Adds words to a text, one after another, with nothing between them.
fn add<R: Abort>(rt: &R, text: &mut Vec<u8>, words: &[&str]) {
    for word in words {
        text.extend_from_slice(word.as_bytes()).expect(rt, "memory");
    }
}

/// The text of a number of shares that may be drawn.
fn shares_text(shares: u32) -> &'static str {
    match shares {
        150 => "150",
        300 => "300",
        _ => "450",
    }
}

/// Adds the fields of a side, its price and its shares. The price is less than 10 cents over 10 dollars.
fn add_side<R: Abort>(rt: &R, text: &mut Vec<u8>, (cents, shares): (u32, u32)) {
    if shares == 0 {
        add(rt, text, &[","]);
    } else {
        let digit = b'0'.wrapping_add(u8::try_from(cents).unwrap_or(0));
        add(rt, text, &["10.0"]);
        text.push(digit).expect(rt, "memory");
        add(rt, text, &[",", shares_text(shares)]);
    }
}

/// Adds the record of a quotation to a text.
fn add_quote<R: Abort>(rt: &R, text: &mut Vec<u8>, record: &Record) {
    let (part, sym) = (part_name(record.part), sym_name(record.sym));
    let (_, state) = state_of(record.state);
    add(rt, text, &["Q,", part, ",", sym, ",", state, ","]);
    add_side(rt, text, record.bid);
    add(rt, text, &[","]);
    add_side(rt, text, record.offer);
}

/// Adds the record of a change to a text.
fn add_text<R: Abort>(rt: &R, text: &mut Vec<u8>, record: &Record) {
    let (part, sym) = (part_name(record.part), sym_name(record.sym));
    let (_, state) = state_of(record.state);
    let (_, lot) = lot_of(record.lot);
    match record.kind {
        0 => add(rt, text, &["X,", part]),
        1 | 2 => add(rt, text, &["S,", part, ",", sym, ",", state]),
        16 | 17 => add(rt, text, &["R,", sym, ",", lot]),
        _ => add_quote(rt, text, record),
    }
}

/// A record that is refused, in parts: the text before the participant's name, whether the participant is of the feed, and the
/// rest of the text. The last part is the fault.
fn refused(number: u32) -> (&'static str, bool, &'static str, LineFault) {
    match number {
        0 => ("T,", true, "", LineFault::UnknownKind),
        1 => ("Q,", true, ",ABC,A,10.00,100", LineFault::FieldCount),
        2 => ("X,W", true, "", LineFault::UnknownParticipant),
        3 => ("S,", true, ",XYZ,A", LineFault::UnknownSymbol),
        4 => ("S,", true, ",ABC,B", LineFault::BadState),
        5 => ("Q,", true, ",ABC,A,ten,100,,", LineFault::BadPrice),
        6 => ("Q,", true, ",ABC,A,10.00,ten,,", LineFault::BadShares),
        7 => ("Q,", true, ",ABC,A,10.00,,,", LineFault::HalfSide),
        8 => ("X,", false, "", LineFault::WrongFeed),
        9 => ("S,", false, ",ABC,B", LineFault::BadState),
        _ => ("Q,", false, ",XYZ,B,ten", LineFault::FieldCount),
    }
}

/// The record of a new round lot that is refused, and its fault. A lot out of its range is a bad lot on feed A. On any other feed
/// the same record has a wrong feed.
fn refused_lot(number: u32, feed: Feed) -> (&'static str, LineFault) {
    let own = if feed == Feed::A {
        LineFault::BadLot
    } else {
        LineFault::WrongFeed
    };
    match number {
        11 => ("R,ABC", LineFault::FieldCount),
        12 => ("R,XYZ,40", LineFault::UnknownSymbol),
        13 => ("R,ABC,AV,10.00", LineFault::BadState),
        14 => ("R,ABC,AVG,0", LineFault::BadPrice),
        15 => ("R,ABC,0", own),
        16 => ("R,PNY,1001", own),
        _ => ("R,PNY,00001", own),
    }
}

/// The name of a participant of the feed, or of a participant of the feed before it. The feed before feed A is here feed B.
fn named(feed: Feed, is_own: bool) -> &'static str {
    let place = match (is_own, feed) {
        (true, _) => feed.place(),
        (false, Feed::A) => 1,
        (false, _) => feed.place().wrapping_sub(1),
    };
    part_name(place.wrapping_mul(2))
}

/// Adds a record that is refused to a feed's text, and returns its fault.
fn add_refused_text<R: Abort>(rt: &R, text: &mut Vec<u8>, number: u32, feed: Feed) -> LineFault {
    if number > 10 {
        let (line, fault) = refused_lot(number, feed);
        add(rt, text, &[line]);
        fault
    } else {
        let (front, is_own, after, fault) = refused(number);
        add(rt, text, &[front, named(feed, is_own), after]);
        fault
    }
}

/// A feed's text, the changes up to the first record that is refused, and the fault of that record.
#[derive(Drop)]
pub(crate) struct Sent {
    pub(crate) text: Vec<u8>,
    pub(crate) changes: Vec<Change>,
    pub(crate) fault: Option<LineFault>,
}

/// The end of a line. One in eight has a carriage return before its line feed, and one in eight has a blank line after it.
fn end_of(end: u32) -> &'static str {
    match end {
        0 => "\r\n",
        1 => "\n\n",
        _ => "\n",
    }
}

/// Adds a drawn record to a feed's text, and its change to the feed's changes.
fn add_record<R: Abort>(rt: &R, chance: &mut Chance, feed: Feed, sent: &mut Sent) {
    let record = drawn_record(chance, feed);
    add_text(rt, &mut sent.text, &record);
    add(rt, &mut sent.text, &[end_of(chance.draw() % 8)]);
    if sent.fault.is_none() {
        // The prover has to see the types of a change before the change moves, so the code mentions them.
        let _seen: (Option<SideQuote>, Option<Lot>) = (None, None);
        let change = change_of(&record).expect(rt, "a change");
        sent.changes.push(change).expect(rt, "memory");
    }
}

/// Adds a record that is refused to a feed's text. If there is only one feed, no record names a participant of another feed.
fn add_refused<R: Abort>(rt: &R, chance: &mut Chance, feed: Feed, is_alone: bool, sent: &mut Sent) {
    let number = chance.draw() % 18;
    let number = if is_alone && number >= 8 && number <= 10 {
        number.wrapping_sub(8)
    } else {
        number
    };
    let fault = add_refused_text(rt, &mut sent.text, number, feed);
    add(rt, &mut sent.text, &[end_of(chance.draw() % 8)]);
    if sent.fault.is_none() {
        sent.fault = Some(fault);
    }
}

/// Draws how many records a feed has.
fn drawn_count(chance: &mut Chance) -> u32 {
    let count = chance.draw();
    match chance.draw() % 4 {
        0 => count % 3,
        1 | 2 => count % 24,
        _ => (count % 90).wrapping_add(60),
    }
}

/// Draws what a feed sends. A third of the feeds have refused records, and fewer do if there are many feeds.
fn drawn_feed<R: Abort>(rt: &R, alloc: Global, chance: &mut Chance, feed: Feed, feeds: u8) -> Sent {
    let mut sent = Sent {
        text: Vec::new(alloc),
        changes: Vec::new(alloc),
        fault: None,
    };
    let count = drawn_count(chance);
    let is_sound = chance
        .draw()
        .checked_rem(u32::from(feeds).wrapping_add(1))
        .unwrap_or(0)
        != 0;
    for _ in 0..count {
        if is_sound || chance.draw() % 16 != 0 {
            add_record(rt, chance, feed, &mut sent);
        } else {
            add_refused(rt, chance, feed, feeds == 1, &mut sent);
        }
    }
    sent
}

/// Draws what each of n feeds sends.
pub(crate) fn drawn_feeds<R: Abort>(
    rt: &R,
    alloc: Global,
    chance: &mut Chance,
    feeds: u8,
) -> Vec<Sent> {
    let mut all = Vec::new(alloc);
    for place in 0..feeds {
        let feed = Feed::at(place).expect(rt, "a feed");
        let sent = drawn_feed(rt, alloc, chance, feed, feeds);
        all.push(sent).expect(rt, "memory");
    }
    all
}
