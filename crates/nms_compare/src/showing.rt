//! What is shown about rows that are not equal: the line, the version, the finding, the vendor's national best and that of the
//! tape.
ghost use Rattle.std.specs.Prelude.{◌≡◌};

use crate::MOST_SHOWN;
use crate::compare_fault::CompareFault;
use crate::comparing::MOST_ROWS;
use crate::finding::Finding;
use crate::national::{Best, National};
use crate::sums::Sums;
use csv::ByteRecord;
use nms_board::{Boards, Row};
use nms_import::{Cause, Columns, Meanings, RowPlace, Telling, column_of, sentence_of, show_row};
use nms_lines::{name_of_part, name_of_sym};
use nms_quote::{Part, Roster};
use nms_show::{Form, Item, write_line, write_object};
use nms_stream::quoted_on;
use nms_units::Price;
use std::alloc::Global;
use std::io::Write;
use std::marker::Model;

/// How rows that are not equal are shown.
#[derive(Clone, Copy)]
pub struct Showing {
    /// The allocator.
    pub alloc: Global,
    /// The form in which rows are shown: lines for people, or JSON.
    pub form: Form,
    /// Whether all rows that are not equal are shown; if not, only the first 100.
    pub all: bool,
}

/// Where rows that are not equal are shown.
#[derive(Drop)]
pub struct Shown<'a, W> {
    out: &'a mut W,
    showing: Showing,
    file: &'a str,
    line: u64,
    left: u64,
    sums: Sums,
}

impl<'a, W> Model for Shown<'a, W> {
    ghost use Rattle.nms_compare.specs.Showing.{Shown};

    ghost Value = { Shown W };

    ghost view = { λ s. record { out = s.out.now; file = s.file.now; left = s.left; sums = s.sums } };
}

impl<'a, W: Write> Shown<'a, W> {
    ghost use Rattle.nms_compare.specs.Showing.{most_of};
    ghost use Rattle.nms_compare.specs.Summed.{no_sums, with_judged};
    ghost use Rattle.std.specs.Prelude.{IfOk, OnOk};

    /// A place where the rows of a file of this name are shown on a writer, for a roster with this number of symbols. Nothing is
    /// written yet.
    pub fn new(
        showing: Showing,
        out: &'a mut W,
        file: &'a str,
        symbols: usize,
    ) -> Result<Shown<'a, W>, CompareFault>
        ensures { IfOk result (λ shown. shown ≡ record { out = out.old; file = file.now; left = most_of showing; sums = no_sums symbols }) }
    {
        let sums = Sums::new(showing.alloc, symbols)?;
        Ok(Shown {
            out,
            showing,
            file,
            line: 0,
            left: if showing.all { MOST_ROWS } else { MOST_SHOWN },
            sums,
        })
    }

    /// Notes that the present row begins on a line, counted from 1.
    pub(crate) fn at(&mut self, line: u64)
        ensures { self.new ≡ self.old }
    {
        self.line = line;
    }

    /// How many rows had each finding, by symbol and by hour.
    pub fn into_sums(self) -> Sums
        ensures { result ≡ self.entry.sums }
    {
        self.sums
    }

    /// Shows a row that has no national best, unless the mapping skips it.
    pub(crate) fn show_cause(
        &mut self,
        columns: &Columns,
        meanings: &Meanings,
        row: &ByteRecord,
        cause: Cause,
    ) -> Result<(), CompareFault>
        ensures { self.new.sums ≡ self.old.sums }
    {
        if self.left == 0 || cause.skips() {
            return Ok(());
        }
        self.left -= 1;
        let place = RowPlace {
            file: self.file,
            line: self.line,
            alloc: self.showing.alloc,
            form: self.showing.form,
        };
        show_row(
            self.out,
            place,
            row,
            column_of(columns, cause),
            "refused",
            phrase_of(
                Telling::new(self.showing.alloc, self.showing.form, meanings),
                cause,
            ),
        )?;
        Ok(())
    }

    /// Counts a row by its symbol and its hour, and shows it, if it is not equal to what the board of its version shows.
    pub(crate) fn show_finding(
        &mut self,
        roster: &Roster,
        board: &Boards,
        theirs: &National,
        finding: Finding,
    ) -> Result<(), CompareFault>
        ensures { OnOk result (self.new.sums ≡ with_judged self.old.sums (record { sym = theirs.now.sym; time = theirs.now.time; finding = finding })) }
    {
        self.sums.count(theirs.sym, theirs.time, finding)?;
        let what = word_of(finding);
        if self.left == 0 || what.is_empty() || !board.has_sym(theirs.sym) {
            return Ok(());
        }
        self.left -= 1;
        let ours = quoted_on(board, theirs.sym);
        let (bid, offer) = (told_of(&theirs.bid), told_of(&theirs.offer));
        let (our_bid, our_offer) = (row_told(&ours.bid), row_told(&ours.offer));
        let symbol = name_of_sym(roster, theirs.sym);
        if self.showing.form.is_json() {
            return show_object(
                self.showing.alloc,
                self.out,
                self.file,
                symbol,
                self.line,
                board.applied(),
                what,
                roster,
                &[bid, offer, our_bid, our_offer],
            );
        }
        show_head(
            self.out,
            self.file,
            symbol,
            self.line,
            board.applied(),
            what,
        )?;
        show_sides(self.out, "    theirs: ", roster, &bid, &offer)?;
        show_sides(self.out, "    ours:   ", roster, &our_bid, &our_offer)
    }
}

/// Shows a row as a JSON object: its line, its version, its finding, the vendor's sides and those of the tape.
fn show_object<'x, W: Write>(
    alloc: Global,
    out: &mut W,
    file: &'x str,
    symbol: &'x str,
    line: u64,
    version: u64,
    what: &'x str,
    roster: &'x Roster,
    sides: &[Option<Told>; 4],
) -> Result<(), CompareFault> {
    let (bid, offer) = (side_of(roster, &sides[0]), side_of(roster, &sides[1]));
    let (our_bid, our_offer) = (side_of(roster, &sides[2]), side_of(roster, &sides[3]));
    let members = [
        ("what", Item::Text("differs")),
        ("file", Item::Bytes(file.as_bytes())),
        ("line", Item::Number(line)),
        ("version", Item::Number(version)),
        ("symbol", Item::Text(symbol)),
        ("finding", Item::Text(what)),
        ("bid_participant", bid.0),
        ("bid_price", bid.1),
        ("bid_shares", bid.2),
        ("offer_participant", offer.0),
        ("offer_price", offer.1),
        ("offer_shares", offer.2),
        ("our_bid_participant", our_bid.0),
        ("our_bid_price", our_bid.1),
        ("our_bid_shares", our_bid.2),
        ("our_offer_participant", our_offer.0),
        ("our_offer_price", our_offer.1),
        ("our_offer_shares", our_offer.2),
    ];
    write_object(alloc, out, &members)?;
    Ok(())
}

/// The venue, the price and the size of a side, as values of an object.
fn side_of<'x>(roster: &'x Roster, told: &Option<Told>) -> (Item<'x>, Item<'x>, Item<'x>) {
    match told {
        Some(told) => (
            Item::Text(name_of_part(roster, told.part)),
            Item::of_price(told.price),
            Item::Number(u64::from(told.size)),
        ),
        None => (Item::Absent, Item::Absent, Item::Absent),
    }
}

/// Shows the line of a row, its version and its symbol, and the finding.
fn show_head<'x, W: Write>(
    out: &mut W,
    file: &'x str,
    symbol: &'x str,
    line: u64,
    version: u64,
    what: &'x str,
) -> Result<(), CompareFault> {
    let items = [
        Item::Bytes(file.as_bytes()),
        Item::Text(":"),
        Item::Number(line),
        Item::Text(": version "),
        Item::Number(version),
        Item::Text(": "),
        Item::Text(symbol),
        Item::Text(": "),
        Item::Text(what),
    ];
    write_line(out, Form::Text { colours: false }, &items)?;
    Ok(())
}

/// Shows a bid and an offer on one line, after a text that says whose they are.
fn show_sides<'x, W: Write>(
    out: &mut W,
    before: &'x str,
    roster: &'x Roster,
    bid: &Option<Told>,
    offer: &Option<Told>,
) -> Result<(), CompareFault> {
    let (bid_part, bid_price, bid_size, bid_gap) = items_of(roster, bid);
    let (offer_part, offer_price, offer_size, offer_gap) = items_of(roster, offer);
    let items = [
        Item::Text(before),
        Item::Text("bid "),
        bid_part,
        bid_gap,
        bid_price,
        bid_gap,
        bid_size,
        Item::Text("; offer "),
        offer_part,
        offer_gap,
        offer_price,
        offer_gap,
        offer_size,
    ];
    write_line(out, Form::Text { colours: false }, &items)?;
    Ok(())
}

/// A side of a national best as it is shown: the venue, the price and the displayed size.
#[derive(Clone, Copy)]
struct Told {
    part: Part,
    price: Price,
    size: u32,
}

fn told_of(best: &Option<Best>) -> Option<Told> {
    best.map(|best| Told {
        part: best.part,
        price: best.price,
        size: best.shares.get(),
    })
}

fn row_told(row: &Option<Row>) -> Option<Told> {
    row.map(|row| Told {
        part: row.part,
        price: row.price,
        size: row.size,
    })
}

/// The items for the venue, the price and the size of a side, and the space between them. For a side without a quotation there
/// is only the word `none`.
fn items_of<'x>(
    roster: &'x Roster,
    told: &Option<Told>,
) -> (Item<'x>, Item<'x>, Item<'x>, Item<'x>) {
    match told {
        Some(told) => (
            Item::Text(name_of_part(roster, told.part)),
            Item::of_price(told.price),
            Item::Number(u64::from(told.size)),
            Item::Text(" "),
        ),
        None => (Item::Text("none"), Item::Absent, Item::Absent, Item::Absent),
    }
}

/// The words for a finding, such as `other price`. They are empty if the row is equal, because it is not shown.
fn word_of(finding: Finding) -> &'static str {
    match finding {
        Finding::Equal => "",
        Finding::OtherPrice => "other price",
        Finding::OtherSize => "other size",
        Finding::OtherVenue => "other venue",
        Finding::NoCounterpart => "no counterpart",
    }
}

/// Why a row has no national best.
fn phrase_of(telling: Telling, cause: Cause) -> &'static str {
    if cause == Cause::UnknownParticipant {
        "a venue that is not on the roster"
    } else {
        sentence_of(telling, cause)
    }
}
