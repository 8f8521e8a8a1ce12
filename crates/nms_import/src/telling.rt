//! What is printed about an import: the rows that make no change, the counts, and the symbols (`specs/Telling`).
ghost use Rattle.std.specs.Prelude.{◌≡◌, true};
ghost use Rattle.std.specs.List.{list_all};
ghost use Rattle.nms_show.specs.Plain.{is_own_plain, is_plain, is_plain_member};
ghost use Rattle.nms_show.specs.Safe.{IsSafe};
ghost use Rattle.nms_show.specs.Written.{AddsPart, Writes};
ghost use Rattle.nms_import.specs.Telling.{most_of};

use crate::MOST_TOLD;
use crate::cause::Cause;
use crate::column::{Column, Columns};
use crate::import_fault::ImportFault;
use crate::left::Left;
use crate::meanings::{Half, Meanings, PriceUnit, TimeForm, Zone};
use crate::noting::{Notes, Span};
use crate::tally::{MOST_ROWS, Sums, Tally};
use csv::ByteRecord;
use nms_quote::{Roster, Side, Sym};
use nms_show::{Form, Item, ShowFault, write_line, write_object};
use std::alloc::Global;
use std::io::Write;

/// How rows are shown of a file whose mapping is known.
#[derive(Clone, Copy)]
pub struct Telling {
    /// The allocator.
    pub alloc: Global,
    /// The form of the output: lines for people, or JSON.
    pub form: Form,
    /// How the mapping says that times are written.
    pub time_form: TimeForm,
    /// How the mapping says that times are moved to the clock of the market.
    pub zone: Zone,
    /// The unit of prices that the mapping names.
    pub price_unit: PriceUnit,
}

impl Telling {
    ghost use Rattle.std.specs.Prelude.{◌≡◌};

    /// How rows are shown in a form, for a file whose texts have the given meanings.
    pub fn new(alloc: Global, form: Form, meanings: &Meanings) -> Telling
        ensures { result.form ≡ form }
    {
        Telling {
            alloc,
            form,
            time_form: meanings.time_form,
            zone: meanings.zone,
            price_unit: meanings.price_unit,
        }
    }
}

/// The output on which rows that make no change are shown.
#[derive(Drop)]
pub struct Told<'a, E> {
    /// The writer on which the rows are shown.
    pub errors: E,
    telling: Telling,
    file: &'a str,
    line: u64,
    left: u64,
}

impl<'a, E: Write> Told<'a, E> {
    ghost use Rattle.std.specs.Prelude.{◌≡◌, ◌-◌, []};
    ghost use Rattle.nms_show.specs.Safe.{IsSafe};
    ghost use Rattle.nms_show.specs.Written.{AddsPart};
    ghost use Rattle.nms_import.specs.Telling.{file_of, left_after, left_of, most_of};

    /// An output on a writer, before the first file. As JSON all refused rows are shown, else the first 100 rows that make no
    /// change.
    pub fn new(telling: Telling, errors: E) -> Told<'a, E>
        ensures writer { result.errors ≡ errors }
        ensures file { file_of result ≡ [] }
        ensures left { left_of result ≡ most_of telling }
    {
        Told {
            errors,
            telling,
            file: "",
            line: 0,
            left: most_of(telling),
        }
    }

    /// Notes that the next rows are those of a file.
    pub fn enter(&mut self, file: &'a str)
        ensures writer { self.new.errors ≡ self.old.errors }
        ensures file { file_of self.new ≡ file.now }
        ensures left { left_of self.new ≡ left_of self.old }
    {
        self.file = file;
    }

    /// Notes that the present row begins on a line, counted from 1.
    pub fn at(&mut self, line: u64)
        ensures writer { self.new.errors ≡ self.old.errors }
        ensures file { file_of self.new ≡ file_of self.old }
        ensures left { left_of self.new ≡ left_of self.old }
    {
        self.line = line;
    }

    /// The place at which the present row begins.
    fn place(&self) -> RowPlace<'a> {
        RowPlace {
            file: self.file,
            line: self.line,
            alloc: self.telling.alloc,
            form: self.telling.form,
        }
    }

    /// Shows a row that makes no change: its file, line, column and text, and the cause. As JSON a row that is skipped is not
    /// shown. What the writer does not take is dropped: the counts have each row.
    pub fn tell(&mut self, columns: &Columns, row: &ByteRecord, cause: Cause)
        ensures safe { AddsPart IsSafe (E.contents self.old.errors) (E.contents self.new.errors) }
        ensures few { left_of self.old ≡ 0 → self.new ≡ self.old }
        ensures file { file_of self.new ≡ file_of self.old }
        ensures left { left_of self.new ≡ left_after cause (left_of self.old) }
    {
        if self.left == 0 || cause == Cause::Trailer {
            return;
        }
        self.left -= 1;
        if cause.skips() && self.telling.form.is_json() {
            return;
        }
        let place = self.place();
        let _ = show_row(
            &mut self.errors,
            place,
            row,
            column_of(columns, cause),
            outcome_of(cause),
            sentence_of(self.telling, cause),
        );
    }

    /// Shows a row that is refused because its symbol came again after its end: its file, line, column and text, and the cause.
    pub fn tell_returned(&mut self, columns: &Columns, row: &ByteRecord)
        ensures safe { AddsPart IsSafe (E.contents self.old.errors) (E.contents self.new.errors) }
        ensures few { left_of self.old ≡ 0 → self.new ≡ self.old }
        ensures file { file_of self.new ≡ file_of self.old }
        ensures left { left_of self.new ≡ left_of self.old - 1 }
    {
        if self.left == 0 {
            return;
        }
        self.left -= 1;
        let place = self.place();
        let _ = show_row(
            &mut self.errors,
            place,
            row,
            Some(&columns.symbol),
            "refused",
            "a symbol that comes back after its end",
        );
    }

    /// Shows a row whose symbol is not 1 to 8 capital letters, digits and points. As JSON a row that is skipped is not shown.
    pub fn tell_unformed(&mut self, columns: &Columns, row: &ByteRecord, cause: Cause)
        ensures safe { AddsPart IsSafe (E.contents self.old.errors) (E.contents self.new.errors) }
        ensures few { left_of self.old ≡ 0 → self.new ≡ self.old }
        ensures file { file_of self.new ≡ file_of self.old }
        ensures left { left_of self.new ≡ left_of self.old - 1 }
    {
        if self.left == 0 {
            return;
        }
        self.left -= 1;
        if cause.skips() && self.telling.form.is_json() {
            return;
        }
        let place = self.place();
        let _ = show_row(
            &mut self.errors,
            place,
            row,
            Some(&columns.symbol),
            outcome_of(cause),
            "a symbol that is not 1 to 8 capital letters, digits and points",
        );
    }

    /// Shows the first row whose time is before an earlier one.
    pub fn tell_fall(&mut self, columns: &Columns, row: &ByteRecord)
        ensures safe { AddsPart IsSafe (E.contents self.old.errors) (E.contents self.new.errors) }
        ensures file { file_of self.new ≡ file_of self.old }
        ensures left { left_of self.new ≡ left_of self.old }
    {
        let sentence = "the first time that is before an earlier one";
        let place = self.place();
        let _ = show_row(
            &mut self.errors,
            place,
            row,
            Some(&columns.time),
            "",
            sentence,
        );
    }
}

/// The place at which a row begins.
#[derive(Clone, Copy)]
pub struct RowPlace<'a> {
    /// The name of the row's file.
    pub file: &'a str,
    /// The line of the file on which the row begins, counted from 1.
    pub line: u64,
    /// The allocator.
    pub alloc: Global,
    /// The form of the output: a line for people, or JSON.
    pub form: Form,
}

/// Shows a row: its file, line, column and text, what becomes of it, if that is more than a remark, and what is said of it.
pub fn show_row<'x, E: Write>(
    errors: &mut E,
    place: RowPlace<'x>,
    row: &'x ByteRecord,
    column: Option<&'x Column>,
    what: &'x str,
    sentence: &'x str,
) -> Result<(), ShowFault>
    ensures safe { is_plain what.now ≡ true → is_plain sentence.now ≡ true → AddsPart IsSafe (E.contents errors.old) (E.contents errors.new) }
{
    let at = match column {
        Some(Column::At(place) | Column::Bits(place, _)) if *place < row.len() => (*place
            + 1) as u64,
        Some(Column::At(_) | Column::Bits(_, _) | Column::Fixed(_)) | None => 0,
    };
    let text = match column {
        Some(column) => column.text(row),
        None => b"".as_slice(),
    };
    if place.form.is_json() {
        let members = [
            ("what", Item::Text(what_or_remark(what))),
            ("file", Item::Bytes(place.file.as_bytes())),
            ("line", Item::Number(place.line)),
            ("column", item_of_place(at)),
            ("cause", Item::Text(sentence)),
            ("text", Item::Bytes(text)),
        ];
        return object(place.alloc, errors, &members);
    }
    let items = [
        Item::Bytes(place.file.as_bytes()),
        Item::Text(":"),
        Item::Number(place.line),
        Item::Text(if_placed(at, ": column ")),
        item_of_place(at),
        Item::Text(": "),
        Item::Text(what),
        Item::Text(if_any(what, ": ")),
        Item::Text(sentence),
        Item::Text(if_placed(at, ": `")),
        Item::Bytes(text),
        Item::Text(if_placed(at, "`")),
    ];
    write_items(errors, &items)
}

/// Writes a JSON object.
fn object<W: Write>(
    alloc: Global,
    out: &mut W,
    members: &[(&str, Item<'_>)],
) -> Result<(), ShowFault>
    ensures { list_all is_plain_member members.now ≡ true → Writes IsSafe (W.contents out.old) (W.contents out.new) result }
{
    write_object(alloc, out, members)
}

/// The word for what becomes of a row. It is `remark` for a row that is shown only with a remark.
fn what_or_remark(what: &str) -> &str
    ensures { is_plain what.now ≡ true → is_plain result.now ≡ true }
{
    if what.is_empty() { "remark" } else { what }
}

/// The second text, or the empty text if the first one is empty.
fn if_any(other: &str, text: &'static str) -> &'static str
    ensures { is_plain text.now ≡ true → is_plain result.now ≡ true }
{
    if other.is_empty() { "" } else { text }
}

/// How many rows are shown of all files together.
pub fn most_of(telling: Telling) -> u64
    ensures { result ≡ most_of telling }
{
    if telling.form.is_json() {
        MOST_ROWS
    } else {
        MOST_TOLD
    }
}

/// The given text, or the empty text if no column of the row is shown.
fn if_placed(place: u64, text: &'static str) -> &'static str
    ensures { is_plain text.now ≡ true → is_plain result.now ≡ true }
{
    if place == 0 { "" } else { text }
}

/// The number of the column that is shown, counted from 1. It is absent if no column of the row is shown.
fn item_of_place(place: u64) -> Item<'static>
    ensures { is_own_plain result ≡ true }
{
    if place == 0 {
        Item::Absent
    } else {
        Item::Number(place)
    }
}

/// The column that a cause is about.
pub fn column_of(columns: &Columns, cause: Cause) -> Option<&Column> {
    match cause {
        Cause::TooFewColumns | Cause::Trailer => None,
        Cause::BadTime => Some(&columns.time),
        Cause::UnknownParticipant => Some(&columns.participant),
        Cause::UnknownSymbol | Cause::OtherSymbol => Some(&columns.symbol),
        Cause::UnknownCondition | Cause::OneSided(_) => Some(&columns.condition),
        Cause::UnknownSide => Some(&columns.side),
        Cause::BadPrice(Side::Bid) | Cause::HalfSide(Side::Bid) => Some(&columns.bid),
        Cause::BadPrice(Side::Offer) | Cause::HalfSide(Side::Offer) => Some(&columns.offer),
        Cause::BadSize(Side::Bid) => Some(&columns.bid_size),
        Cause::BadSize(Side::Offer) => Some(&columns.offer_size),
        Cause::Listed => Some(&columns.skip),
    }
}

/// The word for what is done with the row.
fn outcome_of(cause: Cause) -> &'static str
    ensures { is_plain result.now ≡ true }
{
    if cause.skips() { "skipped" } else { "refused" }
}

/// The words for a text that is no time of the given form and zone.
pub fn no_time(form: TimeForm, zone: Zone) -> &'static str
    ensures { is_plain result.now ≡ true }
{
    match zone {
        Zone::Unsaid => no_local_time(form),
        Zone::Moved(_) => no_time_of(form),
        Zone::NewYork => no_dated_time(form),
    }
}

/// The words for a text that is no time of the given form, if the mapping has no zone. A time that counts from UTC needs a
/// zone.
fn no_local_time(form: TimeForm) -> &'static str
    ensures { is_plain result.now ≡ true }
{
    match form {
        TimeForm::Clock | TimeForm::Colons | TimeForm::Seconds => no_time_of(form),
        TimeForm::UnixNanoseconds | TimeForm::UnixMicroseconds | TimeForm::UnixMilliseconds =>
            "a time since 1970, which needs a zone in the mapping: zone = \"America/New_York\", or zone_offset",
        TimeForm::Iso =>
            "no date and time as 2024-01-02T09:30:00 of a year from 2007 to 2099; with an offset it needs a zone in the mapping: zone = \"America/New_York\", or zone_offset",
    }
}

/// The words for a text that is no time of the given form.
fn no_time_of(form: TimeForm) -> &'static str
    ensures { is_plain result.now ≡ true }
{
    match form {
        TimeForm::Clock => "no time of day as HHMMSS with up to nine digits after it",
        TimeForm::Colons => "no time of day as HH:MM:SS with up to nine decimals",
        TimeForm::Seconds => "no time of day as seconds with up to nine decimals",
        TimeForm::UnixNanoseconds => "no nanoseconds since 1970",
        TimeForm::UnixMicroseconds => "no microseconds since 1970",
        TimeForm::UnixMilliseconds => "no milliseconds since 1970",
        TimeForm::Iso => "no date and time as 2024-01-02T09:30:00 of a year from 2007 to 2099",
    }
}

/// The words for a text that is no time of the given form in the years 2007 to 2099, for the zone of New York. A form without a
/// date has no such time.
fn no_dated_time(form: TimeForm) -> &'static str
    ensures { is_plain result.now ≡ true }
{
    match form {
        TimeForm::Clock | TimeForm::Colons | TimeForm::Seconds => "no date",
        TimeForm::Iso => no_time_of(form),
        TimeForm::UnixNanoseconds => "no nanoseconds since 1970 of a year from 2007 to 2099",
        TimeForm::UnixMicroseconds => "no microseconds since 1970 of a year from 2007 to 2099",
        TimeForm::UnixMilliseconds => "no milliseconds since 1970 of a year from 2007 to 2099",
    }
}

/// The words for a bid whose text is no price in the given unit.
fn no_bid(unit: PriceUnit) -> &'static str
    ensures { is_plain result.now ≡ true }
{
    match unit {
        PriceUnit::Dollars => "no price of the bid in dollars with at most four decimals",
        PriceUnit::TenThousandths => "no price of the bid in 1e-4 dollar",
        PriceUnit::Nanodollars => "no price of the bid in 1e-9 dollar, which ends in 00000",
    }
}

/// The words for an offer whose text is no price in the given unit.
fn no_offer(unit: PriceUnit) -> &'static str
    ensures { is_plain result.now ≡ true }
{
    match unit {
        PriceUnit::Dollars => "no price of the offer in dollars with at most four decimals",
        PriceUnit::TenThousandths => "no price of the offer in 1e-4 dollar",
        PriceUnit::Nanodollars => "no price of the offer in 1e-9 dollar, which ends in 00000",
    }
}

/// The words for the cause why a row makes no change.
pub fn sentence_of(telling: Telling, cause: Cause) -> &'static str
    ensures { is_plain result.now ≡ true }
{
    match cause {
        Cause::TooFewColumns => "fewer columns than the mapping names",
        Cause::BadTime => no_time(telling.time_form, telling.zone),
        Cause::UnknownParticipant => "a participant that is not on the roster",
        Cause::UnknownSymbol | Cause::OtherSymbol => "a symbol that is not on the roster",
        Cause::UnknownCondition => "a condition that the mapping does not list",
        Cause::OneSided(Side::Bid) => "a condition that makes the bid alone manual",
        Cause::OneSided(Side::Offer) => "a condition that makes the offer alone manual",
        Cause::UnknownSide => "a word for the side that the mapping does not list",
        Cause::BadPrice(Side::Bid) => no_bid(telling.price_unit),
        Cause::BadPrice(Side::Offer) => no_offer(telling.price_unit),
        Cause::BadSize(Side::Bid) => "no size of the bid, or one above 999,999,999 shares",
        Cause::BadSize(Side::Offer) => "no size of the offer, or one above 999,999,999 shares",
        Cause::HalfSide(Side::Bid) => "a bid with shares and no price",
        Cause::HalfSide(Side::Offer) => "an offer with shares and no price",
        Cause::Trailer => "the last line of the file",
        Cause::Listed => "a word that the mapping skips",
    }
}

/// Writes the counts. There is a line for each cause that came, and one for the changes that say less than their rows. Two are
/// for what refused rows left, and the last is the sum.
pub fn write_tally<W: Write>(
    out: &mut W,
    meanings: &Meanings,
    tally: &Tally,
    sums: &Sums,
    left: &Left,
) -> Result<(), ImportFault>
    ensures safe { Writes IsSafe (W.contents out.old) (W.contents out.new) result }
{
    let counts = counts_of(meanings, tally, left);
    write_counts(out, &counts)?;
    line(
        out,
        &[
            Item::Number(sums.rows),
            Item::Text(" rows = "),
            Item::Number(sums.changes),
            Item::Text(" changes + "),
            Item::Number(sums.refused),
            Item::Text(" refused + "),
            Item::Number(sums.skipped),
            Item::Text(" skipped"),
        ],
    )
}

/// The counts that have their own lines, each with its text.
fn counts_of(meanings: &Meanings, tally: &Tally, left: &Left) -> [(u64, &'static str); 17]
    ensures { list_all (λ count. is_plain count.1.now) result ≡ true }
{
    [
        (tally.too_few_columns, "refused: too few columns"),
        (tally.bad_time, "refused: bad time"),
        (tally.unknown_participant, "refused: unknown participant"),
        (tally.unknown_symbol, "refused: unknown symbol"),
        (tally.unknown_condition, "refused: unknown condition"),
        (tally.one_sided, "refused: one side manual"),
        (tally.unknown_side, "refused: unknown side"),
        (tally.bad_price, "refused: bad price"),
        (tally.bad_size, "refused: bad size"),
        (tally.half_side, "refused: shares without a price"),
        (tally.returned, "refused: symbol after its end"),
        (tally.trailer, "skipped: last line of a file"),
        (tally.listed, "skipped: word to skip"),
        (tally.other_symbol, "skipped: other symbol"),
        (tally.halves, halves_are(meanings.half)),
        (
            left.withdrawn,
            "of the refused: the venue shows nothing until its next row that is read",
        ),
        (left.kept, kept_are(meanings.withdraws)),
    ]
}

/// Writes a line for each count that is not zero.
fn write_counts<W: Write>(out: &mut W, counts: &[(u64, &'static str)]) -> Result<(), ImportFault>
    ensures { list_all (λ count. is_plain count.1.now) counts.now ≡ true → Writes IsSafe (W.contents out.old) (W.contents out.new) result }
{
    for count in counts {
        write_count(out, count.0, count.1)?;
    }
    Ok(())
}

/// Writes a line for a count that is not zero.
fn write_count<W: Write>(out: &mut W, count: u64, what: &'static str) -> Result<(), ImportFault>
    ensures { is_plain what.now ≡ true → Writes IsSafe (W.contents out.old) (W.contents out.new) result }
{
    if count == 0 {
        return Ok(());
    }
    line(
        out,
        &[Item::Number(count), Item::Text(" "), Item::Text(what)],
    )
}

/// The text for what is done with rows that have only one manual side.
fn halves_are(half: Half) -> &'static str
    ensures { is_plain result.now ≡ true }
{
    match half {
        Half::Refuse => "changes: one side manual",
        Half::Manual => "changes: one side manual, both made manual",
        Half::Automated => "changes: one side manual, both made automated",
    }
}

/// The text for the refused rows that withdrew nothing.
fn kept_are(withdraws: bool) -> &'static str
    ensures { is_plain result.now ≡ true }
{
    if withdraws {
        "of the refused: venue or symbol not known, so an earlier quotation may still be shown"
    } else {
        "of the refused: an earlier quotation is still shown"
    }
}

/// Writes a line for each symbol that has changes: its name, and the versions after its first and its last change.
pub fn write_symbols<W: Write>(
    out: &mut W,
    roster: &Roster,
    notes: &Notes,
) -> Result<(), ImportFault>
    ensures safe { Writes IsSafe (W.contents out.old) (W.contents out.new) result }
{
    for span in notes.spans() {
        write_span(out, roster, span)?;
    }
    Ok(())
}

/// Writes the line of a symbol that has changes.
fn write_span<W: Write>(
    out: &mut W,
    roster: &Roster,
    span: &Option<Span>,
) -> Result<(), ImportFault>
    ensures { Writes IsSafe (W.contents out.old) (W.contents out.new) result }
{
    let Some(span) = span else {
        return Ok(());
    };
    line(
        out,
        &[
            Item::Text(shown_name(roster, span.sym)),
            Item::Text(","),
            Item::Number(span.first),
            Item::Text(","),
            Item::Number(span.last),
        ],
    )
}

/// The name of a symbol. It is empty if the symbol is not on the roster.
fn shown_name(roster: &Roster, sym: Sym) -> &str
    ensures { is_plain result.now ≡ true }
{
    if roster.has_sym(sym) {
        roster.sym_name(sym)
    } else {
        ""
    }
}

/// Writes a line.
fn write_items<W: Write>(out: &mut W, items: &[Item<'_>]) -> Result<(), ShowFault>
    ensures { list_all is_own_plain items.now ≡ true → Writes IsSafe (W.contents out.old) (W.contents out.new) result }
{
    write_line(out, Form::Text { colours: false }, items)
}

/// Writes a line. An error of the writer, or of memory, becomes a fault of the import.
fn line<W: Write>(out: &mut W, items: &[Item<'_>]) -> Result<(), ImportFault>
    ensures { list_all is_own_plain items.now ≡ true → Writes IsSafe (W.contents out.old) (W.contents out.new) result }
{
    match write_items(out, items) {
        Ok(()) => Ok(()),
        Err(ShowFault::NoMemory) => Err(ImportFault::NoMemory),
        Err(ShowFault::WriteFault) => Err(ImportFault::WriteFault),
    }
}
