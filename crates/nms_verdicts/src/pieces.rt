//! Finding the texts of plans among other records, by version: `specs/Pieces`.
ghost use Rattle.std.specs.Prelude.{◌≡◌, ◌<◌, ◌≤◌, ◌++◌, ℕ, IfOk, IfSome, IsPermutation, List, OnOk, Option, Some, length, option_to_list};
ghost use Rattle.std.specs.List.{slice_range};
ghost use Rattle.std.specs.List.Sorted.{IsNonDecreasingBy};
ghost use Rattle.csv.specs.Reading.{strip_bom};
ghost use Rattle.nms_lines.specs.Layout.{Record};
ghost use Rattle.nms_lines.specs.Records.{AreAllRecords};
ghost use Rattle.nms_verdicts.specs.Begun.{IsEnd, begun_text, start_of, texts_of};
ghost use Rattle.nms_verdicts.specs.Pieces.{ArePieces, IsKind, before_comma, begins_with, first_length, kind_of_records, kind_of_word};
ghost use Rattle.nms_verdicts.specs.Pieces.{pieces_at, plain_kind, trimmed};

use memchr::{memchr, memchr2};
use nms_lines::{ByteRecord, field_at, open_records, read_next, read_plan};
use nms_quote::Roster;
use std::alloc::{AllocError, Global};

/// The kind of a line of answers.
#[derive(Clone, Copy)]
pub(crate) enum Kind {
    /// The line begins a plan.
    Plan,
    /// The line is within a plan.
    Inner,
    /// The line ends a plan.
    End,
    /// The line is blank.
    Blank,
    /// The line belongs to no plan.
    Other,
}

/// The text of a plan, or the text that is there instead of one.
#[derive(Clone, Copy)]
pub(crate) struct Piece<'a> {
    /// The bytes from the first record of the plan to its last record.
    pub(crate) text: &'a [u8],
    /// The number of the plan among the answers, counted from 1.
    pub(crate) plan: u64,
    /// The line at which the plan begins, counted from 1.
    pub(crate) line: u64,
    /// The version that the plan names. It is 2^64 - 1, above all versions, if the text can't be read.
    pub(crate) version: u64,
}

/// The beginning of a plan's text whose end is not yet found.
#[derive(Clone, Copy)]
pub(crate) struct Begun {
    /// The byte of the answers at which the plan's text begins, counted from 0.
    start: usize,
    /// The line at which the plan's text begins, counted from 1.
    line: u64,
}

/// The place of a line in a text.
#[derive(Clone, Copy)]
struct Place {
    /// The byte at which the line begins, counted from 0.
    start: usize,
    /// The byte after the line, including its line end.
    end: usize,
    /// The number of the line, counted from 1.
    line: u64,
}

/// Finds the texts of plans in a text of answers, sorted by version, and within a version in the order of the text. A plan whose
/// first record is missing also gives a text, so that no plan is missed.
pub(crate) fn pieces_of<'a>(
    alloc: Global,
    roster: &Roster,
    text: &'a [u8],
) -> Result<Vec<Piece<'a>>, AllocError>
    ensures parted { IfOk result (λ pieces. (texts : List (List ℕ)) × ArePieces (strip_bom text.now) texts
        × IsPermutation texts (texts_of pieces.items)) }
    ensures sorted { IfOk result (λ pieces. IsNonDecreasingBy (λ piece. piece.version) pieces.items) }
{
    let mut pieces = Vec::new(alloc);
    push_pieces(&mut pieces, alloc, roster, without_mark(text))?;
    pieces.sort_by_key(
        |piece: &Piece<'_>| -> u64
            ensures { result ≡ piece.now.version }
        { piece.version },
    )?;
    Ok(pieces)
}

/// A text without the byte order mark (BOM) at its start.
fn without_mark(text: &[u8]) -> &[u8]
    ensures { result.now ≡ strip_bom text.now }
{
    match text.strip_prefix(b"\xef\xbb\xbf") {
        Some(rest) => rest,
        None => text,
    }
}

/// Appends the texts of plans that a text of answers contains.
fn push_pieces<'a>(
    pieces: &mut Vec<Piece<'a>>,
    alloc: Global,
    roster: &Roster,
    text: &'a [u8],
) -> Result<(), AllocError>
    ensures { OnOk result ((texts : List (List ℕ)) × ArePieces text.now texts
        × (texts_of pieces.new.items ≡ texts_of pieces.old.items ++ texts)) }
{
    let mut begun = None;
    let mut start: usize = 0;
    let mut line: u64 = 0;
    while start < text.len() {
        let end = start + line_length(&text[start..]);
        // The count of lines cannot overflow, because each line has at least one byte.
        line += 1;
        let place = Place { start, end, line };
        let kind = kind_of(alloc, &text[start..end])?;
        begun = push_line(pieces, alloc, roster, text, begun, kind, place)?;
        start = end;
    }
    push_piece(pieces, alloc, roster, text, begun, start)?;
    Ok(())
}

/// Appends the plan's text that ends before or with the given line, if one ends there. Returns the beginning of the text that is
/// open after that line.
fn push_line<'a>(
    pieces: &mut Vec<Piece<'a>>,
    alloc: Global,
    roster: &Roster,
    text: &'a [u8],
    begun: Option<Begun>,
    kind: Kind,
    place: Place,
) -> Result<Option<Begun>, AllocError>
    requires begun { IfSome begun (λ it. it.start ≤ place.start) }
    requires order { place.start ≤ place.end }
    requires within { place.end ≤ length text.now }
    ensures next { IfOk result (λ next. IfSome next (λ it. it.start ≤ place.end)) }
    ensures pieces { IfOk result (λ next. (behind : Option (List ℕ) → List (List ℕ))
        → texts_of pieces.old.items
        ++ pieces_at kind (slice_range text.now place.start place.end) (begun_text text.now place.start begun) behind
        ≡ texts_of pieces.new.items ++ behind (begun_text text.now place.end next)) }
{
    match kind {
        Kind::Plan => {
            push_piece(pieces, alloc, roster, text, begun, place.start)?;
            Ok(Some(Begun {
                start: place.start,
                line: place.line,
            }))
        }
        Kind::Inner => Ok(Some(opened(begun, place))),
        Kind::End => {
            let whole = Some(opened(begun, place));
            push_piece(pieces, alloc, roster, text, whole, place.end)?;
            Ok(None)
        }
        Kind::Blank => Ok(begun),
        Kind::Other => {
            push_piece(pieces, alloc, roster, text, begun, place.start)?;
            Ok(None)
        }
    }
}

/// The beginning of the plan's text that is open, or of a new one that begins with the given line.
fn opened(begun: Option<Begun>, place: Place) -> Begun
    ensures { result.start ≡ start_of place.start begun }
{
    match begun {
        Some(begun) => begun,
        None => Begun {
            start: place.start,
            line: place.line,
        },
    }
}

/// Appends the plan's text that is open, if there is one, as a text that ends at the given byte.
fn push_piece<'a>(
    pieces: &mut Vec<Piece<'a>>,
    alloc: Global,
    roster: &Roster,
    text: &'a [u8],
    begun: Option<Begun>,
    end: usize,
) -> Result<(), AllocError>
    requires order { IfSome begun (λ it. it.start ≤ end) }
    requires within { end ≤ length text.now }
    ensures { OnOk result (texts_of pieces.new.items ≡ texts_of pieces.old.items ++ option_to_list (begun_text text.now end begun)) }
{
    let Some(begun) = begun else {
        return Ok(());
    };
    let text = &text[begun.start..end];
    let version = version_of(alloc, roster, text);
    let plan = pieces.len() as u64 + 1;
    let line = begun.line;
    pieces.push(Piece {
        text,
        plan,
        line,
        version,
    })?;
    Ok(())
}

/// The version that the text of a plan names. It is 2^64 - 1, above all versions, if the text can't be read.
fn version_of(alloc: Global, roster: &Roster, text: &[u8]) -> u64 {
    match read_plan(alloc, text, roster) {
        Ok((plan, _)) => plan.version,
        Err(_) => u64::MAX,
    }
}

/// The number of bytes in the first line of a text, including its line end.
fn line_length(text: &[u8]) -> usize
    requires { 0 < length text.now }
    ensures some { 0 < result }
    ensures within { result ≤ length text.now }
    ensures length { result ≡ first_length text.now }
{
    match memchr2(b'\n', b'\r', text) {
        Some(end) => end + end_length(&text[end..]),
        None => text.len(),
    }
}

/// The number of bytes in the line end at the start of a text: 2 for CR LF, else 1.
fn end_length(text: &[u8]) -> usize
    requires { IsEnd text.now }
    ensures some { 0 < result }
    ensures within { result ≤ length text.now }
    ensures length { result ≡ first_length text.now }
{
    match text {
        [b'\r', b'\n', ..] => 2,
        _ => 1,
    }
}

/// The kind of a line, by its first field. A field in quotes is read as the reader of records reads it. A record of a plan takes
/// one line, because none of its fields may have a line end.
fn kind_of(alloc: Global, line: &[u8]) -> Result<Kind, AllocError>
    ensures { IfOk result (IsKind line.now) }
{
    if begins_with_quote(line) {
        return kind_of_quoted(alloc, line);
    }
    Ok(kind_of_plain(line))
}

/// Whether a line begins with a quote.
fn begins_with_quote(line: &[u8]) -> bool
    ensures { result ≡ begins_with 34 line.now }
{
    match line {
        [b'"', ..] => true,
        _ => false,
    }
}

/// The kind of a line that does not begin with a quote.
fn kind_of_plain(line: &[u8]) -> Kind
    ensures { result ≡ plain_kind line.now }
{
    let text = trimmed(line);
    if text.is_empty() {
        return Kind::Blank;
    }
    kind_of_word(first_field(text))
}

/// A text without the white space at its end.
fn trimmed(text: &[u8]) -> &[u8]
    ensures { result.now ≡ trimmed text.now }
{
    text.trim_ascii_end()
}

/// The text before the first comma.
fn first_field(line: &[u8]) -> &[u8]
    ensures { result.now ≡ before_comma line.now }
{
    match memchr(b',', line) {
        Some(end) => &line[..end],
        None => line,
    }
}

/// The kind of a line that begins with a quote.
fn kind_of_quoted(alloc: Global, line: &[u8]) -> Result<Kind, AllocError>
    ensures { (records : List Record) → AreAllRecords (Some line.now) records → IfOk result (λ kind. kind ≡ kind_of_records records) }
{
    let mut reader = open_records(alloc, line);
    let mut row = ByteRecord::new(alloc);
    match read_next(&mut reader, &mut row) {
        Ok(true) => Ok(kind_of_word(trimmed(field_at(&row, 0)))),
        Ok(false) => Ok(Kind::Other),
        // Bytes in memory can always be read, so this fault can only be a lack of memory.
        Err(_) => Err(AllocError),
    }
}

/// The kind of a line, by the word in its first field.
fn kind_of_word(word: &[u8]) -> Kind
    ensures { result ≡ kind_of_word word.now }
{
    match word {
        b"PLAN" => Kind::Plan,
        b"LEG" | b"CUT" => Kind::Inner,
        b"END" => Kind::End,
        _ => Kind::Other,
    }
}
