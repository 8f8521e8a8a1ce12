//! Answering or refusing one request (specs/Requests).
ghost use Rattle.std.specs.Prelude.{◌≡◌, ◌++◌, ◌∷◌, [], true, IfOk, OnOk};
ghost use Rattle.csv.specs.Records.{fields_of};
ghost use Rattle.nms_quote.specs.Roster.{sizes_of};
ghost use Rattle.nms_lines.specs.Faults as line_faults;
ghost use Rattle.nms_lines.specs.LineOf.{IsThere};
ghost use Rattle.nms_lines.specs.Text.{text_of};
ghost use Rattle.nms_text.specs.Answers.{refusal};
ghost use Rattle.nms_answers.specs.Told.{AppendsOn, KeepsKnown};
ghost use Rattle.nms_answers.specs.Requests.{Answered, AnswersLine, is_asked, is_look, request_reading};

use crate::answer_fault::AnswerFault;
use crate::answering::{answer_best, answer_order, answer_through};
use nms_fees::Setup;
use nms_lines::{ByteRecord, Kind, Line, LineFault, Reading, field_at, kind_named, read_line};
use nms_text::tell_refusal;
use nms_versions::Desk;

/// Answers the request with this number, counted from 1. It is an `N`, `E` or `O` record of a script, for any desk of the
/// setup, on what the desk sees now. The answer is the script's on that version, appended to the text. Any other record is
/// refused by `ERR`, its number and the code. Returns whether it was refused.
///
/// `NoReading` leaves the text as it was. `NoMemory` may leave a part of the answer appended.
pub fn answer_request(
    desk: &mut Desk,
    setup: &Setup,
    row: &ByteRecord,
    number: u64,
    out: &mut Vec<u8>,
) -> Result<bool, AnswerFault>
    requires sizes { desk.old.sizes ≡ sizes_of setup.now.roster }
    ensures answered { IfOk result (Answered setup.now number (fields_of row.now) desk.old desk.new out.old.items out.new.items) }
    ensures knows { KeepsKnown desk.old desk.new }
{
    match read_request(row, setup) {
        Ok(line) => {
            answer_line(desk, setup, &line, out)?;
            Ok(false)
        }
        Err(fault) => {
            refuse(number, fault, out)?;
            Ok(true)
        }
    }
}

/// The line of a request: an `N`, `E` or `O` record of a script. A client may send no record of another kind.
fn read_request(row: &ByteRecord, setup: &Setup) -> Result<Line, LineFault>
    ensures said { result ≡ request_reading setup.now (fields_of row.now) }
    ensures look { IfOk result (λ line. is_look line ≡ true) }
    ensures there { IfOk result (IsThere (sizes_of setup.now.roster) setup.now.desks) }
{
    let desks = setup.desks();
    if !is_asked(kind_named(field_at(row, 0))) {
        return Err(LineFault::UnknownKind);
    }
    read_line(row, setup.roster(), Reading::Script { desks })
}

/// Whether a record of a kind asks for a look at what is published: a record `N`, `E` or `O`.
fn is_asked(kind: Option<Kind>) -> bool
    ensures { result ≡ is_asked kind }
{
    match kind {
        Some(kind) => kind == Kind::Best || kind == Kind::Through || kind == Kind::Sweep,
        None => false,
    }
}

/// Answers a request that was read.
fn answer_line(
    desk: &mut Desk,
    setup: &Setup,
    line: &Line,
    out: &mut Vec<u8>,
) -> Result<(), AnswerFault>
    requires sizes { desk.old.sizes ≡ sizes_of setup.now.roster }
    requires there { IsThere (sizes_of setup.now.roster) setup.now.desks line.now }
    requires asked { is_look line.now ≡ true }
    ensures told { OnOk result (AppendsOn (AnswersLine setup.now line.now) desk.old desk.new out.old.items out.new.items) }
    ensures knows { KeepsKnown desk.old desk.new }
{
    match line {
        Line::Best { desk: number, sym } => answer_best(desk, setup, *number, *sym, out),
        Line::Through {
            desk: number,
            sym,
            price,
        } => answer_through(desk, setup, *number, *sym, *price, out),
        Line::Sweep {
            desk: number,
            order,
        } => answer_order(desk, setup, *number, order, out),
        Line::Change(_) | Line::TakeOne | Line::TakeAll | Line::Publish | Line::Tell { .. } => {
            unreachable!()
        }
    }
}

/// Appends the refusal of the request with that number.
fn refuse(number: u64, fault: LineFault, out: &mut Vec<u8>) -> Result<(), AnswerFault>
    ensures { OnOk result (out.new.items ≡ out.old.items ++ text_of (refusal number (line_faults.code_of fault) ∷ [])) }
{
    match tell_refusal(out, number, fault.code()) {
        Ok(()) => Ok(()),
        Err(_) => Err(AnswerFault::NoMemory),
    }
}
