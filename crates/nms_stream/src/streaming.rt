//! A complete stream, written in pieces: `specs/Stream`, `specs/StreamFile`.
ghost use Rattle.std.specs.Prelude.{◌≡◌, ◌<◌, ◌++◌, ◌∷◌, [], List, length, true, false, IfErr, IfSome, OnErr, OnOk};
ghost use Rattle.std.specs.Io.KnownBytes.{Appends};
ghost use Rattle.nms_quote.specs.Roster.{sizes_of};
ghost use Rattle.nms_board.specs.Cells.{takes};
ghost use Rattle.nms_lines.specs.Text.{text_of};
ghost use Rattle.nms_lines.specs.Written.{AppendsPart, WritesPart};
ghost use Rattle.nms_stream.specs.Following.{Follows, IsOf};
ghost use Rattle.nms_stream.specs.Pieces.{Sends};
ghost use Rattle.nms_stream.specs.Stream.{lines_between, stream_text};
ghost use Rattle.nms_stream.specs.StreamFile.{IsStreamFault, StreamsFile, is_begun, is_of_file};
ghost use Rattle.nms_stream.specs.Tapes.{sizes_in};

use crate::following::{Follower, follow, open};
use crate::line::tell_header;
use crate::stream_fault::StreamFault;
use crate::tape::Tape;
use nms_fees::Setup;
use nms_quote::{Change, Roster, Sym};
use nms_text::tell;
use std::alloc::Global;
use std::io::{Read, Write};

/// The number of bytes of lines that are collected before they are written.
const PIECE: usize = 65_536;

/// Streams the changes of a file. After a header there is a line if and only if a wanted symbol's best bid, best offer or
/// market changes. The lines are in order of versions, then of symbols. Without a symbol, all symbols of the roster are asked
/// for.
///
/// The file is read first. After `Changes` or `Board` nothing is written. After `WriteFault` or `NoMemory` only a prefix of the
/// stream is written. In addition to the file's changes, memory is taken for a board and about 128 KiB of lines.
pub fn stream_file<R: Read + Drop, W: Write>(
    alloc: Global,
    setup: &Setup,
    source: R,
    asked: Option<Sym>,
    writer: &mut W,
) -> Result<(), StreamFault>
    requires { IfSome asked (λ sym. sym < length setup.now.roster.syms) }
    ensures written { OnOk result (StreamsFile setup.now (R.remaining source) asked (W.contents writer.old) (W.contents writer.new)) }
    ensures refused { IfErr result (IsStreamFault setup.now (R.remaining source)) }
    ensures cut { IfErr result (λ fault. is_begun fault ≡ true → WritesPart (StreamsFile setup.now (R.remaining source) asked (W.contents writer.old)) (W.contents writer.old) (W.contents writer.new)) }
    ensures unwritten { IfErr result (λ fault. is_begun fault ≡ false → W.contents writer.new ≡ W.contents writer.old) }
{
    match Tape::read(alloc, setup, source) {
        Ok(tape) => stream(alloc, &tape, asked, writer),
        Err(fault) => Err(StreamFault::Changes(fault)),
    }
}

/// Streams a tape: a header, and a line if and only if a wanted symbol's best bid, best offer or market changes.
pub fn stream<W: Write>(
    alloc: Global,
    tape: &Tape<'_>,
    asked: Option<Sym>,
    writer: &mut W,
) -> Result<(), StreamFault>
    requires { IfSome asked (λ sym. sym < length tape.now.roster.now.syms) }
    ensures written { OnOk result (Appends (W.contents writer.old) (W.contents writer.new) (stream_text tape.now.roster.now asked tape.now.changes.items)) }
    ensures cut { OnErr result (AppendsPart (W.contents writer.old) (W.contents writer.new) (stream_text tape.now.roster.now asked tape.now.changes.items)) }
    ensures unwritten { IfErr result (λ fault. is_begun fault ≡ false → W.contents writer.new ≡ W.contents writer.old) }
    ensures own { IfErr result (λ fault. is_of_file fault ≡ false) }
{
    let mut out = Vec::new(alloc);
    match open(alloc, tape.roster) {
        Ok(mut follower) => stream_along(&mut follower, tape, &asked, &mut out, writer),
        Err(fault) => Err(StreamFault::Board(fault)),
    }
}

/// Writes the header, and the lines along the changes.
fn stream_along<W: Write>(
    follower: &mut Follower,
    tape: &Tape<'_>,
    asked: &Option<Sym>,
    out: &mut Vec<u8>,
    writer: &mut W,
) -> Result<(), StreamFault>
    requires of { IsOf (sizes_in tape.now) follower.old }
    requires first { Follows (sizes_in tape.now) asked.now follower.old [] }
    requires empty { out.old.items ≡ [] }
    requires asked { IfSome asked.now (λ sym. sym < length tape.now.roster.now.syms) }
    ensures written { OnOk result (Appends (W.contents writer.old) (W.contents writer.new) (stream_text tape.now.roster.now asked.now tape.now.changes.items)) }
    ensures cut { OnErr result (AppendsPart (W.contents writer.old) (W.contents writer.new) (stream_text tape.now.roster.now asked.now tape.now.changes.items)) }
    ensures begun { IfErr result (λ fault. is_begun fault ≡ true) }
{
    if tell_header(out).is_err() {
        return Err(StreamFault::NoMemory);
    }
    for change in &tape.changes {
        advance(follower, tape.roster, change, asked, out, writer)?;
    }
    send(out, writer)
}

/// Moves the board on by one change and collects its lines. The collected lines are written once they have at least 65,536
/// bytes.
fn advance<W: Write>(
    follower: &mut Follower,
    roster: &Roster,
    change: &Change,
    asked: &Option<Sym>,
    out: &mut Vec<u8>,
    writer: &mut W,
) -> Result<(), StreamFault>
    requires of { IsOf (sizes_of roster.now) follower.old }
    requires takes { takes follower.old.board change.now ≡ true }
    requires asked { IfSome asked.now (λ sym. sym < length roster.now.syms) }
    ensures of { IsOf (sizes_of roster.now) follower.new }
    ensures follows { (tape : List Change) → Follows (sizes_of roster.now) asked.now follower.old tape
        → OnOk result (Follows (sizes_of roster.now) asked.now follower.new (tape ++ change.now ∷ [])) }
    ensures sends { (tape : List Change) → Follows (sizes_of roster.now) asked.now follower.old tape
        → OnOk result (Sends (W.contents writer.old) (W.contents writer.new) out.old.items
        (text_of (lines_between roster.now asked.now tape (tape ++ change.now ∷ []))) out.new.items) }
    ensures cut { (tape : List Change) → Follows (sizes_of roster.now) asked.now follower.old tape
        → OnErr result (AppendsPart (W.contents writer.old) (W.contents writer.new)
        (out.old.items ++ text_of (lines_between roster.now asked.now tape (tape ++ change.now ∷ [])))) }
    ensures begun { IfErr result (λ fault. is_begun fault ≡ true) }
{
    if follow(follower, roster, change, asked, out).is_err() {
        return Err(StreamFault::NoMemory);
    }
    if out.len() < PIECE {
        return Ok(());
    }
    send(out, writer)
}

/// Writes the collected lines, and empties their buffer.
fn send<W: Write>(out: &mut Vec<u8>, writer: &mut W) -> Result<(), StreamFault>
    ensures sent { OnOk result (Appends (W.contents writer.old) (W.contents writer.new) out.old.items) }
    ensures empty { OnOk result (out.new.items ≡ []) }
    ensures cut { OnErr result (AppendsPart (W.contents writer.old) (W.contents writer.new) out.old.items) }
    ensures begun { IfErr result (λ fault. is_begun fault ≡ true) }
{
    match tell(writer, out) {
        Ok(()) => {
            out.clear();
            Ok(())
        }
        Err(_) => Err(StreamFault::WriteFault),
    }
}
