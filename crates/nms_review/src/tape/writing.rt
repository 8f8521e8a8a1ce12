//! The tape of a script as a file of changes: `specs/Taken`.
ghost use Rattle.std.specs.Prelude.{◌≡◌, ◌≢◌, ◌∷◌, [], Err, OnErr, OnOk};
ghost use Rattle.std.specs.Io.KnownBytes.{Appends};
ghost use Rattle.nms_lines.specs.Text.{text_of};
ghost use Rattle.nms_lines.specs.Written.{AppendsPart, WritesPart};
ghost use Rattle.nms_change_text.specs.ChangeText.{change_record, changes_text};
ghost use Rattle.nms_review.specs.Taken.{WritesTape};

use super::taking::taken_by_script;
use nms_change_text::append_change;
use nms_fees::Setup;
use nms_lines::write_text;
use nms_quote::{Change, Roster};
use nms_scripts::ScriptFault;
use std::alloc::Global;
use std::io::{Read, Write};

/// Writes the changes that a script takes as a file of changes: a record each, in order. The script is read first.
///
/// After `ReadFault` or `TooLong` nothing is written. After `NoMemory` or `WriteFault` only a prefix of the text is written.
/// The writer is not flushed.
pub fn write_tape<R: Read + Drop, W: Write>(
    alloc: Global,
    setup: &Setup,
    source: R,
    out: &mut W,
) -> Result<(), ScriptFault>
    ensures written { OnOk result (WritesTape setup.now (R.remaining source) (W.contents out.old) (W.contents out.new)) }
    ensures unread { result ≡ Err ScriptFault.ReadFault → W.contents out.new ≡ W.contents out.old }
    ensures long { result ≡ Err ScriptFault.TooLong → W.contents out.new ≡ W.contents out.old }
    ensures cut { result ≡ Err ScriptFault.WriteFault →
        WritesPart (λ whole. WritesTape setup.now (R.remaining source) (W.contents out.old) whole) (W.contents out.old) (W.contents out.new) }
{
    match taken_by_script(alloc, setup, source) {
        Ok(tape) => write_changes(alloc, setup.roster(), tape.as_slice(), out),
        Err(fault) => Err(fault),
    }
}

/// Writes the records of changes, in order.
fn write_changes<W: Write>(
    alloc: Global,
    roster: &Roster,
    changes: &[Change],
    out: &mut W,
) -> Result<(), ScriptFault>
    ensures written { OnOk result (Appends (W.contents out.old) (W.contents out.new) (changes_text roster.now changes.now)) }
    ensures part { OnErr result (AppendsPart (W.contents out.old) (W.contents out.new) (changes_text roster.now changes.now)) }
    ensures read { result ≢ Err ScriptFault.ReadFault }
    ensures short { result ≢ Err ScriptFault.TooLong }
{
    let mut record = Vec::new(alloc);
    for change in changes {
        write_change(roster, change, &mut record, out)?;
    }
    Ok(())
}

/// Writes the record of a change through a buffer.
fn write_change<W: Write>(
    roster: &Roster,
    change: &Change,
    record: &mut Vec<u8>,
    out: &mut W,
) -> Result<(), ScriptFault>
    ensures written { OnOk result (Appends (W.contents out.old) (W.contents out.new) (text_of (change_record roster.now change.now ∷ []))) }
    ensures part { OnErr result (AppendsPart (W.contents out.old) (W.contents out.new) (text_of (change_record roster.now change.now ∷ []))) }
    ensures read { result ≢ Err ScriptFault.ReadFault }
    ensures short { result ≢ Err ScriptFault.TooLong }
{
    record.clear();
    let Ok(()) = append_change(record, roster, change) else {
        return Err(ScriptFault::NoMemory);
    };
    match write_text(out, record.as_slice()) {
        Ok(()) => Ok(()),
        Err(_) => Err(ScriptFault::WriteFault),
    }
}
