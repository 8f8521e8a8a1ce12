//! Writing a text in one write.
ghost use Rattle.std.specs.Prelude.{◌≡◌, IfErr, OnErr, OnOk};
ghost use Rattle.std.specs.Io.KnownBytes.{Appends};
ghost use Rattle.nms_lines.specs.Written.{AppendsPart};

use crate::script_fault::ScriptFault;
use nms_lines::write_text;
use std::io::Write;

/// Writes a text at once, and flushes it. For an empty text it does nothing.
///
/// `WriteFault` is its only fault, after which only a prefix of the text was written.
pub fn tell<W: Write>(writer: &mut W, text: &[u8]) -> Result<(), ScriptFault>
    ensures written { OnOk result (Appends (W.contents writer.old) (W.contents writer.new) text.now) }
    ensures part { OnErr result (AppendsPart (W.contents writer.old) (W.contents writer.new) text.now) }
    ensures refused { IfErr result (λ fault. fault ≡ ScriptFault.WriteFault) }
{
    if text.is_empty() {
        return Ok(());
    }
    if write_text(writer, text).is_err() || writer.flush().is_err() {
        return Err(ScriptFault::WriteFault);
    }
    Ok(())
}
