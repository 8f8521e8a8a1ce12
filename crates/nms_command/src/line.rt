//! Writing and flushing texts.
ghost use Rattle.std.specs.Prelude.{◌++◌, ◌∷◌, [], OnErr, OnOk};
ghost use Rattle.std.specs.Io.KnownBytes.{Appends};
ghost use Rattle.nms_lines.specs.Written.{AppendsPart};

use nms_lines::write_text;
use std::io;
use std::io::Write;

/// Writes two texts, one after the other, and the end of a line. Then it flushes them. After a failure, only the first bytes of
/// the line were written.
pub fn write_line<W: Write>(writer: &mut W, head: &str, code: &str) -> io::Result<()>
    ensures written { OnOk result (Appends (W.contents writer.old) (W.contents writer.new) (head.now ++ (code.now ++ 10 ∷ []))) }
    ensures part { OnErr result (AppendsPart (W.contents writer.old) (W.contents writer.new) (head.now ++ (code.now ++ 10 ∷ []))) }
{
    write_text(writer, head.as_bytes())?;
    write_text(writer, code.as_bytes())?;
    write_text(writer, b"\n")?;
    writer.flush()
}

/// Writes a text, and flushes it. After a failure, only the first bytes of the text were written.
pub fn write_whole<W: Write>(writer: &mut W, text: &str) -> io::Result<()>
    ensures written { OnOk result (Appends (W.contents writer.old) (W.contents writer.new) text.now) }
    ensures part { OnErr result (AppendsPart (W.contents writer.old) (W.contents writer.new) text.now) }
{
    write_text(writer, text.as_bytes())?;
    writer.flush()
}
