//! Giving one text to a writer: `specs/Written`.
ghost use Rattle.std.specs.Prelude.{OnErr, OnOk};
ghost use Rattle.std.specs.Io.{WritesAtMost};
ghost use Rattle.std.specs.Io.KnownBytes.{Appends, WriteAppends};
ghost use Rattle.nms_lines.specs.Written.{AppendsPart};

use std::io::{Error, ErrorKind, Result, Write};

/// Gives a writer a text, in any number of writes. An interrupted write is repeated.
///
/// If the writer fails, only a prefix of the text was written. The writer is not flushed.
pub fn write_text<W: Write>(writer: &mut W, text: &[u8]) -> Result<()>
    ensures written { OnOk result (Appends (W.contents writer.old) (W.contents writer.new) text.now) }
    ensures part { OnErr result (AppendsPart (W.contents writer.old) (W.contents writer.new) text.now) }
{
    let mut done = 0;
    for _ in 0..u64::MAX {
        if done == text.len() {
            return Ok(());
        }
        done += write_some(writer, &text[done..])?;
    }
    Err(Error::from(ErrorKind::WriteZero))
}

/// One write of a text that is not empty: the number of bytes that the writer took, 0 if a signal interrupted it.
fn write_some<W: Write>(writer: &mut W, text: &[u8]) -> Result<usize>
    ensures bound { WritesAtMost result text.now }
    ensures taken { WriteAppends (W.contents writer.old) (W.contents writer.new) result text.now }
{
    match writer.write(text) {
        Ok(0) => Err(Error::from(ErrorKind::WriteZero)),
        Ok(taken) => Ok(taken),
        Err(error) if error.kind() == ErrorKind::Interrupted => Ok(0),
        Err(error) => Err(error),
    }
}
