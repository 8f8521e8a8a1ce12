//! Giving texts to a writer, and what the writer holds afterwards: `specs/Written`.
ghost use Rattle.std.specs.Prelude.{◌≡◌, ℕ, List, Some};
ghost use Rattle.nms_show.specs.Safe.{IsPrintable, IsSafe};
ghost use Rattle.nms_show.specs.Written.{Writes};

use crate::show_fault::ShowFault;
use arrayvec::ArrayVec;
use nms_lines::write_text;
use std::fmt::Display;
use std::io::Write;

/// Room for a number, a price or an amount of money, which take at most 41 bytes.
const NUMBER_ROOM: usize = 64;

/// Writes printable text.
pub(crate) fn write_printable<W: Write>(answers: &mut W, text: &[u8]) -> Result<(), ShowFault>
    requires printable { IsPrintable text.now }
    ensures { Writes IsPrintable (W.contents answers.old) (W.contents answers.new) result }
{
    match write_text(answers, text) {
        Ok(()) => Ok(()),
        Err(_) => Err(ShowFault::WriteFault),
    }
}

/// Writes printable text with colours and ends of lines.
pub(crate) fn write_safe<W: Write>(answers: &mut W, text: &[u8]) -> Result<(), ShowFault>
    requires safe { IsSafe text.now }
    ensures { Writes IsSafe (W.contents answers.old) (W.contents answers.new) result }
{
    match write_text(answers, text) {
        Ok(()) => Ok(()),
        Err(_) => Err(ShowFault::WriteFault),
    }
}

/// Writes a number, a price or an amount of money.
pub(crate) fn write_number<W: Write, D: Display + Drop>(
    answers: &mut W,
    number: D,
) -> Result<(), ShowFault>
    requires { (text : List ℕ) × (D.output number ≡ Some text) × IsPrintable text }
    ensures { Writes IsPrintable (W.contents answers.old) (W.contents answers.new) result }
{
    let mut digits = ArrayVec::<u8, NUMBER_ROOM>::new();
    match digits.write_fmt(number) {
        Ok(()) => write_printable(answers, digits.as_slice()),
        Err(_) => Err(ShowFault::WriteFault),
    }
}

/// Writes the end of a line.
pub(crate) fn end_line<W: Write>(answers: &mut W) -> Result<(), ShowFault>
    ensures { Writes IsSafe (W.contents answers.old) (W.contents answers.new) result }
{
    write_safe(answers, b"\n")
}
