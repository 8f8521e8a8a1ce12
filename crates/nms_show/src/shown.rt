//! Writing bytes of a file so that they are safe to show. An escape replaces each byte that could move a cursor, turn the
//! direction of text, or is not UTF-8 (`specs/Safe`).
ghost use Rattle.std.specs.Prelude.{◌≡◌, ◌<◌, ◌≤◌, length, take, IfOk, IfSome, IsTrue, true};
ghost use Rattle.std.specs.Char.{digit_char};
ghost use Rattle.nms_show.specs.Safe as safe;
ghost use Rattle.nms_show.specs.Safe.{IsPrintable};
ghost use Rattle.nms_show.specs.Written.{Writes};

use crate::show_fault::ShowFault;
use crate::written::{write_number, write_printable};
use std::io::Write;
use std::str;

/// The most bytes of a text that are shown.
const MOST_SHOWN: usize = 400;

/// Writes bytes as they are shown: printable ASCII and the letters of European alphabets as they are. Other characters are shown
/// as `\n`, `\r`, `\t`, `\x1b` or `\u{202e}`. A byte that is not UTF-8 is shown as `\xff`, and a backslash as two. After 400
/// bytes the number of further bytes follows. The writer is not flushed.
///
/// What is added is safe to show. After `WriteFault` a prefix of it was written.
pub fn write_shown<W: Write>(answers: &mut W, bytes: &[u8]) -> Result<(), ShowFault>
    ensures { Writes IsPrintable (W.contents answers.old) (W.contents answers.new) result }
{
    if bytes.len() <= MOST_SHOWN {
        return write_pieces(answers, bytes);
    }
    write_pieces(answers, &bytes[..MOST_SHOWN])?;
    write_left_out(answers, bytes.len() - MOST_SHOWN)
}

/// Writes how many further bytes of a cut text are not shown.
fn write_left_out<W: Write>(answers: &mut W, more: usize) -> Result<(), ShowFault>
    ensures { Writes IsPrintable (W.contents answers.old) (W.contents answers.new) result }
{
    write_printable(answers, b"..(")?;
    write_number(answers, more)?;
    write_printable(answers, b" bytes more)")
}

/// Writes all bytes with escapes, without a limit of their number.
fn write_pieces<W: Write>(answers: &mut W, bytes: &[u8]) -> Result<(), ShowFault>
    ensures { Writes IsPrintable (W.contents answers.old) (W.contents answers.new) result }
{
    let mut at = 0;
    while at < bytes.len() {
        at += write_piece(answers, &bytes[at..])?;
    }
    Ok(())
}

/// Writes the printable ASCII at the start of bytes, or the escape of the first character or byte. Returns the number of bytes
/// that it has shown.
fn write_piece<W: Write>(answers: &mut W, bytes: &[u8]) -> Result<usize, ShowFault>
    requires { 0 < length bytes.now }
    ensures shown { Writes IsPrintable (W.contents answers.old) (W.contents answers.new) result }
    ensures some { IfOk result (λ taken. 0 < taken) }
    ensures within { IfOk result (λ taken. taken ≤ length bytes.now) }
{
    let plain = plain_start(bytes);
    if plain == 0 {
        return write_escape(answers, bytes);
    }
    write_printable(answers, &bytes[..plain])?;
    Ok(plain)
}

/// The number of bytes at the start that are printable ASCII and no backslash.
fn plain_start(bytes: &[u8]) -> usize
    ensures within { result ≤ length bytes.now }
    ensures printable { IsPrintable (take result bytes.now) }
{
    let mut plain = 0;
    while plain < bytes.len() && is_plain(bytes[plain]) {
        plain += 1;
    }
    plain
}

/// Whether a byte is printable ASCII and no backslash.
fn is_plain(byte: u8) -> bool
    ensures { IsTrue result → (32 ≤ byte) × (byte ≤ 126) }
{
    byte >= b' ' && byte <= b'~' && byte != b'\\'
}

/// Writes the escape or the letter for the first character or byte. Returns the number of bytes that it has shown.
fn write_escape<W: Write>(answers: &mut W, bytes: &[u8]) -> Result<usize, ShowFault>
    requires { 0 < length bytes.now }
    ensures shown { Writes IsPrintable (W.contents answers.old) (W.contents answers.new) result }
    ensures some { IfOk result (λ taken. 0 < taken) }
    ensures within { IfOk result (λ taken. taken ≤ length bytes.now) }
{
    match char_at(bytes) {
        Some((letter, taken)) => {
            write_char(answers, letter)?;
            Ok(taken)
        }
        None => {
            write_byte(answers, bytes[0])?;
            Ok(1)
        }
    }
}

/// The character at the start of bytes, if they are UTF-8, and its number of bytes.
fn char_at(bytes: &[u8]) -> Option<(char, usize)>
    ensures some { IfSome result (λ found. 0 < found.1) }
    ensures within { IfSome result (λ found. found.1 ≤ length bytes.now) }
{
    for taken in 1..5 {
        if taken > bytes.len() {
            return None;
        }
        if let Ok(text) = str::from_utf8(&bytes[..taken]) {
            return Some((text.chars().next()?, taken));
        }
    }
    None
}

/// Writes a character that is not printable ASCII, or a backslash.
fn write_char<W: Write>(answers: &mut W, letter: char) -> Result<(), ShowFault>
    ensures { Writes IsPrintable (W.contents answers.old) (W.contents answers.new) result }
{
    match letter {
        '\\' => write_printable(answers, b"\\\\"),
        '\n' => write_printable(answers, b"\\n"),
        '\r' => write_printable(answers, b"\\r"),
        '\t' => write_printable(answers, b"\\t"),
        _ if is_letter(letter) => write_letter(answers, letter),
        _ => write_code(answers, u32::from(letter)),
    }
}

/// Writes a letter as it is.
fn write_letter<W: Write>(answers: &mut W, letter: char) -> Result<(), ShowFault>
    requires { safe.is_letter letter ≡ true }
    ensures { Writes IsPrintable (W.contents answers.old) (W.contents answers.new) result }
{
    let mut room = [0; 4];
    let text = letter.encode_utf8(&mut room);
    write_printable(answers, text.as_bytes())
}

/// Whether a character takes one column, is written from left to right, and joins no other. The letters are Latin, Greek and
/// Cyrillic.
fn is_letter(letter: char) -> bool
    ensures { result ≡ safe.is_letter letter }
{
    matches!(letter, '\u{a1}'..='\u{ac}' | '\u{ae}'..='\u{2ff}' | '\u{391}'..='\u{3ce}' | '\u{400}'..='\u{481}')
}

/// Writes the code of a character as an escape, such as `\x1b` if it is ASCII, and else such as `\u{202e}`.
fn write_code<W: Write>(answers: &mut W, code: u32) -> Result<(), ShowFault>
    ensures { Writes IsPrintable (W.contents answers.old) (W.contents answers.new) result }
{
    if code < 128 {
        return write_byte(answers, code as u8);
    }
    write_printable(answers, b"\\u{")?;
    write_hex(answers, code)?;
    write_printable(answers, b"}")
}

/// Writes a number in base 16, without leading zeros.
fn write_hex<W: Write>(answers: &mut W, number: u32) -> Result<(), ShowFault>
    ensures { Writes IsPrintable (W.contents answers.old) (W.contents answers.new) result }
{
    let mut begun = false;
    for place in 0u32..8 {
        let digit = (number >> (28 - 4 * place)) % 16;
        begun = begun || digit > 0;
        if begun {
            write_printable(answers, &[hex_digit(digit as u8)])?;
        }
    }
    Ok(())
}

/// Writes a byte as `\x1b`.
fn write_byte<W: Write>(answers: &mut W, byte: u8) -> Result<(), ShowFault>
    ensures { Writes IsPrintable (W.contents answers.old) (W.contents answers.new) result }
{
    write_printable(
        answers,
        &[b'\\', b'x', hex_digit(byte / 16), hex_digit(byte % 16)],
    )
}

/// A digit in base 16.
pub(crate) fn hex_digit(digit: u8) -> u8
    requires { digit < 16 }
    ensures digit { result ≡ digit_char digit }
    ensures low { 32 ≤ result }
    ensures high { result ≤ 126 }
{
    if digit < 10 {
        b'0' + digit
    } else {
        b'a' + (digit - 10)
    }
}
