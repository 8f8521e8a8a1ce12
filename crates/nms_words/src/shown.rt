//! The parser's text, with escapes. The text quotes arguments of the call, so an escape replaces each character on which a
//! terminal could act.
use std::fmt;
use std::fmt::Write;

/// A text that is printed with printable ASCII, line feeds and the letters of European alphabets as they are. Any other character
/// is printed as `\r`, `\t`, `\x1b` or `\u{202e}`, and a backslash as two.
#[derive(Clone, Copy)]
pub(crate) struct Shown<'a>(pub(crate) &'a str);

impl fmt::Display for Shown<'_> {
    fn fmt<W: fmt::Write>(&self, f: &mut fmt::Formatter<W>) -> fmt::Result {
        for letter in self.0.chars() {
            write_letter(f, letter)?;
        }
        Ok(())
    }
}

/// Writes a character as it is shown.
fn write_letter<W: fmt::Write>(f: &mut fmt::Formatter<W>, letter: char) -> fmt::Result {
    match letter {
        '\\' => f.write_str("\\\\"),
        '\n' | ' '..='~' => f.write_char(letter),
        '\r' => f.write_str("\\r"),
        '\t' => f.write_str("\\t"),
        '\0'..='\x7f' => write!(f, "\\x{:02x}", u32::from(letter)),
        _ if is_letter(letter) => f.write_char(letter),
        _ => write!(f, "\\u{{{:x}}}", u32::from(letter)),
    }
}

/// Whether a character takes one column, is written from left to right, and joins no other. The letters are Latin, Greek and
/// Cyrillic.
fn is_letter(letter: char) -> bool {
    matches!(letter, '\u{a1}'..='\u{ac}' | '\u{ae}'..='\u{2ff}' | '\u{391}'..='\u{3ce}' | '\u{400}'..='\u{481}')
}
