//! The versions that the changes of a symbol made: a line of the file of symbols.
ghost use Rattle.std.specs.Prelude.{◌≡◌, ◌<◌, ◌≤◌, IfOk, IfSome, length};

use crate::times_fault::TimesFault;
use nms_units::parse_digits;

/// The range of versions in which a symbol has its changes: after one version, up to another. Changes of other symbols may be
/// among them.
#[derive(Clone, Copy, Debug, PartialEq, Eq)]
pub struct Span {
    /// The version before the symbol's first change.
    pub before: usize,
    /// The version after the symbol's last change.
    pub last: usize,
}

/// Finds the range of a symbol's versions in a file of symbols. A line has a name, the version after the symbol's first change,
/// and the version after its last, with commas between. The result is `None` if no line has the name. If several lines have it,
/// the first one counts.
///
/// `NotSymbol` names the first line that is malformed, or whose versions are not from 1 to the given number of versions.
pub fn find_span(text: &[u8], symbol: &[u8], versions: usize) -> Result<Option<Span>, TimesFault>
    ensures { IfOk result (λ found. IfSome found (λ span. (span.before < span.last) × (span.last ≤ versions))) }
{
    let mut found = None;
    let mut rest = text;
    let mut line = 0u64;
    while !rest.is_empty() {
        line += 1;
        let Some((name, span, more)) = first_span(rest, versions) else {
            return Err(TimesFault::NotSymbol { line });
        };
        if found.is_none() && name == symbol {
            found = Some(span);
        }
        rest = more;
    }
    Ok(found)
}

/// The name and the range of versions in the first line, and the lines after it.
fn first_span(text: &[u8], versions: usize) -> Option<(&[u8], Span, &[u8])>
    ensures within { IfSome result (λ it. (it.1.before < it.1.last) × (it.1.last ≤ versions)) }
    ensures shorter { IfSome result (λ it. length it.2.now < length text.now) }
{
    let (line, rest) = before_byte(text, b'\n')?;
    let (name, versions_text) = before_byte(line, b',')?;
    let (first, last) = before_byte(versions_text, b',')?;
    let (first, last) = (parse_digits(first, 19)?, parse_digits(last, 19)?);
    if first == 0 || first > last || last > versions as u64 {
        return None;
    }
    let span = Span {
        before: first as usize - 1,
        last: last as usize,
    };
    Some((name, span, rest))
}

/// The bytes before the first occurrence of the given byte, and the bytes after it.
fn before_byte(text: &[u8], byte: u8) -> Option<(&[u8], &[u8])>
    ensures { IfSome result (λ it. length it.1.now < length text.now) }
{
    let place = text.iter().position(|it| *it == byte)?;
    Some((&text[..place], &text[place + 1..]))
}
