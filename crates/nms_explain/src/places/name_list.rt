//! The first name of a list that is not on the roster: `specs/Names`.
ghost use Rattle.std.specs.Prelude.{◌≡◌, IfSome, All, None};
ghost use Rattle.nms_lines.specs.Named.{joined_names};
ghost use Rattle.nms_explain.specs.Names.{IsFirstUnknown, IsListed};

use nms_quote::Roster;

/// How many names of a field, joined by `+`, come before the first that is not on the roster. None if each is on it. An empty
/// name, as after a last `+`, is on no roster.
pub(crate) fn unknown_name(text: &[u8], roster: &Roster) -> Option<usize>
    ensures first { IfSome result (IsFirstUnknown roster.now (joined_names text.now)) }
    ensures none { result ≡ None → All (IsListed roster.now) (joined_names text.now) }
{
    let most = text.len();
    let mut nth = 0;
    for name in text.split(|byte| *byte == b'+') {
        if roster.find_part(name).is_none() {
            return Some(nth);
        }
        // After the first name each has a `+` before it.
        if nth < most {
            nth += 1;
        }
    }
    None
}
