//! Finding an element of an array in brackets, and a key of an element in braces.
ghost use Rattle.std.specs.Prelude.{◌<◌, ◌-◌, IfSome, length};
ghost use Rattle.nms_explain_toml.specs.Lines.{IsIn};

use crate::marked::line_from;
use crate::nest::Nest;
use crate::toml_line::{Pair, pair_in};

/// How many bytes of an array come before an element, given how many elements come before it.
pub(crate) fn element_in(array: &[u8], place: usize) -> Option<usize>
    ensures { IfSome result (λ at. at < length array.now) }
{
    let mut nest = Nest::outer();
    let mut before = 0;
    for at in 0..array.len() {
        let byte = array[at];
        if nest.is_plain_at(1) {
            if byte == b',' {
                before += 1;
            } else if before == place && begins_value(byte) {
                return Some(at);
            }
        }
        nest = nest.after(&array[at..]);
        if nest.is_plain_at(0) {
            return None;
        }
    }
    None
}

/// Whether a byte in an array begins a value.
fn begins_value(byte: u8) -> bool {
    !byte.is_ascii_whitespace() && byte != b'#' && byte != b']'
}

/// The place of a key in a table in braces: how many bytes come before it, and the key with its value from there.
pub(crate) fn key_in(table: &[u8], key: &[u8]) -> Option<(usize, Pair)>
    ensures at { IfSome result (λ found. found.0 < length table.now) }
    ensures pair { IfSome result (λ found. IsIn (length table.now - found.0) found.1) }
{
    let mut nest = Nest::outer();
    let mut may_begin = false;
    for at in 0..table.len() {
        let rest = &table[at..];
        if may_begin && nest.is_plain_at(1) {
            if let Some(pair) = pair_from(rest, key) {
                return Some((at, pair));
            }
        }
        may_begin = keys_begin_after(nest, table[at], may_begin);
        nest = nest.after(rest);
        if nest.is_plain_at(0) {
            return None;
        }
    }
    None
}

/// Whether a key may begin after a byte of a table in braces, given whether one may begin at the byte.
fn keys_begin_after(nest: Nest, byte: u8, may_begin: bool) -> bool {
    match byte {
        b'{' => nest.is_plain_at(0),
        b',' => nest.is_plain_at(1),
        b'#' => may_begin,
        _ => may_begin && (nest.is_comment() || byte.is_ascii_whitespace()),
    }
}

/// A key with its value, if a text begins with that key.
fn pair_from(rest: &[u8], key: &[u8]) -> Option<Pair>
    ensures { IfSome result (IsIn (length rest.now)) }
{
    let pair = pair_in(line_from(rest, 0), key)?;
    if pair.key > 0 {
        return None;
    }
    Some(pair)
}
