//! Writing one JSON object a line (`specs/Json`).
ghost use Rattle.std.specs.Prelude.{◌≡◌, ◌++◌, All, IfOk, OnOk, Some};
ghost use Rattle.nms_show.specs.Json as json;
ghost use Rattle.nms_show.specs.Safe.{IsPrintable, IsSafe, own_text};
ghost use Rattle.nms_show.specs.Written.{Adds, Writes};

use crate::item::{Item, write_plain};
use crate::show_fault::ShowFault;
use crate::shown::hex_digit;
use crate::written::{write_number, write_printable, write_safe};
use nms_lines::write_text;
use std::alloc::{AllocError, Global};
use std::io::Write;

/// Writes a JSON object as one line, with the keys in the given order. The writer is not flushed.
///
/// If the keys and the program's texts in the items are printable, what is added is safe to show. After `NoMemory` nothing was
/// written.
pub fn write_object<W: Write>(
    alloc: Global,
    answers: &mut W,
    members: &[(&str, Item<'_>)],
) -> Result<(), ShowFault>
    ensures safe { All (λ member. IsPrintable member.0.now × IsPrintable (own_text member.1)) members.now → Writes IsSafe (W.contents answers.old) (W.contents answers.new) result }
{
    match text_of_object(alloc, members) {
        Ok(text) => write_whole(answers, text.as_slice()),
        Err(_) => Err(ShowFault::NoMemory),
    }
}

/// Writes an object's text.
fn write_whole<W: Write>(answers: &mut W, text: &[u8]) -> Result<(), ShowFault>
    ensures { IsSafe text.now → Writes IsSafe (W.contents answers.old) (W.contents answers.new) result }
{
    match write_text(answers, text) {
        Ok(()) => Ok(()),
        Err(_) => Err(ShowFault::WriteFault),
    }
}

/// The text of an object and the end of its line.
fn text_of_object(alloc: Global, members: &[(&str, Item<'_>)]) -> Result<Vec<u8>, ShowFault>
    ensures { All (λ member. IsPrintable member.0.now × IsPrintable (own_text member.1)) members.now → IfOk result (λ text. IsSafe text.items) }
{
    let mut text = Vec::new(alloc);
    write_printable(&mut text, b"{")?;
    write_members(alloc, &mut text, members)?;
    write_safe(&mut text, b"}\n")?;
    Ok(text)
}

/// Appends the keys of a JSON object with their values, and a comma between two of them.
fn write_members(
    alloc: Global,
    text: &mut Vec<u8>,
    members: &[(&str, Item<'_>)],
) -> Result<(), ShowFault>
    ensures { All (λ member. IsPrintable member.0.now × IsPrintable (own_text member.1)) members.now → OnOk result (Adds IsPrintable (Some text.old.items) (Some text.new.items)) }
{
    for place in 0..members.len() {
        if place > 0 {
            write_printable(text, b",")?;
        }
        let (key, item) = members[place];
        write_member(alloc, text, key, &item)?;
    }
    Ok(())
}

/// Appends a key of a JSON object and its value.
fn write_member(
    alloc: Global,
    text: &mut Vec<u8>,
    key: &str,
    item: &Item<'_>,
) -> Result<(), ShowFault>
    ensures { IsPrintable key.now → IsPrintable (own_text item.now) → OnOk result (Adds IsPrintable (Some text.old.items) (Some text.new.items)) }
{
    write_string(text, key.as_bytes())?;
    write_printable(text, b":")?;
    write_value(alloc, text, item)
}

/// Appends the value of a key: a text, a number, `true`, `false` or `null`.
fn write_value(alloc: Global, text: &mut Vec<u8>, item: &Item<'_>) -> Result<(), ShowFault>
    ensures { IsPrintable (own_text item.now) → OnOk result (Adds IsPrintable (Some text.old.items) (Some text.new.items)) }
{
    match *item {
        Item::Text(own) | Item::Strong(own) | Item::Alarm(own) => write_string(
            text,
            own.as_bytes(),
        ),
        Item::Bytes(_) | Item::Price(_) | Item::Money(_) => write_as_string(alloc, text, item),
        Item::Number(number) => write_number(text, number),
        Item::Flag(true) => write_printable(text, b"true"),
        Item::Flag(false) => write_printable(text, b"false"),
        Item::Absent => write_printable(text, b"null"),
    }
}

/// Appends an item as a JSON text, with the characters that the item has in a line for people.
fn write_as_string(alloc: Global, text: &mut Vec<u8>, item: &Item<'_>) -> Result<(), ShowFault>
    ensures { IsPrintable (own_text item.now) → OnOk result (Adds IsPrintable (Some text.old.items) (Some text.new.items)) }
{
    let mut shown = Vec::new(alloc);
    write_plain(&mut shown, item)?;
    write_string(text, shown.as_slice())
}

/// Writes a text between quotation marks.
fn write_string(text: &mut Vec<u8>, own: &[u8]) -> Result<(), ShowFault>
    ensures written { OnOk result (text.new.items ≡ text.old.items ++ json.json_string own.now) }
    ensures printable { IsPrintable own.now → OnOk result (Adds IsPrintable (Some text.old.items) (Some text.new.items)) }
{
    match push_string(text, own) {
        Ok(()) => Ok(()),
        Err(_) => Err(ShowFault::NoMemory),
    }
}

/// Appends a text between quotation marks.
fn push_string(text: &mut Vec<u8>, own: &[u8]) -> Result<(), AllocError>
    ensures { OnOk result (text.new.items ≡ text.old.items ++ json.json_string own.now) }
{
    text.extend_from_slice(b"\"")?;
    for byte in own {
        push_byte(text, *byte)?;
    }
    text.extend_from_slice(b"\"")
}

/// Appends a byte as it is in a JSON text: with a backslash, as `\u00` and two digits, or as it is.
fn push_byte(text: &mut Vec<u8>, byte: u8) -> Result<(), AllocError>
    ensures { OnOk result (text.new.items ≡ text.old.items ++ json.json_byte byte) }
{
    if byte == b'"' || byte == b'\\' {
        return text.extend_from_slice(&[b'\\', byte]);
    }
    if byte < 32 || byte == 127 {
        let digits = [hex_digit(byte / 16), hex_digit(byte % 16)];
        return text.extend_from_slice(&[b'\\', b'u', b'0', b'0', digits[0], digits[1]]);
    }
    text.extend_from_slice(&[byte])
}
