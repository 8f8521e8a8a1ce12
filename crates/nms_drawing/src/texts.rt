//! How a page writes lists of texts (`specs/Texts`).
ghost use Rattle.std.specs.Prelude.{◌≡◌, ◌<◌, ◌≤◌, ◌++◌, ℕ, List, map, true, OnOk};
ghost use Rattle.std.specs.Char.{digit_char};
ghost use Rattle.std.specs.List.{list_all};
ghost use Rattle.nms_show.specs.Json.{json_byte, json_string};
ghost use Rattle.nms_drawing.specs.Texts.{comma_at, data_byte, data_text, is_no_less, texts_member};

use std::alloc::AllocError;

/// Appends a list of texts as a member of a JSON object.
#[tactic(auto, unfolding(crate::specs::Texts::texts_member))]
pub(crate) fn append_texts(out: &mut Vec<u8>, name: &str, texts: &[&[u8]]) -> Result<(), AllocError>
    ensures { OnOk result (out.new.items ≡ out.old.items ++ texts_member name.now (map (λ text. text.now) texts.now)) }
{
    out.extend_from_slice(b",\"")?;
    out.extend_from_slice(name.as_bytes())?;
    out.extend_from_slice(b"\":[")?;
    for place in 0..texts.len() {
        append_item(out, place, texts[place])?;
    }
    out.push(b']')?;
    Ok(())
}

/// Appends a text of a list at its place, after a comma if it is not the first.
fn append_item(out: &mut Vec<u8>, place: usize, text: &[u8]) -> Result<(), AllocError>
    ensures { OnOk result (out.new.items ≡ out.old.items ++ comma_at place ++ json_string text.now) }
{
    if place > 0 {
        out.push(b',')?;
    }
    append_string(out, text)
}

/// Appends a text between quotation marks.
fn append_string(out: &mut Vec<u8>, text: &[u8]) -> Result<(), AllocError>
    ensures { OnOk result (out.new.items ≡ out.old.items ++ json_string text.now) }
{
    out.push(b'"')?;
    for byte in text {
        append_byte(out, *byte)?;
    }
    out.push(b'"')?;
    Ok(())
}

/// Appends a byte of a JSON text. A quotation mark, a backslash or a control character is escaped.
fn append_byte(text: &mut Vec<u8>, byte: u8) -> Result<(), AllocError>
    ensures { OnOk result (text.new.items ≡ text.old.items ++ json_byte byte) }
{
    if byte == b'"' || byte == b'\\' {
        return text.extend_from_slice(&[b'\\', byte]);
    }
    if byte < 32 || byte == 127 {
        let digits = [hex_digit(byte / 16), hex_digit(byte % 16)];
        return text.extend_from_slice(&[b'\\', b'u', b'0', b'0', digits[0], digits[1]]);
    }
    text.extend_from_slice(&[byte])
}

/// Appends JSON as the data of a page, so that no byte of it is `<`.
pub(crate) fn append_data(out: &mut Vec<u8>, json: &[u8]) -> Result<(), AllocError>
    ensures { OnOk result (out.new.items ≡ out.old.items ++ data_text json.now) }
{
    for byte in json {
        if *byte == b'<' {
            out.extend_from_slice(b"\\u003c")?;
        } else {
            out.push(*byte)?;
        }
    }
    Ok(())
}

/// A law: no byte of a page's data is `<`.
pub fn no_data_ends_its_element()
    ensures { (json : List ℕ) → list_all is_no_less (data_text json) ≡ true }
{}

/// The character of a digit in base 16, for a digit from 0 to 15.
pub(crate) fn hex_digit(digit: u8) -> u8
    requires { digit < 16 }
    ensures digit { result ≡ digit_char digit }
    ensures low { 32 ≤ result }
    ensures high { result ≤ 126 }
{
    if digit < 10 {
        b'0' + digit
    } else {
        b'a' + (digit - 10)
    }
}
