//! How a page writes a table of whole numbers: a text for each column (`specs/Spelling`).
ghost use Rattle.std.specs.Prelude.{◌≡◌, ◌+◌, ◌<◌, ◌≤◌, ◌^◌, ◌==◌, ◌++◌, length, map, OnOk};
ghost use Rattle.std.specs.Fmt.{decimal};
ghost use Rattle.std.specs.List.{list_all};
ghost use Rattle.nms_drawing.specs.Spelling.{column_at, column_member, column_text, columns_from, exponent_within, is_multiple, number_text, step_number, steps_text, table_text};

use itoa::write_digits;
use std::alloc::AllocError;

/// The characters of the digits 0 to 63, which are those of base 64.
const GLYPHS: [u8; 64] = *b"ABCDEFGHIJKLMNOPQRSTUVWXYZabcdefghijklmnopqrstuvwxyz0123456789+/";

/// The greatest number of digits in base 32 that a difference between two values needs.
const MOST_DIGITS: usize = 13;

/// The powers of ten that may be the unit of a column. The values of a column are multiples of its unit.
const UNITS: [u64; 10] = [
    1,
    10,
    100,
    1_000,
    10_000,
    100_000,
    1_000_000,
    10_000_000,
    100_000_000,
    1_000_000_000,
];

/// Appends a table of whole numbers as a member of a JSON object.
#[tactic(auto, unfolding(crate::specs::Spelling::table_text))]
pub(crate) fn append_table<const N: usize>(
    out: &mut Vec<u8>,
    name: &str,
    columns: &[&str],
    rows: &[[u64; N]],
) -> Result<(), AllocError>
    requires { length columns.now ≡ N }
    ensures { OnOk result (out.new.items ≡ out.old.items ++ table_text name.now (map (λ column. column.now) columns.now) rows.now) }
{
    out.extend_from_slice(b",\"")?;
    out.extend_from_slice(name.as_bytes())?;
    out.extend_from_slice(b"\":{\"n\":")?;
    append_decimal(out, rows.len() as u64)?;
    for place in 0..columns.len() {
        append_member(out, columns[place], rows, place)?;
    }
    out.push(b'}')?;
    Ok(())
}

/// Appends a number in base 10.
pub(crate) fn append_decimal(out: &mut Vec<u8>, number: u64) -> Result<(), AllocError>
    ensures { OnOk result (out.new.items ≡ out.old.items ++ decimal number) }
{
    let mut digits = [0; 20];
    let start = write_digits(number, &mut digits, 20);
    out.extend_from_slice(&digits[start..])
}

/// Appends a column as a member of a JSON object. A column whose values are all 0 is left out.
fn append_member<const N: usize>(
    out: &mut Vec<u8>,
    name: &str,
    rows: &[[u64; N]],
    place: usize,
) -> Result<(), AllocError>
    requires { place < N }
    ensures { OnOk result (out.new.items ≡ out.old.items ++ column_member name.now (column_at place rows.now)) }
{
    if is_nothing(rows, place) {
        return Ok(());
    }
    out.extend_from_slice(b",\"")?;
    out.extend_from_slice(name.as_bytes())?;
    out.extend_from_slice(b"\":\"")?;
    append_column(out, rows, place)?;
    out.push(b'"')?;
    Ok(())
}

/// Appends the text of a column: the exponent of its unit, which is a power of ten, and then its differences.
fn append_column<const N: usize>(
    out: &mut Vec<u8>,
    rows: &[[u64; N]],
    place: usize,
) -> Result<(), AllocError>
    requires { place < N }
    ensures { OnOk result (out.new.items ≡ out.old.items ++ column_text (column_at place rows.now)) }
{
    let exponent = exponent_of(rows, place);
    out.push(b'0' + exponent)?;
    append_steps(out, rows, place, UNITS[usize::from(exponent)])
}

/// Whether all values of a column are 0.
fn is_nothing<const N: usize>(rows: &[[u64; N]], place: usize) -> bool
    requires { place < N }
    ensures { result ≡ list_all (λ value. value == 0) (column_at place rows.now) }
{
    for row in rows {
        if row[place] != 0 {
            return false;
        }
    }
    true
}

/// The exponent of the greatest power of ten, up to 9, such that all values of a column are multiples of that power.
fn exponent_of<const N: usize>(rows: &[[u64; N]], place: usize) -> u8
    requires { place < N }
    ensures exponent { result ≡ exponent_within 9 (column_at place rows.now) }
    ensures within { result ≤ 9 }
{
    let mut exponent = 9;
    while exponent > 0 && !are_multiples(rows, place, UNITS[usize::from(exponent)]) {
        exponent -= 1;
    }
    exponent
}

/// Whether all values of a column are multiples of a unit.
fn are_multiples<const N: usize>(rows: &[[u64; N]], place: usize, unit: u64) -> bool
    requires place { place < N }
    requires unit { 0 < unit }
    ensures { result ≡ list_all (is_multiple unit) (column_at place rows.now) }
{
    for row in rows {
        if row[place] % unit != 0 {
            return false;
        }
    }
    true
}

/// Appends the difference between each value of a column and the value before it, in units of a power of ten.
fn append_steps<const N: usize>(
    out: &mut Vec<u8>,
    rows: &[[u64; N]],
    place: usize,
    unit: u64,
) -> Result<(), AllocError>
    requires place { place < N }
    requires unit { 0 < unit }
    ensures { OnOk result (out.new.items ≡ out.old.items ++ steps_text unit 0 (column_at place rows.now)) }
{
    let mut was = 0;
    for row in rows {
        let value = row[place];
        append_number(out, step_number(was / unit, value / unit))?;
        was = value;
    }
    Ok(())
}

/// Appends a number in base 32, the lowest digit first. 32 is added to each digit that another digit follows.
fn append_number(out: &mut Vec<u8>, number: u128) -> Result<(), AllocError>
    ensures { OnOk result (out.new.items ≡ out.old.items ++ number_text number) }
{
    let mut left = number;
    for _ in 0..MOST_DIGITS {
        if left < 32 {
            out.push(GLYPHS[left as usize])?;
            return Ok(());
        }
        out.push(GLYPHS[(left % 32 + 32) as usize])?;
        left /= 32;
    }
    Ok(())
}

/// The difference from one value to the next, as a number: twice a rise, or twice a fall and 1.
fn step_number(was: u64, value: u64) -> u128
    ensures { result ≡ step_number was value }
{
    if was <= value {
        u128::from(value - was) * 2
    } else {
        u128::from(was - value) * 2 + 1
    }
}
