//! Fields of a record, written from the last to the first, each before the bytes that are already in a buffer (`later_fields`
//! of `specs/Text`). A number gives its last digit first. Then all of the record is appended at once.
ghost use Rattle.std.specs.Prelude.{◌≡◌, ◌+◌, ◌<◌, ◌≤◌, ◌/◌, ◌++◌, ◌∷◌, drop, length};
ghost use Rattle.std.specs.Fmt.{decimal};
ghost use Rattle.nms_units.specs.Money.{amount_text, money_text, three_digits};
ghost use Rattle.nms_units.specs.Price.{digit_at, price_text};

use itoa::{Buffer, write_digits};
use nms_units::{Money, Price};

/// Writes a text so that it ends at a place. Returns the place at which it starts.
pub fn word_before(buf: &mut [u8], end: usize, word: &str) -> usize
    requires room { length word.now ≤ end }
    requires within { end ≤ length buf.old }
    ensures start { result + length word.now ≡ end }
    ensures written { drop result buf.new ≡ word.now ++ drop end buf.old }
{
    let start = end - word.len();
    buf[start..end].copy_from_slice(word.as_bytes());
    start
}

/// Writes a comma and a text so that they end at a place. Returns the place at which they start.
pub fn text_before(buf: &mut [u8], end: usize, text: &str) -> usize
    requires room { length text.now < end }
    requires within { end ≤ length buf.old }
    ensures start { result + 1 + length text.now ≡ end }
    ensures written { drop result buf.new ≡ 44 ∷ text.now ++ drop end buf.old }
{
    let start = word_before(buf, end, text);
    byte_before(buf, start, b',')
}

/// Writes a comma and a number, which take 2 to 21 bytes, so that they end at a place. Returns the place at which they start.
#[inline(always)]
pub fn number_before(buf: &mut [u8], end: usize, number: u64) -> usize
    requires room { 21 ≤ end }
    requires within { end ≤ length buf.old }
    ensures start { end ≤ result + 21 }
    ensures before { result < end }
    ensures written { drop result buf.new ≡ 44 ∷ decimal number ++ drop end buf.old }
{
    let start = digits_before(buf, end, number);
    byte_before(buf, start, b',')
}

/// Writes a number's 1 to 20 digits so that they end at a place. Returns the place at which they start.
#[inline(always)]
fn digits_before(buf: &mut [u8], end: usize, number: u64) -> usize
    requires room { 20 ≤ end }
    requires within { end ≤ length buf.old }
    ensures start { end ≤ result + 20 }
    ensures before { result ≤ end }
    ensures written { drop result buf.new ≡ decimal number ++ drop end buf.old }
{
    write_digits(number, buf, end)
}

/// Writes a comma and a price, which take 7 to 13 bytes, so that they end at a place. Returns the place at which they start.
#[inline(always)]
pub fn price_before(buf: &mut [u8], end: usize, price: Price) -> usize
    requires room { 26 ≤ end }
    requires within { end ≤ length buf.old }
    ensures start { end ≤ result + 26 }
    ensures before { result < end }
    ensures written { drop result buf.new ≡ 44 ∷ price_text price ++ drop end buf.old }
{
    let number = price.get();
    let point = decimals_before(buf, end, number);
    number_before(buf, point, number / 10_000)
}

/// Writes a point and a number's last four digits so that they end at a place. Returns the place at which they start.
fn decimals_before(buf: &mut [u8], end: usize, number: u64) -> usize
    requires room { 5 ≤ end }
    requires within { end ≤ length buf.old }
    ensures start { result + 5 ≡ end }
    ensures written { drop result buf.new ≡ 46 ∷ digit_at 1000 number ∷ digit_at 100 number ∷ digit_at 10 number ∷ digit_at 1 number ∷ drop end buf.old }
{
    let start = three_before(buf, end, number);
    let start = byte_before(buf, start, digit((number / 1000 % 10) as u32));
    byte_before(buf, start, b'.')
}

/// Writes a comma and an amount of money, which take 12 to 42 bytes, so that they end at a place. Returns the place at which
/// they start.
pub fn money_before(buf: &mut [u8], end: usize, money: Money) -> usize
    requires room { 52 ≤ end }
    requires within { end ≤ length buf.old }
    ensures start { end ≤ result + 52 }
    ensures before { result < end }
    ensures written { drop result buf.new ≡ 44 ∷ money_text money ++ drop end buf.old }
{
    let number = money.get();
    let start = amount_before(buf, end, number.unsigned_abs());
    if number < 0 {
        let start = byte_before(buf, start, b'-');
        byte_before(buf, start, b',')
    } else {
        byte_before(buf, start, b',')
    }
}

/// Writes nanodollars as dollars with nine decimals so that they end at a place. Returns the place at which they start. Amounts
/// of up to 18 billion dollars, which 64 bits hold, are written without 128 bits.
fn amount_before(buf: &mut [u8], end: usize, amount: u128) -> usize
    requires room { 50 ≤ end }
    requires within { end ≤ length buf.old }
    ensures start { end ≤ result + 50 }
    ensures before { result < end }
    ensures written { drop result buf.new ≡ amount_text amount ++ drop end buf.old }
{
    match u64::try_from(amount) {
        Ok(amount) => {
            let start = nine_before(buf, end, amount);
            digits_before(buf, start, amount / 1_000_000_000)
        }
        Err(_) => wide_before(buf, end, amount),
    }
}

/// Writes any number of nanodollars as dollars with nine decimals so that they end at a place. Returns the place at which they
/// start.
#[cold]
#[inline(never)]
fn wide_before(buf: &mut [u8], end: usize, amount: u128) -> usize
    requires room { 50 ≤ end }
    requires within { end ≤ length buf.old }
    ensures start { end ≤ result + 50 }
    ensures before { result < end }
    ensures written { drop result buf.new ≡ amount_text amount ++ drop end buf.old }
{
    let start = nine_before(buf, end, (amount % 1_000_000_000) as u64);
    let mut dollars = Buffer::new();
    word_before(buf, start, dollars.format(amount / 1_000_000_000))
}

/// Writes a point and a number's last nine digits so that they end at a place. Returns the place at which they start.
fn nine_before(buf: &mut [u8], end: usize, number: u64) -> usize
    requires room { 10 ≤ end }
    requires within { end ≤ length buf.old }
    ensures start { result + 10 ≡ end }
    ensures written { drop result buf.new ≡ 46 ∷ three_digits (number / 1000000) ++ three_digits (number / 1000) ++ three_digits number
        ++ drop end buf.old }
{
    let start = three_before(buf, end, number);
    let start = three_before(buf, start, number / 1000);
    let start = three_before(buf, start, number / 1_000_000);
    byte_before(buf, start, b'.')
}

/// Writes a number's last three digits so that they end at a place. Returns the place at which they start.
fn three_before(buf: &mut [u8], end: usize, number: u64) -> usize
    requires room { 3 ≤ end }
    requires within { end ≤ length buf.old }
    ensures start { result + 3 ≡ end }
    ensures written { drop result buf.new ≡ three_digits number ++ drop end buf.old }
{
    let decimals = (number % 1000) as u32;
    buf[end - 1] = digit(decimals % 10);
    buf[end - 2] = digit(decimals / 10 % 10);
    buf[end - 3] = digit(decimals / 100);
    end - 3
}

/// Writes a byte before a place. Returns its place.
fn byte_before(buf: &mut [u8], end: usize, byte: u8) -> usize
    requires room { 1 ≤ end }
    requires within { end ≤ length buf.old }
    ensures start { result + 1 ≡ end }
    ensures written { drop result buf.new ≡ byte ∷ drop end buf.old }
{
    buf[end - 1] = byte;
    end - 1
}

/// The digit of a number below ten.
pub(crate) fn digit(number: u32) -> u8
    requires { number < 10 }
    ensures { result ≡ 48 + number }
{
    b'0' + number as u8
}
