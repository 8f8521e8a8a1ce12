//! The parts of a line.
ghost use Rattle.std.specs.Prelude.{◌≡◌};
ghost use Rattle.nms_show.specs.Safe.{IsPrintable, own_text};
ghost use Rattle.nms_show.specs.Written.{Writes};
ghost use Rattle.nms_show.specs.declared.item.Item.TheVariants as item;

use crate::show_fault::ShowFault;
use crate::shown::write_shown;
use crate::written::{write_number, write_printable};
use nms_lines::write_text;
use nms_units::{Money, Price};
use std::io::Write;

/// One thing in a line, or the value of a JSON object's key.
#[derive(Clone, Copy)]
pub enum Item<'a> {
    /// A text of the program, as it is.
    Text(&'a str),
    /// A text of the program, as it is. It is bold if there are colours.
    Strong(&'a str),
    /// A text of the program, as it is. It is red if there are colours.
    Alarm(&'a str),
    /// Bytes of a file, or an argument of the call. Escapes replace what can't be shown.
    Bytes(&'a [u8]),
    /// A number, as of shares, of a version, or of a line.
    Number(u64),
    /// A price in 1/10,000 dollar, with four decimals; in JSON it is a text. `of_price` makes it.
    Price(u64),
    /// An amount in nanodollars, with nine decimals; in JSON it is a text. `of_money` makes it.
    Money(i128),
    /// `yes` or `no`; in JSON `true` or `false`.
    Flag(bool),
    /// An absent value; in JSON `null`.
    Absent,
}

/// One column of a table's row.
#[derive(Clone, Copy)]
pub struct Column<'a> {
    /// The item that the column shows.
    pub item: Item<'a>,
    /// The least number of characters that the column takes.
    pub width: usize,
    /// Whether the item is at the right end of the column.
    pub right: bool,
}

impl Item<'_> {
    /// Makes an item of a price. The item keeps the price as a number, so that it can be copied.
    pub fn of_price(price: Price) -> Self
        ensures { result ≡ item.Price price }
    {
        Item::Price(price.get())
    }

    /// Makes an item of an amount of money. The item keeps the amount as a number, so that it can be copied.
    pub fn of_money(money: Money) -> Self
        ensures { result ≡ item.Money money }
    {
        Item::Money(money.get())
    }
}

/// Writes an item without a colour.
pub(crate) fn write_plain<W: Write>(answers: &mut W, item: &Item<'_>) -> Result<(), ShowFault>
    ensures { IsPrintable (own_text item.now) → Writes IsPrintable (W.contents answers.old) (W.contents answers.new) result }
{
    match *item {
        Item::Text(text) | Item::Strong(text) | Item::Alarm(text) => write_own(answers, text),
        Item::Bytes(bytes) => write_shown(answers, bytes),
        Item::Number(number) => write_number(answers, number),
        Item::Price(number) => write_price(answers, number),
        Item::Money(nanodollars) => write_number(answers, Money::new(nanodollars)),
        Item::Flag(true) => write_printable(answers, b"yes"),
        Item::Flag(false) => write_printable(answers, b"no"),
        Item::Absent => Ok(()),
    }
}

/// Writes a text of the program, as it is.
pub(crate) fn write_own<W: Write>(answers: &mut W, text: &str) -> Result<(), ShowFault>
    ensures { IsPrintable text.now → Writes IsPrintable (W.contents answers.old) (W.contents answers.new) result }
{
    match write_text(answers, text.as_bytes()) {
        Ok(()) => Ok(()),
        Err(_) => Err(ShowFault::WriteFault),
    }
}

/// Writes a price in 1/10,000 dollar. It writes nothing if the number is not a price.
fn write_price<W: Write>(answers: &mut W, number: u64) -> Result<(), ShowFault>
    ensures { Writes IsPrintable (W.contents answers.old) (W.contents answers.new) result }
{
    match Price::new(number) {
        Some(price) => write_number(answers, price),
        None => Ok(()),
    }
}
