//! Fields of a record, each written after a comma (`later_fields` of `specs/Text`).
ghost use Rattle.std.specs.Prelude.{◌≡◌, ◌+◌, ◌<◌, ◌++◌, ◌∷◌, [], OnOk};
ghost use Rattle.std.specs.Fmt.{decimal};
ghost use Rattle.nms_units.specs.Money.{money_text};
ghost use Rattle.nms_units.specs.Price.{price_text};

use crate::field_before::{money_before, number_before, price_before};
use nms_units::{Money, Price};
use std::alloc::AllocError;

/// Appends a comma and a text.
pub fn push_text(out: &mut Vec<u8>, text: &str) -> Result<(), AllocError>
    ensures { OnOk result (out.new.items ≡ out.old.items ++ 44 ∷ text.now) }
{
    out.push(b',')?;
    out.extend_from_slice(text.as_bytes())?;
    Ok(())
}

/// Appends a comma and a number.
pub fn push_number(out: &mut Vec<u8>, number: u64) -> Result<(), AllocError>
    ensures { OnOk result (out.new.items ≡ out.old.items ++ 44 ∷ decimal number) }
{
    let mut field = [0; 24];
    let start = number_before(&mut field, 24, number);
    out.extend_from_slice(&field[start..])
}

/// Appends a comma and a price.
pub fn push_price(out: &mut Vec<u8>, price: Price) -> Result<(), AllocError>
    ensures { OnOk result (out.new.items ≡ out.old.items ++ 44 ∷ price_text price) }
{
    let mut field = [0; 32];
    let start = price_before(&mut field, 32, price);
    out.extend_from_slice(&field[start..])
}

/// Appends a comma and an amount of money.
pub fn push_money(out: &mut Vec<u8>, money: Money) -> Result<(), AllocError>
    ensures { OnOk result (out.new.items ≡ out.old.items ++ 44 ∷ money_text money) }
{
    let mut field = [0; 56];
    let start = money_before(&mut field, 56, money);
    out.extend_from_slice(&field[start..])
}

/// Ends a record with a line feed.
pub fn end_record(out: &mut Vec<u8>) -> Result<(), AllocError>
    ensures { OnOk result (out.new.items ≡ out.old.items ++ 10 ∷ []) }
{
    out.push(b'\n')?;
    Ok(())
}
