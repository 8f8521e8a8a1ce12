//! The letters of a condition, and what they claim: `specs/TradeRow` and `specs/Executions`.
ghost use Rattle.std.specs.Prelude.{◌≡◌, ◌++◌, ◌&&◌, OnOk, drop};
ghost use Rattle.std.specs.List.{list_all, list_any};
ghost use Rattle.nms_import_trades.specs.Executions.{flags_text, plus_flags};
ghost use Rattle.nms_import_trades.specs.TradeRow.{claims_it, has_letter, is_claim, is_claimed, is_known, is_no_trade, is_reason, lacks_reason};

use crate::claim::Claim;
use crate::trade_meanings::TradeMeanings;
use std::alloc::AllocError;

/// Whether the mapping lists each letter of a condition.
pub(crate) fn are_known(meanings: &TradeMeanings, condition: &[u8]) -> bool
    ensures { result ≡ list_all (is_known meanings.now) condition.now }
{
    condition.iter().all(|c| is_known(meanings, *c))
}

fn is_known(meanings: &TradeMeanings, c: u8) -> bool
    ensures { result ≡ is_known meanings.now c }
{
    has_letter(&meanings.nothing, c) || is_claim(&meanings.claims, c)
}

/// Whether a letter of a condition says that its row is no trade.
pub(crate) fn is_no_trade(meanings: &TradeMeanings, condition: &[u8]) -> bool
    ensures { result ≡ is_no_trade meanings.now condition.now }
{
    any_stands(&meanings.no_trade, condition)
}

/// Whether two lists of letters have a letter in common.
fn any_stands(those: &[u8], these: &[u8]) -> bool
    ensures { result ≡ list_any (has_letter those.now) these.now }
{
    these.iter().any(|c| has_letter(those, *c))
}

/// Whether a letter claims any flag.
pub(crate) fn is_claim(claims: &[Claim], c: u8) -> bool
    ensures { result ≡ is_claim claims.now c }
{
    claims.iter().any(|it| is_letter_of(it, c))
}

fn is_letter_of(it: &Claim, c: u8) -> bool
    ensures { result ≡ has_letter it.now.letters.items c }
{
    has_letter(&it.letters, c)
}

/// Whether a byte is one of the letters.
pub(crate) fn has_letter(letters: &[u8], c: u8) -> bool
    ensures { result ≡ has_letter letters.now c }
{
    letters.iter().any(|letter| *letter == c)
}

/// Whether a letter of a condition claims a flag.
fn claims_it(condition: &[u8], it: &Claim) -> bool
    ensures { result ≡ claims_it condition.now it.now }
{
    condition.iter().any(|c| has_letter(&it.letters, *c))
}

/// Whether a trade is marked exempt, and no letter gives the reason.
fn lacks_reason(claims: &[Claim], condition: &[u8], marked: bool) -> bool
    ensures { result ≡ lacks_reason claims.now condition.now marked }
{
    marked && !has_reason(claims, condition)
}

fn has_reason(claims: &[Claim], condition: &[u8]) -> bool
    ensures { result ≡ list_any (λ it. is_reason it.flag && claims_it condition.now it) claims.now }
{
    claims.iter().any(|it| gives_reason(condition, it))
}

fn gives_reason(condition: &[u8], it: &Claim) -> bool
    ensures { result ≡ is_reason it.now.flag && claims_it condition.now it.now }
{
    it.flag.is_reason() && claims_it(condition, it)
}

/// Whether a flag is written for an execution. A letter of the condition claims it, or it marks an exemption without a reason.
fn is_claimed(condition: &[u8], unexplained: bool, it: &Claim) -> bool
    ensures { result ≡ is_claimed condition.now unexplained it.now }
{
    claims_it(condition, it) || it.flag.is_exempt() && unexplained
}

/// Appends the letters of the flags that are written, joined by pluses. `flags` is room that a caller keeps from row to row.
pub(crate) fn append_flags(
    out: &mut Vec<u8>,
    claims: &[Claim],
    condition: &[u8],
    marked: bool,
    flags: &mut Vec<u8>,
) -> Result<(), AllocError>
    ensures { OnOk result (out.new.items ≡ out.old.items ++ flags_text claims.now condition.now marked) }
{
    let unexplained = lacks_reason(claims, condition, marked);
    plus_flags(claims, condition, unexplained, flags)?;
    out.extend_from_slice(without_first(flags))
}

/// Writes the letters of the flags, each after a plus.
fn plus_flags(
    claims: &[Claim],
    condition: &[u8],
    unexplained: bool,
    out: &mut Vec<u8>,
) -> Result<(), AllocError>
    ensures { OnOk result (out.new.items ≡ plus_flags claims.now condition.now unexplained) }
{
    out.clear();
    for it in claims {
        if is_claimed(condition, unexplained, it) {
            out.extend_from_slice(&[b'+', it.flag.letter()])?;
        }
    }
    Ok(())
}

/// A text without its first byte.
fn without_first(text: &[u8]) -> &[u8]
    ensures { result.now ≡ drop 1 text.now }
{
    if text.is_empty() { text } else { &text[1..] }
}
