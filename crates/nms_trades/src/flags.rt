//! The flags of an execution.

use crate::claims::Claims;
use nms_quote::{PartSet, Roster};

/// The exceptions that a text claims: flags joined by `+`, none in an empty text. A repeated flag counts once.
///
/// After self-help no flag may be a participant's name too. Orders join names by `+`, so `H=Z+P` could mean self-help against both.
pub(crate) fn claims_in(text: &[u8], roster: &Roster) -> Option<Claims> {
    let mut claims = Claims::none();
    if text.is_empty() {
        return Some(claims);
    }
    let mut has_names = false;
    for flag in text.split(|byte| *byte == b'+') {
        if has_names && roster.find_part(flag).is_some() {
            return None;
        }
        claims = with_flag(claims, flag, roster)?;
        has_names = has_names || flag.starts_with(b"H=");
    }
    Some(claims)
}

/// The claims with the claim of one more flag.
fn with_flag(claims: Claims, flag: &[u8], roster: &Roster) -> Option<Claims> {
    let mut claims = claims;
    match flag {
        b"C" => claims.not_regular = true,
        b"O" => claims.single_priced = true,
        b"I" => claims.sweep = true,
        b"J" => claims.swept = true,
        b"K" => claims.benchmark = true,
        b"P" => claims.stopped = true,
        b"Q" => claims.contingent = true,
        b"E" => claims.exempt = true,
        b"T" => claims.outside_hours = true,
        b"Z" => claims.out_of_sequence = true,
        [b'H', b'=', names @ ..] => {
            claims.self_help = named_in(names, claims.self_help, roster)?;
        }
        _ => return None,
    }
    Some(claims)
}

/// A set together with the participants of these names, which are joined by `/`.
fn named_in(names: &[u8], set: PartSet, roster: &Roster) -> Option<PartSet> {
    let mut set = set;
    for name in names.split(|byte| *byte == b'/') {
        let part = roster.find_part(name)?;
        set = set.with(part);
    }
    Some(set)
}
