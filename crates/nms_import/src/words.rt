//! Words that a mapping lists: `specs/Mapping`.
ghost use Rattle.std.specs.Prelude.{◌≡◌, position, option_map};
ghost use Rattle.std.specs.Str.{bytes_eq};
ghost use Rattle.nms_import.specs.Mapping.{is_joined, is_listed, lacks_side, name_of, side_in, side_named};

use crate::meanings::{Meanings, Renamed, Said, SideWords, Word};
use nms_quote::Side;

/// Whether a text is one of the words.
pub fn is_listed(words: &[Word], text: &[u8]) -> bool
    ensures { result ≡ is_listed words.now text.now }
{
    words.iter().any(|word| is_word(word, text))
}

fn is_word(word: &Word, text: &[u8]) -> bool
    ensures { result ≡ bytes_eq word.now.text.items text.now }
{
    word.text.as_slice() == text
}

/// The side that a word names, by the words for each side.
pub fn side_named(bids: &[Word], offers: &[Word], text: &[u8]) -> Option<Side>
    ensures { result ≡ side_named bids.now offers.now text.now }
{
    if is_listed(bids, text) {
        Some(Side::Bid)
    } else if is_listed(offers, text) {
        Some(Side::Offer)
    } else {
        None
    }
}

/// The side that a row names by a text, if each row has one side.
pub fn side_in(sides: &Option<SideWords>, text: &[u8]) -> Option<Side>
    ensures { result ≡ side_in sides.now text.now }
{
    match sides {
        Some(words) => side_named(&words.bids, &words.offers, text),
        None => None,
    }
}

/// Whether a row lacks its side: each row should have one side, and the row's text for it names none.
pub(crate) fn lacks_side(sides: &Option<SideWords>, text: &[u8]) -> bool
    ensures { result ≡ lacks_side sides.now text.now }
{
    match sides {
        Some(words) => side_named(&words.bids, &words.offers, text).is_none(),
        None => false,
    }
}

/// The name that a participant has on the roster, for the word that the file has for it.
pub fn name_of<'a>(meanings: &'a Meanings, word: &'a [u8]) -> Option<&'a [u8]>
    ensures { option_map (λ name. name.now) result ≡ name_of meanings.now word.now }
{
    match place_of(&meanings.names, word) {
        Some(place) => Some(meanings.names[place].name.as_slice()),
        None if meanings.same => Some(word),
        None => None,
    }
}

/// The place of a word in the list of participants that have another name on the roster.
fn place_of(names: &[Renamed], word: &[u8]) -> Option<usize>
    ensures { result ≡ position (λ it. bytes_eq it.word.items word.now) names.now }
{
    names.iter().position(|it| is_renamed(it, word))
}

fn is_renamed(it: &Renamed, word: &[u8]) -> bool
    ensures { result ≡ bytes_eq it.now.word.items word.now }
{
    it.word.as_slice() == word
}

/// The place, in the mapping's list of conditions, of the condition that two texts make together.
pub(crate) fn place_said(said: &[Said], first: &[u8], second: &[u8]) -> Option<usize>
    ensures { result ≡ position (λ it. is_joined first.now second.now it.word.items) said.now }
{
    said.iter()
        .position(|it| is_joined(first, second, &it.word))
}

/// Whether a word is one text and then the other.
fn is_joined(first: &[u8], second: &[u8], word: &[u8]) -> bool
    ensures { result ≡ is_joined first.now second.now word.now }
{
    first.len() <= word.len() && &word[..first.len()] == first && &word[first.len()..] == second
}
