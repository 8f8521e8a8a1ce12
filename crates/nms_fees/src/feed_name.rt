//! The names of feeds in a setup: `specs/Places`.
ghost use Rattle.std.specs.Prelude.{◌≡◌};
ghost use Rattle.toml.specs.View.{view};
ghost use Rattle.nms_fees.specs.Places.{feed_fault, feed_named, is_feed};

use crate::setup_fault::SetupFault;
use nms_quote::Feed;
use toml::Value;

/// The feed that a text names, `A` to `H`.
pub fn feed_named(text: &str) -> Option<Feed>
    ensures { result ≡ feed_named text.now }
{
    match text {
        "A" => Some(Feed::A),
        "B" => Some(Feed::B),
        "C" => Some(Feed::C),
        "D" => Some(Feed::D),
        "E" => Some(Feed::E),
        "F" => Some(Feed::F),
        "G" => Some(Feed::G),
        "H" => Some(Feed::H),
        _ => None,
    }
}

/// The fault of a text that must be the letter of one of the first `count` feeds.
pub fn feed_fault(value: &Value, count: u8) -> Option<SetupFault>
    ensures { result ≡ feed_fault count (view value.now) }
{
    let Some(text) = value.as_str() else {
        return Some(SetupFault::WrongType);
    };
    if is_feed(count, text) {
        None
    } else {
        Some(SetupFault::OutOfRange)
    }
}

/// Whether a text is the letter of one of the first `count` feeds.
fn is_feed(count: u8, text: &str) -> bool
    ensures { result ≡ is_feed count text.now }
{
    match feed_named(text) {
        Some(feed) => feed.place() < count,
        None => false,
    }
}
