//! The feeds: `specs/Merge`.
ghost use Rattle.std.specs.Prelude.{◌≡◌, ◌<◌, slice_get};
ghost use Rattle.nms_quote.specs.Merge.{feeds, place_of};

use crate::MOST_FEEDS;

/// The feed on which a participant sends its changes. A setup says how many there are, in order of letter (this product's own
/// rule).
#[derive(Clone, Copy, Debug, PartialEq, Eq)]
pub enum Feed {
    /// The first feed. The new round lots of all symbols come on it.
    A,
    /// The second feed.
    B,
    /// The third feed.
    C,
    /// The fourth feed.
    D,
    /// The fifth feed.
    E,
    /// The sixth feed.
    F,
    /// The seventh feed.
    G,
    /// The eighth feed, and the last.
    H,
}

impl Feed {
    /// The feed at a place; `None` from `MOST_FEEDS` on.
    pub fn at(place: u8) -> Option<Self>
        ensures { result ≡ slice_get feeds place }
    {
        const FEEDS: [Feed; MOST_FEEDS as usize] = [
            Feed::A,
            Feed::B,
            Feed::C,
            Feed::D,
            Feed::E,
            Feed::F,
            Feed::G,
            Feed::H,
        ];
        FEEDS.get(usize::from(place)).copied()
    }

    /// The feed's place among the feeds, 0 to 7.
    pub fn place(self) -> u8
        ensures place { result ≡ place_of self }
        ensures below { result < MOST_FEEDS }
    {
        match self {
            Feed::A => 0,
            Feed::B => 1,
            Feed::C => 2,
            Feed::D => 3,
            Feed::E => 4,
            Feed::F => 5,
            Feed::G => 6,
            Feed::H => 7,
        }
    }
}
