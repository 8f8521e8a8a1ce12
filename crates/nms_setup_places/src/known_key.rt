//! The keys of a setup: `specs/Tables`.
ghost use Rattle.std.specs.Prelude.{◌≡◌};
ghost use Rattle.nms_setup_places.specs.Tables.{is_optional, text_of};

/// A key that is allowed in a table of a setup.
#[derive(Clone, Copy, PartialEq, Eq)]
pub enum KnownKey {
    /// The most changes that the tape takes.
    TapeLimit,
    /// The most changes that may wait in the queue.
    Queue,
    /// How many desks there are.
    Desks,
    /// The year of the caps; it may be absent.
    Caps,
    /// How many feeds there are; it may be absent.
    Feeds,
    /// The array of the participants.
    Participant,
    /// The array of the symbols.
    Symbol,
    /// The name of a participant or a symbol.
    Name,
    /// A participant's feed.
    Feed,
    /// A participant's fee at prices of a dollar or more.
    Fee,
    /// A participant's fee at prices below a dollar.
    Rate,
    /// A symbol's round lot.
    Lot,
}

impl KnownKey {
    /// The key as it is written.
    pub fn text(self) -> &'static str
        ensures { result.now ≡ text_of self }
    {
        match self {
            KnownKey::TapeLimit => "tape_limit",
            KnownKey::Queue => "queue",
            KnownKey::Desks => "desks",
            KnownKey::Caps => "caps",
            KnownKey::Feeds => "feeds",
            KnownKey::Participant => "participant",
            KnownKey::Symbol => "symbol",
            KnownKey::Name => "name",
            KnownKey::Feed => "feed",
            KnownKey::Fee => "fee",
            KnownKey::Rate => "rate",
            KnownKey::Lot => "lot",
        }
    }

    /// Whether the key may be absent.
    pub fn is_optional(self) -> bool
        ensures { result ≡ is_optional self }
    {
        matches!(self, KnownKey::Caps | KnownKey::Feeds)
    }
}
