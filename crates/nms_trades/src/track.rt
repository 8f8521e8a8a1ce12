//! The best protected prices of each version. They are kept as marks, one at each change: `specs/Track`.
ghost use Rattle.std.specs.Prelude.{◌≡◌, ◌≢◌, ◌+◌, ◌<◌, ◌≤◌, ℕ, true, IfOk, OnOk, length, slice_get};
ghost use Rattle.nms_trades.specs.Around.{any_version};
ghost use Rattle.nms_trades.specs.Track.{HasTrack, IsMarked, IsNoted, IsTrack, bid_above, holds_of, mark_at, nothing, offer_below};
ghost use Rattle.nms_trades.specs.Track.{passes_limits};

use crate::limits::whole_price;
use nms_quote::Side;
use std::alloc::{AllocError, Global};

/// Protected prices in 1/10,000 dollar.
#[derive(Clone, Copy)]
pub(crate) struct Limits {
    /// The highest protected bid, if there is one.
    pub(crate) bid: Option<u64>,
    /// The lowest protected offer, if there is one.
    pub(crate) offer: Option<u64>,
}

impl Limits {
    /// Whether two pairs of limits have the same bid and the same offer.
    fn is_same(self, other: Limits) -> bool
        ensures { result ≡ true → self ≡ other }
    {
        self.bid == other.bid && self.offer == other.offer
    }
}

/// The limits from a version on, until the next mark.
#[derive(Clone, Copy)]
pub(crate) struct Mark {
    pub(crate) version: u64,
    pub(crate) limits: Limits,
}

/// The limits of a symbol, or of a participant in it, in each version. They are kept as marks, and the first mark is of version 0.
#[derive(Drop)]
pub(crate) struct Track {
    pub(crate) marks: Vec<Mark>,
}

/// A test of limits, at a price in 1/1,000,000 dollar.
#[derive(Clone, Copy)]
pub(crate) enum Test {
    /// Whether the price trades through one of the limits.
    Through,
    /// Whether the price trades through no limit.
    Clean,
    /// Whether there is a limit on a side, and it is at the price or inferior to it.
    Inferior(Side),
}

impl Test {
    /// Whether the test holds for these limits, at a price in 1/1,000,000 dollar.
    pub(crate) fn holds_of(self, millionths: u64, limits: Limits) -> bool
        requires { millionths ≤ 9999999999999 }
        ensures { result ≡ holds_of self millionths limits }
    {
        match self {
            Test::Through => passes_limits(millionths, limits),
            Test::Clean => !passes_limits(millionths, limits),
            Test::Inferior(Side::Bid) => {
                limits.bid.is_some() && !bid_above(whole_price(Side::Bid, millionths), limits.bid)
            }
            Test::Inferior(Side::Offer) => {
                limits.offer.is_some()
                    && !offer_below(whole_price(Side::Offer, millionths), limits.offer)
            }
        }
    }
}

/// Whether a price in 1/1,000,000 dollar trades through a bid or an offer.
fn passes_limits(millionths: u64, limits: Limits) -> bool
    requires { millionths ≤ 9999999999999 }
    ensures { result ≡ passes_limits millionths limits }
{
    bid_above(whole_price(Side::Bid, millionths), limits.bid)
        || offer_below(whole_price(Side::Offer, millionths), limits.offer)
}

/// Whether a bid is above a price in 1/10,000 dollar.
fn bid_above(price: u64, bid: Option<u64>) -> bool
    ensures { result ≡ bid_above price bid }
{
    match bid {
        Some(bid) => bid > price,
        None => false,
    }
}

/// Whether an offer is below a price in 1/10,000 dollar.
fn offer_below(price: u64, offer: Option<u64>) -> bool
    ensures { result ≡ offer_below price offer }
{
    match offer {
        Some(offer) => offer < price,
        None => false,
    }
}

/// Adds the limits of one more version to the track at a place. A mark is added only if the limits differ from those before.
pub(crate) fn note_at(
    tracks: &mut Vec<Track>,
    place: usize,
    version: u64,
    limits: Limits,
) -> Result<(), AllocError>
    requires { place < length tracks.old.items }
    ensures count { length tracks.new.items ≡ length tracks.old.items }
    ensures own { OnOk result (IsNoted version limits (slice_get tracks.old.items place) (slice_get tracks.new.items place)) }
    ensures others { (other : ℕ) → other ≢ place → slice_get tracks.new.items other ≡ slice_get tracks.old.items other }
{
    note(&mut tracks[place].marks, version, limits)
}

/// Adds the limits of one more version. A mark is added only if the limits differ from those before.
fn note(marks: &mut Vec<Mark>, version: u64, limits: Limits) -> Result<(), AllocError>
    ensures { OnOk result (IsMarked version limits marks.old.items marks.new.items) }
{
    let count = marks.len();
    if count > 0 && marks[count - 1].limits.is_same(limits) {
        return Ok(());
    }
    marks.push(Mark { version, limits })?;
    Ok(())
}

/// Whether a test holds for the limits of any version, from a first to a last one.
pub(crate) fn any_version(
    marks: &[Mark],
    test: Test,
    millionths: u64,
    first: u64,
    last: u64,
) -> bool
    requires { millionths ≤ 9999999999999 }
    ensures { (all : ℕ → Limits) (upto : ℕ) → IsTrack all upto marks.now → last ≤ upto
        → result ≡ any_version (λ n. holds_of test millionths (all n)) first last }
{
    if first > last || marks.is_empty() {
        return false;
    }
    for place in mark_of(marks, first)..marks.len() {
        if marks[place].version > last {
            return false;
        }
        if test.holds_of(millionths, marks[place].limits) {
            return true;
        }
    }
    false
}

/// The place of the mark that has the limits of a version, found by halving.
fn mark_of(marks: &[Mark], version: u64) -> usize
    requires { 0 < length marks.now }
    ensures within { result < length marks.now }
    ensures at { (mark_at marks.now 0).version ≤ version → (mark_at marks.now result).version ≤ version }
    ensures next { result + 1 < length marks.now → version < (mark_at marks.now (result + 1)).version }
{
    let mut low = 0;
    let mut high = marks.len();
    while high - low > 1 {
        let middle = low + (high - low) / 2;
        if marks[middle].version <= version {
            low = middle;
        } else {
            high = middle;
        }
    }
    low
}

/// A number of tracks without prices at version 0.
pub(crate) fn no_tracks(alloc: Global, count: usize) -> Result<Vec<Track>, AllocError>
    ensures count { IfOk result (λ tracks. length tracks.items ≡ count) }
    ensures nothing { IfOk result (λ tracks. (place : ℕ) → place < count → HasTrack (λ n. nothing) 0 (slice_get tracks.items place)) }
{
    let mut tracks = Vec::with_capacity(alloc, count)?;
    for _ in 0..count {
        tracks.push(no_track(alloc)?)?;
    }
    Ok(tracks)
}

/// A track without prices at version 0.
fn no_track(alloc: Global) -> Result<Track, AllocError>
    ensures { IfOk result (λ track. IsTrack (λ n. nothing) 0 track.marks.items) }
{
    let mut marks = Vec::new(alloc);
    marks.push(Mark {
        version: 0,
        limits: Limits {
            bid: None,
            offer: None,
        },
    })?;
    Ok(Track { marks })
}
