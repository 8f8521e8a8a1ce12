//! The content of a setup's document: `specs/Settings`.
ghost use Rattle.std.specs.Prelude.{◌≡◌, ◌<◌, ◌≤◌, length};
ghost use Rattle.std.specs.List.{AllByRecursion};
ghost use Rattle.nms_quote.specs.Merge.{place_of};
ghost use Rattle.nms_fee_book.specs.Fees.{AreCapped};

use crate::{LEAST_QUEUE, MOST_DESKS, MOST_QUEUE};
use nms_fee_book::{Caps, FeeBook};
use nms_quote::{MOST_CHANGES, MOST_FEEDS, Roster};
use std::marker::Model;

/// The content of a setup's document. It has the roster with its round lots, the access fees, and the bounds of the tape, the
/// queue, the desks and the feeds.
#[derive(Drop)]
pub struct Setup {
    pub(crate) roster: Roster,
    pub(crate) fees: FeeBook,
    pub(crate) tape_limit: u64,
    pub(crate) queue: usize,
    pub(crate) desks: u8,
    pub(crate) feeds: u8,
}

impl Model for Setup {
    ghost use Rattle.nms_fees.specs.Settings.{Settings, IsInRange};

    ghost Value = { Settings };

    ghost view = { λ s. record { roster = s.roster; fees = s.fees; tape_limit = s.tape_limit; queue = s.queue; desks = s.desks; feeds = s.feeds } };

    ghost invariant = { λ s. IsInRange (record { roster = s.roster; fees = s.fees; tape_limit = s.tape_limit; queue = s.queue; desks = s.desks; feeds = s.feeds }) };
}

impl Setup {
    /// The participants with their feeds, and the symbols with their first round lots.
    pub fn roster(&self) -> &Roster
        ensures { result.now ≡ self.now.roster }
    {
        &self.roster
    }

    /// The participants' access fees, none over its cap.
    pub fn fees(&self) -> &FeeBook
        ensures value { result.now ≡ self.now.fees }
        ensures of_each { length result.now.schedules ≡ length self.now.roster.parts }
        ensures capped { AreCapped result.now.caps result.now.schedules }
    {
        &self.fees
    }

    /// The caps that the fees keep (17 CFR 242.610(c)): those of 2005, if the document does not name others.
    pub fn caps(&self) -> Caps
        ensures { result ≡ self.now.fees.caps }
    {
        self.fees.caps()
    }

    /// The most changes that the tape may have, 1 to `MOST_CHANGES` (10,000,000).
    pub fn tape_limit(&self) -> u64
        ensures value { result ≡ self.now.tape_limit }
        ensures low { 1 ≤ result }
        ensures high { result ≤ MOST_CHANGES }
    {
        self.tape_limit
    }

    /// How many changes the queue holds, `LEAST_QUEUE` to `MOST_QUEUE` (2 to 1,024).
    pub fn queue(&self) -> usize
        ensures value { result ≡ self.now.queue }
        ensures low { LEAST_QUEUE ≤ result }
        ensures high { result ≤ MOST_QUEUE }
    {
        self.queue
    }

    /// How many desks there are, 1 to `MOST_DESKS` (16).
    pub fn desks(&self) -> u8
        ensures value { result ≡ self.now.desks }
        ensures low { 1 ≤ result }
        ensures high { result ≤ MOST_DESKS }
    {
        self.desks
    }

    /// How many feeds there are, 1 to `MOST_FEEDS` (8). They are the first feeds, and each participant sends on one of them.
    /// There are two if the document does not say.
    pub fn feeds(&self) -> u8
        ensures value { result ≡ self.now.feeds }
        ensures low { 1 ≤ result }
        ensures high { result ≤ MOST_FEEDS }
        ensures of_each { AllByRecursion (λ entry. place_of entry.1 < result) self.now.roster.parts }
    {
        self.feeds
    }
}
