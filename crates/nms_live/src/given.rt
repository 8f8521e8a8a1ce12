//! What a live run is given, and its means: two values that its threads share.
ghost use Rattle.std.specs.Prelude.{◌≡◌, length, map};
ghost use Rattle.nms_live.specs.Answering.{AreOwn};
ghost use Rattle.nms_live.specs.Reading.{text_of};

use crate::ended::Ended;
use crate::own_orders::OwnOrders;
use nms_fees::Setup;
use nms_quote::{DeskOrder, Feed};
use std::alloc::Global;

/// What a live run is given: the setup, the texts of its feeds, and the orders of its desks.
#[derive(Drop)]
pub struct Given<'g> {
    pub(crate) setup: &'g Setup,
    /// The text of each feed, in order of place.
    pub(crate) feeds: Vec<Vec<u8>>,
    /// Which feeds' workers have ended.
    pub(crate) ended: Ended,
    pub(crate) orders: Vec<DeskOrder>,
    /// The orders of each desk, in order of number.
    pub(crate) by_desk: Vec<OwnOrders>,
    ghost all_parted: { length by_desk.items ≡ setup.now.desks },
    ghost parted: { AreOwn orders.items by_desk.items },
}

/// The means of a live run: its threads, its memory, and its gate.
#[derive(Drop)]
pub struct Means<'m, R, G> {
    pub(crate) rt: &'m R,
    pub(crate) alloc: Global,
    pub(crate) gate: &'m G,
}

impl<'g> Given<'g> {
    ghost use Rattle.std.specs.Prelude.{◌≡◌};

    /// The most changes that the tape can have, if each record of the feeds ends with a line feed.
    pub(crate) fn most_changes(&self) -> usize {
        let most = self.setup.tape_limit() as usize;
        let mut records = most.min(self.feeds.len());
        for text in &self.feeds {
            records += line_feeds(text).min(most - records);
        }
        records
    }

    /// Returns the orders of the run. The texts of the feeds and everything else are freed.
    pub(crate) fn into_orders(self) -> Vec<DeskOrder>
        ensures { result ≡ self.entry.orders }
    {
        let Given {
            setup: _,
            feeds: _,
            ended: _,
            orders,
            by_desk: _,
        } = self;
        orders
    }

    /// Whether the workers of all feeds have ended.
    pub(crate) fn feeds_have_ended(&self) -> bool {
        self.ended.have_first(self.feeds.len())
    }
}

/// How many line feeds a text has.
fn line_feeds(text: &[u8]) -> usize {
    let mut found = 0;
    for byte in text {
        if *byte == b'\n' {
            found += 1;
        }
    }
    found
}

/// The text of a feed, from texts in order of place. A feed beyond them has an empty text.
pub(crate) fn text_of(feeds: &[Vec<u8>], feed: Feed) -> &[u8]
    ensures { result.now ≡ text_of feed (map (λ text. text.items) feeds.now) }
{
    match feeds.get(usize::from(feed.place())) {
        Some(text) => text.as_slice(),
        None => &[],
    }
}
