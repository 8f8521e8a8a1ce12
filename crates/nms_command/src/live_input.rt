//! The input of a live run: the files that the arguments of `live` name.
ghost use Rattle.std.specs.Prelude.{◌≡◌, ◌≢◌, ◌<◌, ◌≤◌, ◌+◌, ℕ, All, Err, IfErr, IfOk, length};
ghost use Rattle.nms_fees.specs.Settings.{Settings};
ghost use Rattle.nms_command.specs.LiveFiles.{AreOrdersOfSome, IsNotGiven, most_feed_bytes};

use crate::command_fault::CommandFault;
use crate::files::open_file;
use nms_fees::Setup;
use nms_files::{read_orders, read_within};
use nms_quote::DeskOrder;
use nms_text::ScriptFault;
use std::io::Read;
use std::rt::Files;

/// The most bytes that the file of a feed may have. This product's own rule.
const MOST_FEED_BYTES: u64 = 1_000_000_000;

/// The input of a live run, read from its files.
#[derive(Drop)]
pub struct LiveInput {
    /// The bytes of each feed's file, in order of letter.
    pub feeds: Vec<Vec<u8>>,
    /// The orders, in the order in which their file has them.
    pub orders: Vec<DeskOrder>,
}

/// Reads the files of a live run: the file of orders, and one file for each feed of the setup. Any other number of files is
/// refused as `usage`.
///
/// All feeds are read before any line of an order is judged.
pub fn read_live_input<T: Files + AllocGlobal>(
    rt: &T,
    setup: &Setup,
    words: &[String],
) -> Result<LiveInput, CommandFault>
    ensures files { IfOk result (λ _. length words.now ≡ 1 + setup.now.feeds) }
    ensures counted { length words.now ≢ 1 + setup.now.feeds → result ≡ Err CommandFault.Usage }
    ensures feeds { IfOk result (λ input. length input.feeds.items ≡ setup.now.feeds) }
    ensures within { IfOk result (λ input. All (λ feed. length feed.items ≤ most_feed_bytes) input.feeds.items) }
    ensures orders { IfOk result (λ input. AreOrdersOfSome setup.now input.orders.items) }
    ensures desks { IfOk result (λ input. All (λ order. order.desk < setup.now.desks) input.orders.items) }
    ensures refused { IfErr result (IsNotGiven setup.now (length words.now)) }
{
    let Some((orders, feeds)) = words.split_first() else {
        return Err(CommandFault::Usage);
    };
    if feeds.len() != usize::from(setup.feeds()) {
        return Err(CommandFault::Usage);
    }
    let orders = match open_file(rt, orders.as_str()) {
        Ok(orders) => orders,
        Err(fault) => return Err(fault),
    };
    let feeds = match read_feeds(rt, feeds) {
        Ok(feeds) => feeds,
        Err(fault) => return Err(fault),
    };
    with_orders(rt, setup, feeds, orders)
}

/// The input of a live run, with feeds that were read already and the orders of a file.
fn with_orders<T: AllocGlobal, R: Read + Drop>(
    rt: &T,
    setup: &Setup,
    feeds: Vec<Vec<u8>>,
    orders: R,
) -> Result<LiveInput, CommandFault>
    ensures feeds { IfOk result (λ input. input.feeds ≡ feeds) }
    ensures orders { IfOk result (λ input. AreOrdersOfSome setup.now input.orders.items) }
    ensures desks { IfOk result (λ input. All (λ order. order.desk < setup.now.desks) input.orders.items) }
    ensures refused { (files : ℕ) → IfErr result (IsNotGiven setup.now files) }
{
    match read_orders(rt.alloc(), setup, orders) {
        Ok(orders) => Ok(LiveInput { feeds, orders }),
        Err(fault) => Err(CommandFault::Orders(fault)),
    }
}

/// The bytes of each feed's file.
fn read_feeds<T: Files + AllocGlobal>(
    rt: &T,
    paths: &[String],
) -> Result<Vec<Vec<u8>>, CommandFault>
    ensures feeds { IfOk result (λ feeds. length feeds.items ≡ length paths.now) }
    ensures within { IfOk result (λ feeds. All (λ feed. length feed.items ≤ most_feed_bytes) feeds.items) }
    ensures refused { (settings : Settings) (files : ℕ) → IfErr result (IsNotGiven settings files) }
{
    let mut feeds = Vec::new(rt.alloc());
    for path in paths {
        let bytes = match read_feed(rt, path.as_str()) {
            Ok(bytes) => bytes,
            Err(fault) => return Err(fault),
        };
        match feeds.push(bytes) {
            Ok(()) => {}
            Err(_) => return Err(CommandFault::Script(ScriptFault::NoMemory)),
        }
    }
    Ok(feeds)
}

/// The bytes of a feed's file. A file of more than 1,000,000,000 bytes is refused.
fn read_feed<T: Files + AllocGlobal>(rt: &T, path: &str) -> Result<Vec<u8>, CommandFault>
    ensures within { IfOk result (λ feed. length feed.items ≤ most_feed_bytes) }
    ensures refused { (settings : Settings) (files : ℕ) → IfErr result (IsNotGiven settings files) }
{
    let file = match open_file(rt, path) {
        Ok(file) => file,
        Err(fault) => return Err(fault),
    };
    match read_within(rt.alloc(), file, MOST_FEED_BYTES) {
        Ok(bytes) => Ok(bytes),
        Err(fault) => Err(CommandFault::Feed(fault)),
    }
}
