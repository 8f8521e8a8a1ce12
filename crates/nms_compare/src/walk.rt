//! A board that moves along a tape, as far as the rows of a vendor's file have come: `specs/Standing`.
ghost use Rattle.std.specs.Prelude.{◌≡◌, ◌<◌, ◌≤◌, IfOk, IfSome, length, nat_lt, position};
ghost use Rattle.nms_quote.specs.Tape.{version};
ghost use Rattle.nms_stream.specs.Quoted.{quoted_at};
ghost use Rattle.nms_stream.specs.Tapes.{sizes_in};
ghost use Rattle.nms_compare.specs.Finding.{finding_of};
ghost use Rattle.nms_compare.specs.Standing.{version_by};

use crate::finding::{Finding, find_between};
use crate::keys::Keyed;
use crate::national::National;
use nms_board::BoardFault;
use nms_stream::{Replay, quoted_on};
use std::alloc::Global;

/// A board, the places of the changes in the order of a file, and the place up to which the board has moved.
#[derive(Drop)]
pub(crate) struct Walk<'a> {
    pub(crate) replay: Replay<'a>,
    pub(crate) keys: &'a [u64],
    pub(crate) key: u64,
    ghost each: { length keys.now ≡ length replay.tape.now.changes.items },
    ghost at: { replay.board.applied ≡ version_by keys.now key },
}

/// A board that has moved over the changes whose key is 0, before any row is read.
pub(crate) fn open_walk<'a>(alloc: Global, keyed: &'a Keyed<'a>) -> Result<Walk<'a>, BoardFault>
    ensures tape { IfOk result (λ walk. walk.replay.tape.now ≡ keyed.now.tape.now) }
    ensures keys { IfOk result (λ walk. walk.keys.now ≡ keyed.now.keys.items) }
{
    let mut replay = Replay::open(alloc, keyed.tape)?;
    replay.move_to(count_not_later(&keyed.keys, 0) as u64);
    Ok(Walk {
        replay,
        keys: &keyed.keys,
        key: 0,
    })
}

/// Moves the board on, over all changes whose keys are no later than the given key.
pub(crate) fn walk_to(walk: &mut Walk<'_>, key: u64)
    requires { walk.old.key ≤ key }
    ensures tape { walk.new.replay.tape ≡ walk.old.replay.tape }
    ensures keys { walk.new.keys ≡ walk.old.keys }
    ensures key { walk.new.key ≡ key }
{
    let at = walk.replay.board.applied() as usize;
    let (_, left) = walk.keys.split_at(at);
    walk.replay
        .move_to((at + count_not_later(left, key)) as u64);
    walk.key = key;
}

/// The number of keys at the beginning of a list that are no later than the given key.
fn count_not_later(keys: &[u64], key: u64) -> usize
    ensures count { result ≡ version_by keys.now key }
    ensures within { result ≤ length keys.now }
{
    match first_later(keys, key) {
        Some(place) => place,
        None => keys.len(),
    }
}

/// The place of the first key in a list that is later than the given key.
fn first_later(keys: &[u64], key: u64) -> Option<usize>
    ensures place { result ≡ position (λ k. nat_lt key k) keys.now }
    ensures within { IfSome result (λ place. place < length keys.now) }
{
    keys.iter().position(|each| *each > key)
}

/// The finding on a vendor's national best, on the version to which the board has moved.
pub(crate) fn find_on(walk: &Walk<'_>, theirs: &National) -> Finding
    requires { theirs.now.sym < length (sizes_in walk.now.replay.tape.now).lots }
    ensures { result ≡ finding_of (quoted_at (sizes_in walk.now.replay.tape.now)
        (version (version_by walk.now.keys.now walk.now.key) walk.now.replay.tape.now.changes.items) theirs.now.sym) theirs.now }
{
    find_between(&quoted_on(&walk.replay.board, theirs.sym), theirs)
}
