//! The changes appended since the last publishing, in memory that is used again (specs/Fresh).
ghost use Rattle.std.specs.Prelude.{◌≡◌, ◌<◌, ◌++◌, ◌∷◌, [], length, None, IfSome, MatchBool};
ghost use Rattle.nms_versions.specs.Fresh.{items_in, items_of};

use nms_quote::{Change, SideQuote};
use nms_units::Lot;
use std::alloc::Global;
use std::marker::Model;
use std::sync::Arc;

/// The changes since the last publishing. Two buffers take turns. The pair of boards has the buffer of a publishing until the
/// next publishing is done, because only then do both boards have its changes.
#[derive(Drop)]
pub struct Fresh {
    /// The changes appended since the last publishing. `None` if there is no buffer yet.
    filled: Option<Arc<Vec<Change>>>,
    /// The buffer of the last publishing, which the pair has too.
    lent: Option<Arc<Vec<Change>>>,
}

impl Model for Fresh {
    ghost use Rattle.std.specs.Prelude.{List};
    ghost use Rattle.nms_quote.specs.declared.change.Change.{Change};
    ghost use Rattle.nms_versions.specs.Fresh.{items_in};

    ghost Value = { List Change };

    ghost view = { λ f. items_in f.filled };
}

impl Fresh {
    /// An empty list of changes. It takes no memory.
    pub(crate) fn new() -> Self
        ensures { result ≡ [] }
    {
        Fresh {
            filled: None,
            lent: None,
        }
    }

    /// Whether there is no change.
    pub(crate) fn is_empty(&self) -> bool
        ensures { MatchBool result (length self.now ≡ 0) (0 < length self.now) }
    {
        match &self.filled {
            Some(buffer) => buffer.is_empty(),
            None => true,
        }
    }

    /// Appends a change, and returns whether there was memory for it.
    pub(crate) fn push(&mut self, alloc: Global, change: &Change) -> bool
        ensures { MatchBool result (self.new ≡ self.old ++ change.now ∷ []) (self.new ≡ self.old) }
    {
        let Some(mut buffer) = taken_or_new(alloc, self.filled.take()) else {
            return false;
        };
        let is_put = put_behind(&mut buffer, change);
        self.filled = Some(buffer);
        is_put
    }

    /// Lends the changes to the pair of boards. `begin` has to follow, once the pair has taken them.
    pub(crate) fn lend(&mut self) -> Arc<Vec<Change>>
        requires some { 0 < length self.old }
        ensures { items_of result ≡ self.old }
    {
        let buffer = self.filled.take().unwrap();
        self.filled = self.lent.take();
        self.lent = Arc::try_clone(&buffer).ok();
        buffer
    }

    /// Begins a new list of changes, in the buffer that the pair of boards has returned.
    pub(crate) fn begin(&mut self)
        ensures { self.new ≡ [] }
    {
        self.filled = match self.filled.take() {
            Some(buffer) => emptied(buffer),
            None => None,
        };
    }
}

/// The given buffer, or a new one if there is none. `None` if out of memory.
fn taken_or_new(alloc: Global, buffer: Option<Arc<Vec<Change>>>) -> Option<Arc<Vec<Change>>>
    ensures items { IfSome result (λ made. items_of made ≡ items_in buffer) }
    ensures none { result ≡ None → items_in buffer ≡ [] }
{
    match buffer {
        Some(buffer) => Some(buffer),
        None => match Arc::new(alloc, Vec::new(alloc)) {
            Ok(buffer) => Some(buffer),
            Err(_) => None,
        },
    }
}

/// Adds a change at the end of a buffer, and returns whether there was memory for it.
fn put_behind(buffer: &mut Arc<Vec<Change>>, change: &Change) -> bool
    ensures { MatchBool result (items_of buffer.new ≡ items_of buffer.old ++ change.now ∷ []) (items_of buffer.new ≡ items_of buffer.old) }
{
    // The prover has to see the types in a change before the change moves, so the code mentions them.
    let _seen: (Option<SideQuote>, Option<Lot>) = (None, None);
    match Arc::get_mut(buffer) {
        Some(changes) => match changes.push(*change) {
            Ok(()) => true,
            Err(_) => false,
        },
        None => false,
    }
}

/// Empties a buffer and returns it. `None` if another holder still has the buffer.
fn emptied(mut buffer: Arc<Vec<Change>>) -> Option<Arc<Vec<Change>>>
    ensures { IfSome result (λ empty. items_of empty ≡ []) }
{
    match Arc::get_mut(&mut buffer) {
        Some(changes) => changes.clear(),
        None => return None,
    }
    Some(buffer)
}
