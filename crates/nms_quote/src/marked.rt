//! A change and its feed: `specs/Merge`.
use crate::change::Change;
use crate::feed::Feed;

/// A change with its mark: the feed that brought it.
#[derive(Clone, Copy)]
pub struct Marked {
    /// The feed that brought the change.
    pub feed: Feed,
    /// The change itself.
    pub change: Change,
}
