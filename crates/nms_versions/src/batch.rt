//! The batch of changes that the pair of boards is given at once.
use crate::history::Token;
use nms_quote::Change;
use std::sync::Arc;

/// The changes of one publishing, and the history up to it. The publisher also keeps the buffer of these changes. It uses the
/// buffer again once the pair of boards has released it.
#[derive(Drop)]
pub struct Batch {
    pub(crate) changes: Arc<Vec<Change>>,
    pub(crate) seen: Token,
}
