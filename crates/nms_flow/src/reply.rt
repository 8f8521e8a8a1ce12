//! The machine's answer to a step (specs/Run).
use nms_board::View;

/// The answer to a step that was not refused. A look's answer has room for a complete view; a caller with many records calls
/// the steps by their own methods.
#[derive(Drop)]
pub enum Reply {
    /// The change is at the queue's end.
    Sent,
    /// The tape's length after the taking.
    Taken {
        /// The length in changes, 1 to the setup's tape limit.
        version: u64,
    },
    /// The version that is published now.
    Published {
        /// The version in changes, 0 to the setup's tape limit.
        version: u64,
    },
    /// The published version, which the desk knows now.
    Told {
        /// The desk that learned of it.
        desk: u8,
        /// The version in changes, 0 to the setup's tape limit.
        version: u64,
    },
    /// The symbol's quotations in the published version.
    Seen(View),
}
