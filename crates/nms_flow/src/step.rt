//! A step of the machine. Runs of steps are defined in specs/Run.
use nms_quote::{Change, Feed, Sym};

/// A step of the machine, which is one event. This product's own rule.
#[derive(Clone, Copy)]
pub enum Step {
    /// Sends a change to the queue, on the feed that it belongs to.
    Send(Feed, Change),
    /// Takes the change at the queue's front to the tape.
    Take,
    /// Makes all of the tape the published version.
    Publish,
    /// Lets a desk learn of the published version.
    Tell {
        /// The desk. The machine keeps nothing about desks.
        desk: u8,
    },
    /// Shows a desk one symbol of the published version.
    Look {
        /// The desk that looks at the symbol.
        desk: u8,
        /// The symbol that it looks at.
        sym: Sym,
    },
}
