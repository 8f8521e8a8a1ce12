//! What an accepted row becomes.
use nms_quote::Change;

/// What an accepted row becomes: a change, and its time.
#[derive(Clone, Copy)]
pub struct Entry {
    /// The time of day as digits, `HHMMSSnnnnnnnnn`: 93000000000001 is a nanosecond after 09:30:00.
    pub time: u64,
    /// Both sides of a participant's quotation in a symbol, and their state.
    pub change: Change,
    /// Whether the row's condition makes only one side manual, so that the change has the state that the mapping chose.
    pub one_sided: bool,
}
