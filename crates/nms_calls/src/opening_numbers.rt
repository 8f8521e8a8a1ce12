//! The opening changes of a symbol as numbers, as a caller in another language receives them.

use crate::change_numbers::NmsChange;
use nms_opening::MOST_OPENING;

/// Changes that bring an empty board of the same setup to a symbol's rows.
#[repr(C)]
#[derive(Clone, Copy)]
pub struct NmsOpening {
    /// How many opening changes the symbol has.
    pub count: u32,
    /// Always 0.
    pub spare: u32,
    /// The opening changes, in the order in which they apply. The places after the last are 0.
    pub change: [NmsChange; MOST_OPENING],
}
