//! A fault with its place: `specs/Findings`.

use crate::known_key::KnownKey;
use crate::setup_table::SetupTable;
use nms_fees::SetupFault;

/// The part of a table that has a fault.
#[derive(Clone, Copy)]
pub enum Spot {
    /// The element itself, which is not a table.
    Element,
    /// A key that is allowed in the table. It is absent, or its value has the fault.
    Key(KnownKey),
    /// The keys that are not allowed in the table. There is at least one.
    OtherKeys,
    /// The name, if an earlier element of the array has the same one. The number is the place of the earlier element, counted
    /// from 0.
    NameOf(usize),
}

/// A fault of a setup, and its place.
#[derive(Clone, Copy)]
pub struct Finding {
    /// The table that has the fault.
    pub table: SetupTable,
    /// The part of the table that has the fault.
    pub spot: Spot,
    /// What is wrong there.
    pub fault: SetupFault,
}
