//! The result of a script (specs/Script).

/// The result of a script.
#[derive(Clone, Copy)]
pub struct Counts {
    /// How many records were read, at most 10,000,000.
    pub records: u64,
    /// How many of the records were refused, each by an `ERR` record.
    pub refused: u64,
    /// How many changes were taken to the tape.
    pub tape: u64,
    /// The published version.
    pub published: u64,
}
