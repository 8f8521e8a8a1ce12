//! The arrays of tables in a setup.

/// The two arrays of tables in a setup.
#[derive(Clone, Copy)]
pub(crate) enum Section {
    /// The array `participant`.
    Participant,
    /// The array `symbol`.
    Symbol,
}
