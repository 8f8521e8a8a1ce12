//! The tables of a setup whose keys are known.

/// The tables of a setup whose keys are known.
#[derive(Clone, Copy)]
pub(crate) enum Level {
    /// The document itself.
    Top,
    /// A table of the array `participant`.
    Participant,
    /// A table of the array `symbol`.
    Symbol,
}
