//! What kinds of outputs the process has.

/// Whether the process's outputs show what terminals show.
#[derive(Clone, Copy)]
pub(crate) struct Screen {
    /// Whether answers have colours. They have if standard output is a terminal that shows colours.
    pub(crate) answers: bool,
    /// Whether standard error shows the progress of the work.
    pub(crate) errors: bool,
}
