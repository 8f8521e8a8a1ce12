//! How far a client's stream has come (specs/Streams).

/// How far a client's stream has come.
#[derive(Clone, Copy, Debug, PartialEq, Eq)]
pub struct RequestCounts {
    /// How many requests were answered, at most 2^40.
    pub requests: u64,
    /// How many requests were refused, by an `ERR` record.
    pub refused: u64,
}
