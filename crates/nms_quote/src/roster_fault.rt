//! Why an entry is refused: `refusal_in` of `specs/Roster`, and out of memory.
use std::fmt;
use thiserror::Error;

/// Why an entry was not added to a roster, least number first. The roster is unchanged.
#[derive(Clone, Copy, Debug, PartialEq, Eq, Error)]
pub enum RosterFault {
    /// Q1: the name does not have its form.
    BadName,
    /// Q2: the name is on the roster already.
    Duplicate,
    /// Q3: there are 32 participants, or 1,000 symbols, already.
    TooMany,
    /// Q4: out of memory.
    NoMemory,
}

impl fmt::Display for RosterFault {
    fn fmt<W: fmt::Write>(&self, f: &mut fmt::Formatter<W>) -> fmt::Result {
        f.write_str(match self {
            RosterFault::BadName => "Q1: not a name",
            RosterFault::Duplicate => "Q2: the name stands already",
            RosterFault::TooMany => "Q3: no room on the roster",
            RosterFault::NoMemory => "Q4: out of memory",
        })
    }
}
