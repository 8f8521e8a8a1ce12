//! The reasons for which an import is doubted: `specs/Noted`.
ghost use Rattle.std.specs.Prelude.{◌≡◌};
ghost use Rattle.nms_import.specs.Noted.{guard_of};

use crate::noting::Notes;
use crate::tally::Sums;

/// Why what was written should not be used without a look. It is the first reason that holds.
#[derive(Clone, Copy)]
pub enum Guard {
    /// I1: more than half of the rows were refused.
    MostRefused,
    /// I2: there are changes, and none shows a round lot on either side.
    NoWholeLot,
    /// I3: a time is before an earlier one, though the mapping says that none is.
    TimesFall,
    /// I4: the last line of a file has another count than the rows before it; or the file has no last line, though the mapping
    /// names the count.
    CutShort,
    /// I5: no row made a change.
    Nothing,
}

impl Guard {
    /// The reason for which an import is doubted, if there is one.
    pub fn of(sums: &Sums, notes: &Notes) -> Option<Guard>
        ensures { result ≡ guard_of sums.now notes.now }
    {
        if sums.refused > sums.rows / 2 {
            Some(Guard::MostRefused)
        } else if sums.changes > 0 && !notes.shows_lot() {
            Some(Guard::NoWholeLot)
        } else if notes.falls() {
            Some(Guard::TimesFall)
        } else if notes.is_short() {
            Some(Guard::CutShort)
        } else if sums.changes == 0 {
            Some(Guard::Nothing)
        } else {
            None
        }
    }
}
