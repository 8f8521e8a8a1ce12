//! How many rows had each outcome: `specs/Imported`.
ghost use Rattle.std.specs.Prelude.{◌≡◌, ◌<◌, ◌+◌, IfSome, if◌then◌else◌, sum};
ghost use Rattle.nms_import.specs.Imported.{changes_in, refused_in, rows_in, skipped_in};

use crate::cause::Cause;

/// The most rows of an import.
pub const MOST_ROWS: u64 = 1_000_000_000_000;

/// How many rows had each outcome.
#[derive(Clone, Copy)]
pub struct Tally {
    /// Rows that made a change, except those with only one manual side.
    pub wholes: u64,
    /// Rows that made a change though only one side is manual. No record can say that, so the mapping chose one state for both.
    pub halves: u64,
    /// Refused: fewer columns than the mapping names.
    pub too_few_columns: u64,
    /// Refused: a text that is no time of day.
    pub bad_time: u64,
    /// Refused: a participant that is not on the roster.
    pub unknown_participant: u64,
    /// Refused: a symbol that is not on the roster.
    pub unknown_symbol: u64,
    /// Refused: a condition that the mapping does not list.
    pub unknown_condition: u64,
    /// Refused: a condition that makes only one side manual.
    pub one_sided: u64,
    /// Refused: a word for its side that the mapping does not list, if each row has one side.
    pub unknown_side: u64,
    /// Refused: a text that is no price.
    pub bad_price: u64,
    /// Refused: a text that is no size.
    pub bad_size: u64,
    /// Refused: shares without a price.
    pub half_side: u64,
    /// Refused: a symbol that comes again after its end, if the rows are sorted by symbol.
    pub returned: u64,
    /// Skipped: the last line of a file.
    pub trailer: u64,
    /// Skipped: a word that the mapping lists among those to skip.
    pub listed: u64,
    /// Skipped: a symbol that is not on the roster.
    pub other_symbol: u64,
}

/// The sums of the outcomes.
#[derive(Clone, Copy)]
pub struct Sums {
    /// The number of all rows.
    pub rows: u64,
    /// The number of rows that made a change.
    pub changes: u64,
    /// The number of rows that were refused.
    pub refused: u64,
    /// The number of rows that were skipped.
    pub skipped: u64,
}

impl Tally {
    /// The counts before any row.
    pub fn none() -> Tally
        ensures rows { rows_in result ≡ 0 }
        ensures changes { changes_in result ≡ 0 }
        ensures halves { result.halves ≡ 0 }
    {
        Tally {
            wholes: 0,
            halves: 0,
            too_few_columns: 0,
            bad_time: 0,
            unknown_participant: 0,
            unknown_symbol: 0,
            unknown_condition: 0,
            one_sided: 0,
            unknown_side: 0,
            bad_price: 0,
            bad_size: 0,
            half_side: 0,
            returned: 0,
            trailer: 0,
            listed: 0,
            other_symbol: 0,
        }
    }

    /// Counts a row that made a change.
    pub fn count_change(&mut self, one_sided: bool)
        requires { rows_in self.old < 1000000000000 }
        ensures rows { rows_in self.new ≡ rows_in self.old + 1 }
        ensures changes { changes_in self.new ≡ changes_in self.old + 1 }
        ensures halves { self.new.halves ≡ self.old.halves + (if one_sided then 1 else 0) }
    {
        if one_sided {
            self.halves += 1;
        } else {
            self.wholes += 1;
        }
    }

    /// Counts a row that made no change, for a cause.
    pub fn count_cause(&mut self, cause: Cause)
        requires { rows_in self.old < 1000000000000 }
        ensures rows { rows_in self.new ≡ rows_in self.old + 1 }
        ensures changes { changes_in self.new ≡ changes_in self.old }
        ensures halves { self.new.halves ≡ self.old.halves }
    {
        match cause {
            Cause::TooFewColumns => self.too_few_columns += 1,
            Cause::BadTime => self.bad_time += 1,
            Cause::UnknownParticipant => self.unknown_participant += 1,
            Cause::UnknownSymbol => self.unknown_symbol += 1,
            Cause::UnknownCondition => self.unknown_condition += 1,
            Cause::OneSided(_) => self.one_sided += 1,
            Cause::UnknownSide => self.unknown_side += 1,
            Cause::BadPrice(_) => self.bad_price += 1,
            Cause::BadSize(_) => self.bad_size += 1,
            Cause::HalfSide(_) => self.half_side += 1,
            Cause::Trailer => self.trailer += 1,
            Cause::Listed => self.listed += 1,
            Cause::OtherSymbol => self.other_symbol += 1,
        }
    }

    /// Counts a row whose symbol came again after its end.
    pub fn count_returned(&mut self)
        requires { rows_in self.old < 1000000000000 }
        ensures rows { rows_in self.new ≡ rows_in self.old + 1 }
        ensures changes { changes_in self.new ≡ changes_in self.old }
        ensures halves { self.new.halves ≡ self.old.halves }
        ensures returned { self.new.returned ≡ self.old.returned + 1 }
    {
        self.returned += 1;
    }

    /// The sums: each row made a change, was refused or was skipped. `None` comes only if there are more than 2^64 - 1 rows.
    pub fn sums(&self) -> Option<Sums>
        ensures rows { IfSome result (λ sums. sums.rows ≡ rows_in self.now) }
        ensures parts { IfSome result (λ sums. (sums.changes ≡ changes_in self.now) × (sums.refused ≡ refused_in self.now) × (sums.skipped ≡ skipped_in self.now)) }
        ensures whole { IfSome result (λ sums. sums.rows ≡ sums.changes + sums.refused + sums.skipped) }
    {
        let refused = sum_of(&[
            self.too_few_columns,
            self.bad_time,
            self.unknown_participant,
            self.unknown_symbol,
            self.unknown_condition,
            self.one_sided,
            self.unknown_side,
            self.bad_price,
            self.bad_size,
            self.half_side,
            self.returned,
        ])?;
        let skipped = sum_of(&[self.trailer, self.listed, self.other_symbol])?;
        let changes = sum_of(&[self.wholes, self.halves])?;
        let rows = sum_of(&[changes, refused, skipped])?;
        Some(Sums {
            rows,
            changes,
            refused,
            skipped,
        })
    }
}

/// The sum of numbers. `None` comes only if it is above 2^64 - 1.
pub fn sum_of(numbers: &[u64]) -> Option<u64>
    ensures { IfSome result (λ total. total ≡ sum numbers.now) }
{
    let mut total = 0u64;
    for number in numbers {
        total = total.checked_add(*number)?;
    }
    Some(total)
}
