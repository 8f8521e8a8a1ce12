//! How many rows had each outcome: `specs/Executions`.
ghost use Rattle.std.specs.Prelude.{◌≡◌, ◌<◌, ◌+◌, IfSome};
ghost use Rattle.nms_import_trades.specs.Executions.{refused_in, rows_in, skipped_in};

use crate::trade_cause::TradeCause;
use nms_import::sum_of;

/// How many rows had each outcome.
#[derive(Clone, Copy)]
pub struct TradeTally {
    /// Rows that made an execution.
    pub executions: u64,
    /// Refused: fewer columns than the mapping names.
    pub too_few_columns: u64,
    /// Refused: a text that is no name.
    pub bad_name: u64,
    /// Refused: a text that is no time of day.
    pub bad_time: u64,
    /// Refused: a participant that is not on the roster.
    pub unknown_participant: u64,
    /// Refused: a symbol that is not on the roster.
    pub unknown_symbol: u64,
    /// Refused: a text that is no price.
    pub bad_price: u64,
    /// Refused: a text that is no number of shares.
    pub bad_shares: u64,
    /// Refused: a side that the mapping does not list.
    pub unknown_side: u64,
    /// Refused: a letter of a condition that the mapping does not list.
    pub unknown_condition: u64,
    /// Refused: a mark of an exempt trade that the mapping does not list.
    pub unknown_mark: u64,
    /// Refused: a word of the column `skip` that the mapping does not list.
    pub unknown_word: u64,
    /// Refused: a date that is not that of the first execution.
    pub other_day: u64,
    /// Skipped: the last line of a file.
    pub trailer: u64,
    /// Skipped: a word that the mapping lists among those to skip.
    pub listed: u64,
    /// Skipped: a row that is no trade.
    pub no_trade: u64,
    /// Skipped: a symbol that is not on the roster.
    pub other_symbol: u64,
}

/// The sums of the outcomes.
#[derive(Clone, Copy)]
pub struct TradeSums {
    /// The number of all rows.
    pub rows: u64,
    /// The number of rows that made an execution.
    pub executions: u64,
    /// The number of rows that were refused.
    pub refused: u64,
    /// The number of rows that were skipped.
    pub skipped: u64,
}

impl TradeTally {
    /// The counts before any row.
    pub fn none() -> TradeTally
        ensures rows { rows_in result ≡ 0 }
        ensures executions { result.executions ≡ 0 }
    {
        TradeTally {
            executions: 0,
            too_few_columns: 0,
            bad_name: 0,
            bad_time: 0,
            unknown_participant: 0,
            unknown_symbol: 0,
            bad_price: 0,
            bad_shares: 0,
            unknown_side: 0,
            unknown_condition: 0,
            unknown_mark: 0,
            unknown_word: 0,
            other_day: 0,
            trailer: 0,
            listed: 0,
            no_trade: 0,
            other_symbol: 0,
        }
    }

    /// Counts a row that made an execution.
    pub(crate) fn count_execution(&mut self)
        requires { rows_in self.old < 1000000000000 }
        ensures rows { rows_in self.new ≡ rows_in self.old + 1 }
        ensures executions { self.new.executions ≡ self.old.executions + 1 }
    {
        self.executions += 1;
    }

    /// Counts a row that made no execution, for a cause.
    pub(crate) fn count_cause(&mut self, cause: TradeCause)
        requires { rows_in self.old < 1000000000000 }
        ensures rows { rows_in self.new ≡ rows_in self.old + 1 }
        ensures executions { self.new.executions ≡ self.old.executions }
    {
        match cause {
            TradeCause::TooFewColumns => self.too_few_columns += 1,
            TradeCause::BadName => self.bad_name += 1,
            TradeCause::BadTime => self.bad_time += 1,
            TradeCause::UnknownParticipant => self.unknown_participant += 1,
            TradeCause::UnknownSymbol => self.unknown_symbol += 1,
            TradeCause::BadPrice => self.bad_price += 1,
            TradeCause::BadShares => self.bad_shares += 1,
            TradeCause::UnknownSide => self.unknown_side += 1,
            TradeCause::UnknownCondition => self.unknown_condition += 1,
            TradeCause::UnknownMark => self.unknown_mark += 1,
            TradeCause::UnknownWord => self.unknown_word += 1,
            TradeCause::OtherDay => self.other_day += 1,
            TradeCause::Trailer => self.trailer += 1,
            TradeCause::Listed => self.listed += 1,
            TradeCause::NoTrade => self.no_trade += 1,
            TradeCause::OtherSymbol => self.other_symbol += 1,
        }
    }

    /// The sums: each row made an execution, was refused or was skipped. `None` comes only if there are more than 2^64 - 1 rows.
    pub fn sums(&self) -> Option<TradeSums>
        ensures rows { IfSome result (λ sums. sums.rows ≡ rows_in self.now) }
        ensures parts { IfSome result (λ sums. (sums.executions ≡ self.now.executions) × (sums.refused ≡ refused_in self.now) × (sums.skipped ≡ skipped_in self.now)) }
        ensures whole { IfSome result (λ sums. sums.rows ≡ sums.executions + sums.refused + sums.skipped) }
    {
        let refused = sum_of(&[
            self.too_few_columns,
            self.bad_name,
            self.bad_time,
            self.unknown_participant,
            self.unknown_symbol,
            self.bad_price,
            self.bad_shares,
            self.unknown_side,
            self.unknown_condition,
            self.unknown_mark,
            self.unknown_word,
            self.other_day,
        ])?;
        let skipped = sum_of(&[self.trailer, self.listed, self.no_trade, self.other_symbol])?;
        let executions = self.executions;
        let rows = sum_of(&[executions, refused, skipped])?;
        Some(TradeSums {
            rows,
            executions,
            refused,
            skipped,
        })
    }
}
