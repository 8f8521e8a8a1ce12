//! How much an execution traded through: rows, shares and dollars.
ghost use Rattle.std.specs.Prelude.{ℕ, ◌≡◌, ◌≤◌, ◌<◌, ◌+◌, ◌*◌, ◌^◌, ◌≤ℤ◌, ◌∷◌, [], pos};
ghost use Rattle.nms_trades.specs.declared.execution.Execution.{Execution};
ghost use Rattle.nms_trades.specs.Sums.{IsCost, all_flicker, difference, is_helped, sums_found, sums_in, sums_with};

use crate::execution::Execution;
use crate::finding::Finding;
use nms_board::Row;
use nms_quote::Side;

/// How much an execution traded through, without the rows that self-help takes out.
#[derive(Clone, Copy)]
pub struct Sums {
    /// The number of rows that self-help does not take out.
    pub count: u64,
    /// The greatest difference between the price of a row and the price of the execution, in 1/1,000,000 dollar.
    pub worst: u64,
    /// The shares that the rows would have taken, at most those that were executed.
    pub shares: u32,
    /// The sum, over the rows, of the price difference times the shares taken from the row, in 1/1,000,000 dollar.
    pub dollars: i128,
    /// Whether self-help takes any row out.
    pub helped: bool,
    /// The number of rows that flickered, without those that self-help takes out.
    pub flickers: u64,
}

impl Sums {
    /// Whether self-help leaves any rows, and all of these flickered.
    pub fn is_flickering(&self) -> bool
        ensures { result ≡ all_flicker self.now }
    {
        self.count > 0 && self.flickers == self.count
    }

    /// The sums of no rows.
    pub(crate) fn none() -> Sums
        ensures { (execution : Execution) (shares : ℕ) → result ≡ sums_in execution shares [] }
    {
        Sums {
            count: 0,
            worst: 0,
            shares: 0,
            dollars: 0,
            helped: false,
            flickers: 0,
        }
    }

    /// The sums together with those of more rows.
    fn with(self, more: Sums) -> Sums
        requires count { self.count + more.count < 2 ^ 64 }
        requires flickers { self.flickers + more.flickers < 2 ^ 64 }
        requires shares { self.shares + more.shares < 2 ^ 32 }
        requires own { IsCost self }
        requires other { IsCost more }
        ensures { result ≡ sums_with self more }
    {
        Sums {
            count: self.count + more.count,
            worst: self.worst.max(more.worst),
            shares: self.shares + more.shares,
            dollars: self.dollars + more.dollars,
            helped: self.helped || more.helped,
            flickers: self.flickers + more.flickers,
        }
    }
}

/// How far a row's price is from a price in 1/1,000,000 dollar.
pub fn difference(row: &Row, millionths: u64) -> u64
    ensures { result ≡ difference row.now millionths }
{
    let own = row.price.get() * 100;
    if own > millionths {
        own - millionths
    } else {
        millionths - own
    }
}

/// Whether an execution claims self-help against a row's participant.
pub fn is_helped(execution: &Execution, row: &Row) -> bool
    ensures { result ≡ is_helped execution.now row.now }
{
    execution.claims.self_help.has(row.part)
}

/// How much an execution traded through. Its shares are taken from the rows in their order.
pub fn sums_of(execution: &Execution, finding: &Finding) -> Sums
    ensures { result ≡ sums_found execution.now finding.now }
{
    let mut sums = Sums::none();
    for place in 0..finding.passed.len() {
        let row = &finding.passed[place].1;
        let left = execution.shares.get() - sums.shares;
        sums = sums.with(sums_of_row(execution, row, left, finding.is_flickering(place)));
    }
    sums
}

/// How much an execution traded through one row, from which at most the remaining shares are taken. Self-help may take the row
/// out.
pub(crate) fn sums_of_row(execution: &Execution, row: &Row, left: u32, flickers: bool) -> Sums
    ensures sums { result ≡ sums_in execution.now left ((row.now, flickers) ∷ []) }
    ensures cost { IsCost result }
    ensures left { result.shares ≤ left }
{
    if is_helped(execution, row) {
        return Sums {
            helped: true,
            ..Sums::none()
        };
    }
    let by = difference(row, execution.millionths);
    let shares = row.size.min(left);
    Sums {
        count: 1,
        worst: by,
        shares,
        dollars: cost_of(by, shares),
        helped: false,
        flickers: u64::from(flickers),
    }
}

/// The amount of a price difference in 1/1,000,000 dollar for a number of shares, in 1/1,000,000 dollar.
fn cost_of(by: u64, shares: u32) -> i128
    ensures cost { result ≡ pos (by * shares) }
    ensures low { pos 0 ≤ℤ result }
    ensures high { result ≤ℤ pos (2 ^ 64 * shares) }
{
    i128::from(by) * i128::from(shares)
}
