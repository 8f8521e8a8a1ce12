//! How well executions were done, in sums: `specs/Quality`.
ghost use Rattle.std.specs.Prelude.{◌≡◌, ◌<◌, true};
ghost use Rattle.nms_show.specs.Plain.{is_plain};
ghost use Rattle.nms_trades.specs.Quality.{size_class};

use crate::execution::Execution;
use crate::finding::Finding;
use crate::quality::{Place, quality_of};

/// The number of size classes of executions.
pub(crate) const SIZES: usize = 6;

/// The name of the size class at this place: a range of the shares of an execution.
pub(crate) fn name_of_size(place: usize) -> &'static str
    ensures { is_plain result.now ≡ true }
{
    match place {
        0 => "1-99",
        1 => "100-499",
        2 => "500-1999",
        3 => "2000-4999",
        4 => "5000-9999",
        _ => "10000+",
    }
}

/// The place of the size class of an execution with this number of shares.
pub(crate) fn size_class(shares: u32) -> usize
    ensures class { result ≡ size_class shares }
    ensures within { result < SIZES }
{
    if shares < 100 {
        0
    } else if shares < 500 {
        1
    } else if shares < 2000 {
        2
    } else if shares < 5000 {
        3
    } else if shares < 10_000 {
        4
    } else {
        5
    }
}

/// How well some executions were done.
#[derive(Clone, Copy)]
pub(crate) struct Worth {
    /// The number of shares of these executions.
    pub(crate) shares: u64,
    /// The shares of executions that have a best bid and a best offer.
    pub(crate) measured: u64,
    /// The number of executions at a better price than the quote, or between the quotes.
    pub(crate) improved: u64,
    /// The number of executions at the quote, or at one of the quotes.
    pub(crate) at: u64,
    /// The number of executions outside of the quote.
    pub(crate) outside: u64,
    /// The sum of quoted spreads times shares, in nanodollars.
    pub(crate) quoted: i128,
    /// The sum of effective spreads times shares, in nanodollars.
    pub(crate) effective: i128,
    /// The sum of price improvements times shares, in nanodollars.
    pub(crate) improvement: i128,
}

impl Worth {
    /// The sums of no execution.
    pub(crate) fn none() -> Worth {
        Worth {
            shares: 0,
            measured: 0,
            improved: 0,
            at: 0,
            outside: 0,
            quoted: 0,
            effective: 0,
            improvement: 0,
        }
    }

    /// The sums of one execution. Returns `None` only if a sum is too large for the number that holds it.
    pub(crate) fn of(execution: &Execution, finding: &Finding) -> Option<Worth> {
        let shares = execution.shares.get();
        let mut worth = Worth::none();
        worth.shares = u64::from(shares);
        let Some(quality) = quality_of(execution, finding) else {
            return Some(worth);
        };
        let each = i128::from(shares);
        worth.measured = u64::from(shares);
        match quality.place {
            Place::Improved | Place::Inside => worth.improved = 1,
            Place::At | Place::AtBid | Place::AtOffer => worth.at = 1,
            Place::Outside => worth.outside = 1,
            Place::Crossed => {}
        }
        worth.quoted = quality.quoted.get().checked_mul(each)?;
        worth.effective = quality.effective.get().checked_mul(each)?;
        if let Some(better) = quality.improvement {
            worth.improvement = better.get().checked_mul(each)?;
        }
        Some(worth)
    }

    /// The sums together with those of more executions.
    pub(crate) fn with(self, more: &Worth) -> Option<Worth> {
        Some(Worth {
            shares: self.shares.checked_add(more.shares)?,
            measured: self.measured.checked_add(more.measured)?,
            improved: self.improved.checked_add(more.improved)?,
            at: self.at.checked_add(more.at)?,
            outside: self.outside.checked_add(more.outside)?,
            quoted: self.quoted.checked_add(more.quoted)?,
            effective: self.effective.checked_add(more.effective)?,
            improvement: self.improvement.checked_add(more.improvement)?,
        })
    }

    /// The average of an amount over the measured shares, rounded towards zero; `None` if no share was measured.
    pub(crate) fn average(&self, amount: i128) -> Option<i128> {
        if self.measured == 0 {
            return None;
        }
        amount.checked_div(i128::from(self.measured))
    }
}
