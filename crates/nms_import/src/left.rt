//! How many refused rows withdrew earlier quotations.
ghost use Rattle.std.specs.Prelude.{◌≡◌, ◌+◌, IfSome};

use crate::noting::Notes;
use crate::tally::Sums;

/// How many refused rows withdrew what their participant showed, and how many did not.
#[derive(Clone, Copy)]
pub struct Left {
    /// The number of refused rows after which the participant shows nothing of the symbol until its next row that is read.
    pub withdrawn: u64,
    /// The number of refused rows after which an earlier quotation may still be shown. The row names no participant and symbol
    /// of the roster, its symbol had ended, or the mapping keeps the quotation.
    pub kept: u64,
}

impl Left {
    /// The two numbers of refused rows, from the sums of the rows and the changes that were noted. `None` comes only if the
    /// notes are of other rows.
    pub fn of(sums: &Sums, notes: &Notes) -> Option<Left>
        ensures withdrawn { IfSome result (λ left. notes.now.changes ≡ sums.now.changes + left.withdrawn) }
        ensures all { IfSome result (λ left. sums.now.refused ≡ left.withdrawn + left.kept) }
    {
        let withdrawn = notes.changes().checked_sub(sums.changes)?;
        let kept = sums.refused.checked_sub(withdrawn)?;
        Some(Left { withdrawn, kept })
    }
}
