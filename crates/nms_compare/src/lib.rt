//! Comparing a vendor's national best bids and offers with those of a tape. Each row of the vendor has one finding, on the
//! version at its time.
#![tactic(auto)]

mod compare_fault;
mod comparing;
mod counts;
mod finding;
mod keys;
mod national;
mod national_mapping;
mod showing;
mod sums;
mod walk;

/// The most rows of a comparison that are shown.
pub const MOST_SHOWN: u64 = 100;

pub use compare_fault::CompareFault;
pub use comparing::{Vendor, compare_rows};
pub use counts::{Counts, write_counts, write_counts_object};
pub use finding::{Finding, find_between};
pub use keys::{Keyed, key_of, keys_of};
pub use national::{Best, National, read_national};
pub use national_mapping::{NationalMapping, national_mapping_of};
pub use showing::{Showing, Shown};
pub use sums::Sums;
