//! Times that do not fall, in which versions are found by bisection: `specs/Times`.
ghost use Rattle.std.specs.Prelude.{◌≡◌, ◌+◌, ◌<◌, ◌≤◌, ◌^◌, length, nat_le, nat_lt};
ghost use Rattle.std.specs.List.Sorted.{IsNonDecreasing};
ghost use Rattle.nms_times.specs.Times.{version_at, version_before};

use crate::time_of_day::TimeOfDay;

/// The times of the changes after a version, none before an earlier one.
#[derive(Clone, Copy)]
pub struct Rising<'a> {
    /// The version before the first change.
    pub before: u64,
    /// The times of the changes, in order.
    pub times: &'a [TimeOfDay],
    pub ghost rise: { IsNonDecreasing times.now },
    pub ghost few: { before + length times.now < 2 ^ 64 },
}

impl Rising<'_> {
    /// The last version whose changes all have the given time or an earlier one.
    pub fn version_at(&self, time: TimeOfDay) -> u64
        ensures version { result ≡ self.now.before + version_at self.now.times.now time }
        ensures high { result ≤ self.now.before + length self.now.times.now }
    {
        let found = self.times.partition_point(
            |it: &TimeOfDay| -> bool
                ensures { result ≡ nat_le it.now time }
            { it.get() <= time.get() },
        );
        self.before + found as u64
    }

    /// The last version whose changes are all earlier than the given time.
    pub fn version_before(&self, time: TimeOfDay) -> u64
        ensures version { result ≡ self.now.before + version_before self.now.times.now time }
        ensures high { result ≤ self.now.before + length self.now.times.now }
    {
        let found = self.times.partition_point(
            |it: &TimeOfDay| -> bool
                ensures { result ≡ nat_lt it.now time }
            { it.get() < time.get() },
        );
        self.before + found as u64
    }
}
