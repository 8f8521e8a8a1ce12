//! The times of the changes of a tape: `specs/Times`.
ghost use Rattle.std.specs.Prelude.{◌≡◌, ◌≢◌, ◌+◌, ◌-◌, ◌<◌, ◌≤◌, ◌^◌, length, IfErr, IfOk, MatchOption};
ghost use Rattle.std.specs.List.Sorted.{IsNonDecreasing};
ghost use Rattle.nms_times.specs.Faults.{IsFall};
ghost use Rattle.nms_times.specs.declared.times_fault.TimesFault.TheVariants.{OtherLength};
ghost use Rattle.nms_times.specs.Times.{FallsAt, between, time_of};

use crate::rising::Rising;
use crate::time_of_day::TimeOfDay;
use crate::times_fault::TimesFault;
use std::marker::Model;

/// The times of the changes of a tape, one for each change, in the order of the tape. A time may be before the previous one, for
/// example between the symbols of a file sorted by symbol.
#[derive(Drop)]
pub struct Times {
    all: Vec<TimeOfDay>,
}

impl Model for Times {
    ghost use Rattle.std.specs.Prelude.{ℕ, List};

    ghost Value = { List ℕ };

    ghost view = { λ t. t.all.items };
}

impl Times {
    /// Makes the times of a tape from a list that has a time for each change.
    pub(crate) fn of(all: Vec<TimeOfDay>) -> Self
        ensures { result ≡ all.items }
    {
        Times { all }
    }

    /// The number of times, which is also the number of the last version.
    pub fn len(&self) -> usize
        ensures { result ≡ length self.now }
    {
        self.all.len()
    }

    /// Returns `OtherLength` if the number of times differs from the number of changes.
    pub fn check_len(&self, changes: usize) -> Result<(), TimesFault>
        ensures same { IfOk result (λ _. length self.now ≡ changes) }
        ensures other { IfErr result (λ fault. (fault ≡ OtherLength) × (length self.now ≢ changes)) }
    {
        if self.all.len() == changes {
            Ok(())
        } else {
            Err(TimesFault::OtherLength)
        }
    }

    /// The time of a version, which is the time of its last change. Version 0 and versions after the last one have no time.
    pub fn time_of(&self, version: u64) -> Option<TimeOfDay>
        ensures { result ≡ time_of self.now version }
    {
        if version == 0 || version > self.all.len() as u64 {
            return None;
        }
        Some(self.all[version as usize - 1])
    }

    /// The times of all changes, by which versions are found. `TimesFall` names the first time that is before the previous one.
    pub fn rising(&self) -> Result<Rising<'_>, TimesFault>
        ensures same { IfOk result (λ rising. (rising.before ≡ 0) × (rising.times.now ≡ self.now)) }
        ensures falls { IfErr result (IsFall self.now 0) }
    {
        rising_after(0, &self.all)
    }

    /// The times of the changes after one version up to another, for example those of one symbol. `TimesFall` names the first
    /// time that is before the previous one.
    pub fn rising_between(&self, before: usize, last: usize) -> Result<Rising<'_>, TimesFault>
        requires order { before ≤ last }
        requires within { last ≤ length self.now }
        ensures same { IfOk result (λ rising. (rising.before ≡ before) × (rising.times.now ≡ between self.now before last)) }
        ensures falls { IfErr result (IsFall (between self.now before last) before) }
    {
        rising_after(before, &self.all[before..last])
    }
}

/// Prepares the times of the changes after a version for a search by time. It fails if a time is before the previous one.
fn rising_after(before: usize, times: &[TimeOfDay]) -> Result<Rising<'_>, TimesFault>
    requires { before + length times.now < 2 ^ 64 }
    ensures same { IfOk result (λ rising. (rising.before ≡ before) × (rising.times.now ≡ times.now)) }
    ensures falls { IfErr result (IsFall times.now before) }
{
    match first_fall(times) {
        None => Ok(Rising {
            before: before as u64,
            times,
        }),
        Some(place) => Err(TimesFault::TimesFall {
            line: (before + place + 1) as u64,
        }),
    }
}

/// The first place at which a time is before the previous one.
fn first_fall(times: &[TimeOfDay]) -> Option<usize>
    ensures { MatchOption result (IsNonDecreasing times.now) (FallsAt times.now) }
{
    for place in 1..times.len() {
        if times[place] < times[place - 1] {
            return Some(place);
        }
    }
    None
}
