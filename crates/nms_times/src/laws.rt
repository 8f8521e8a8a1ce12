//! Laws about versions and times. Each function does nothing: its contract is the law.
ghost use Rattle.std.specs.Prelude.{◌≡◌, ℕ, ◌<◌, ◌≤◌, List, length};
ghost use Rattle.std.specs.List.Sorted.{IsNonDecreasing};
ghost use Rattle.nms_times.specs.Examples.{ExamplesHold};
ghost use Rattle.nms_times.specs.Laws.{Splits};
ghost use Rattle.nms_times.specs.Times.{version_at, version_before};

/// Suppose that no time is before an earlier one. Then the version at a time has exactly the changes at that time or earlier. The
/// version before the time has exactly the changes that are earlier.
pub fn the_version_splits_the_times()
    ensures { (times : List ℕ) (t place : ℕ) → IsNonDecreasing times → place < length times → Splits times t place }
{}

/// A later time never has an earlier version. The version before a time is not after the version at that time.
pub fn versions_rise_with_time()
    ensures at { (times : List ℕ) (t u : ℕ) → t ≤ u → version_at times t ≤ version_at times u }
    ensures before { (times : List ℕ) (t u : ℕ) → t ≤ u → version_before times t ≤ version_before times u }
    ensures between { (times : List ℕ) (t : ℕ) → version_before times t ≤ version_at times t }
{}

/// The definitions give what the worked examples say.
pub fn worked_examples()
    ensures { ExamplesHold }
{}
