//! Laws about what is published (specs/Published). Each function does nothing: its contract is the law.
ghost use Rattle.std.specs.Prelude.{◌≡◌, ℕ, ◌⊎◌, ◌↔◌, List, length};
ghost use Rattle.std.specs.List.{Contains};
ghost use Rattle.std.specs.List.Sorted.{IsStrictlyIncreasing};
ghost use Rattle.nms_quote.specs.declared.change.Change.{Change};
ghost use Rattle.nms_versions.specs.Published.{Batches, NoneEmpty, borne, changes, publications};

/// The publications are exactly 0, the lengths that the changes of the tape bear, and the published one. Each is among them
/// once, and they rise.
pub fn publications_are_what_changes_bear()
    ensures these { (published : Batches) (pending : List Change) (n : ℕ) → NoneEmpty published
        → Contains (publications published) n ↔ (n ≡ 0) ⊎ (Contains (borne published pending) n ⊎ (n ≡ length (changes published))) }
    ensures once { (published : Batches) → NoneEmpty published → IsStrictlyIncreasing (publications published) }
{}
