//! The memory of what a desk saw or learned of (specs/Memory). It exists only in proofs and has no bytes.
ghost use Rattle.std.specs.Prelude.{◌≡◌, ◌∷◌, []};

use crate::history::Token;
use std::marker::Model;
use std::snapshot::Snapshot;

/// What a desk saw or learned last, and what it saw or learned before.
#[derive(Drop)]
pub struct Memory {
    last: Token,
    before: Option<Snapshot<Memory>>,
}

impl Model for Memory {
    ghost use Rattle.std.specs.Prelude.{List, ◌∷◌, length};
    ghost use Rattle.std.proofs.Common.{arith};
    ghost use Rattle.nms_versions.specs.Published.{Batches};
    ghost use Rattle.nms_versions.specs.Memory.{recalled};

    ghost Value = { List Batches };

    ghost view = { λ m. m.last.log ∷ recalled m.before };

    ghost size = { length };

    ghost size_decreases = { λ m h. Prim.grind (arith) };
}

impl Memory {
    /// A memory of one history.
    pub(crate) fn of(seen: Token) -> Self
        ensures { result ≡ seen.log ∷ [] }
    {
        Memory {
            last: seen,
            before: None,
        }
    }

    /// A memory with one more history.
    pub(crate) fn with(&self, seen: Token) -> Self
        ensures { result ≡ seen.log ∷ self.now }
    {
        Memory {
            last: seen,
            before: Some(Snapshot::of(self)),
        }
    }
}
