//! A receipt of what was published, for a desk to learn or to settle on (specs/Taped).
ghost use Rattle.std.specs.Prelude.{◌≡◌, length};
ghost use Rattle.nms_versions.specs.Published.{changes};

use crate::history::Token;
use std::marker::Model;

/// The version that was published when the receipt was given, and all publications up to it.
#[derive(Drop)]
pub struct Receipt {
    pub(crate) seen: Token,
    pub(crate) version: u64,
}

impl Model for Receipt {
    ghost use Rattle.std.specs.Prelude.{◌≡◌, length};
    ghost use Rattle.nms_versions.specs.Published.{changes};
    ghost use Rattle.nms_versions.specs.Taped.{Receipted};

    ghost Value = { Receipted };

    ghost view = { λ r. record { opening = r.seen.book; published = r.seen.log } };

    ghost invariant = { λ r. r.version ≡ length (changes r.seen.log) };
}

impl Receipt {
    /// The version's number, which is how many changes it has.
    pub fn version(&self) -> u64
        ensures { result ≡ length (changes self.now.published) }
    {
        self.version
    }
}
