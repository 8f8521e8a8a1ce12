//! The rule of the pair of boards (specs/Rule), and the result of each step over it.
ghost use Rattle.std.specs.Prelude.{◌≡◌, [], drop, fold};
ghost use Rattle.crossbeam_utils.specs.Register.{TurnsAt};
ghost use Rattle.nms_board.specs.Cells.{StandsFor};
ghost use Rattle.nms_versions.specs.Published.{changes};
ghost use Rattle.nms_versions.specs.Rule.{IsOf, Kept, Names, absorbed, unnamed};
ghost use Rattle.nms_versions.specs.declared.sealed.Sealed.{Sealed};

use crate::batch::Batch;
use crate::known::Known;
use crate::sealed::Sealed;
use atomic_table::{Join, Split};
use crossbeam_utils::rule::{Outcome, Protocol};
use left_right::reader::Reader;
use left_right::writer::Writer;
use std::sync::Wait;

/// The end of the pair of boards at which the publisher writes.
pub type PairWriter = Writer<Sealed, Batch, Known, Faithful>;

/// The end of the pair of boards at which a desk reads.
pub type PairReader = Reader<Sealed, Known, Faithful>;

/// The rule: the shown board is the board of its history, and is of the opening that is known.
pub struct Faithful;

impl Protocol<Sealed, Known> for Faithful {
    ghost holds = { Kept };

    ghost first = { unnamed };
}

/// The writer publishes, and from then on knows of which opening the pair is.
pub struct Naming;

impl Outcome<Sealed, Known> for Naming {
    ghost then = { Names };
}

/// The writer publishes.
pub struct Showing;

impl Outcome<Sealed, Known> for Showing {
    ghost then = { λ before old new after. after ≡ before };
}

/// A reader takes what is shown.
pub struct Reading;

impl Outcome<Sealed, Known> for Reading {
    ghost then = { λ before shown same after. (after ≡ before) × StandsFor shown.boards (changes shown.seen.log) × IsOf shown before };
}

/// The writer passes on what it knows.
pub struct Telling;

impl Split<Known> for Telling {
    ghost left = { λ known. known };

    ghost right = { λ known. known };
}

/// A reader learns what the writer knows.
pub struct Learning;

impl Join<Known> for Learning {
    ghost both = { λ known told. told };

    ghost spent = { unnamed };
}

/// The writer shows the board that has all batches that were given to the pair.
pub(crate) fn publish_pair<M: Outcome<Sealed, Known>, R: Wait>(
    rt: &R,
    writer: PairWriter,
) -> PairWriter
    requires rule { (next : Sealed) → next ≡ fold absorbed writer.desk.shown.value (drop writer.behind writer.log.items)
        → TurnsAt Kept writer.desk.place.id writer.desk.place.me.0.client writer.desk.shown.value next M.then }
    ensures idle { drop result.behind result.log.items ≡ [] }
    ensures shown { result.desk.shown.value ≡ fold absorbed writer.desk.shown.value (drop writer.behind writer.log.items) }
    ensures outcome { M.then writer.desk.place.me.0.client writer.desk.shown.value result.desk.shown.value result.desk.place.me.0.client }
{
    let (writer, _published) = writer.publish_as::<M, R>(rt);
    writer
}
