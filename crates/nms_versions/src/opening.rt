//! Opening a publisher, with the desks to which it publishes (specs/Taped).
ghost use Rattle.std.specs.Prelude.{◌≡◌, ◌∷◌, [], drop, replicate, IfOk};
ghost use Rattle.nms_quote.specs.Roster.{sizes_of};
ghost use Rattle.nms_versions.specs.Fresh.{items_of};
ghost use Rattle.nms_versions.specs.Rule.{IsNamed, Names, sizes_known, unnamed};
ghost use Rattle.nms_versions.specs.Taped.{opened, unseeing};

use crate::batch::Batch;
use crate::desk::Desk;
use crate::fresh::Fresh;
use crate::history::{History, Token};
use crate::memory::Memory;
use crate::open_fault::OpenFault;
use crate::publisher::Publisher;
use crate::rule::{Learning, Naming, PairWriter, Telling, publish_pair};
use crate::sealed::Sealed;
use left_right::writer::Writer;
use nms_board::Boards;
use nms_fees::Setup;
use std::alloc::Global;
use std::sync::{Arc, Wait};

/// Opens an empty tape with the empty version published, and the setup's number of desks, in order of number. Both boards are
/// made here. It waits for no thread. After `NoMemory` or `NoPlace` nothing is kept.
pub fn open_tape<R: Wait>(
    alloc: Global,
    rt: &R,
    setup: &Setup,
) -> Result<(Publisher, Vec<Desk>), OpenFault>
    ensures opened { IfOk result (λ ends. ends.0 ≡ opened ends.0.opening setup.now) }
    ensures desks { IfOk result (λ ends. ends.1.items ≡ replicate setup.now.desks (unseeing ends.0.opening setup.now)) }
{
    let history = History::new();
    let seen = history.token();
    let mut writer = open_pair(alloc, rt, setup, &seen)?;
    match make_desks(alloc, &mut writer, &seen, setup.desks()) {
        Ok(desks) => {
            let publisher = Publisher {
                alloc,
                writer,
                history,
                tape: Vec::new(alloc),
                fresh: Fresh::new(),
                published: 0,
                limit: setup.tape_limit(),
            };
            Ok((publisher, desks))
        }
        Err(fault) => {
            writer.take(rt);
            Err(fault)
        }
    }
}

/// Makes the pair of boards of a roster, with nothing on them. It publishes an empty batch, so that the pair knows its opening
/// and has room for batches.
fn open_pair<R: Wait>(
    alloc: Global,
    rt: &R,
    setup: &Setup,
    seen: &Token,
) -> Result<PairWriter, OpenFault>
    requires empty { seen.now.log ≡ [] }
    ensures idle { IfOk result (λ writer. drop writer.behind writer.log.items ≡ []) }
    ensures seen { IfOk result (λ writer. writer.desk.shown.value.seen ≡ seen.now) }
    ensures sizes { IfOk result (λ writer. writer.desk.shown.value.boards.sizes ≡ sizes_of setup.now.roster) }
    ensures named { IfOk result (λ writer. IsNamed writer.desk.place.me.0.client seen.now.book) }
    ensures known { IfOk result (λ writer. sizes_known writer.desk.place.me.0.client ≡ sizes_of setup.now.roster) }
{
    let (Ok(one), Ok(other)) = (
        Boards::new(alloc, setup.roster()),
        Boards::new(alloc, setup.roster()),
    ) else {
        return Err(OpenFault::NoMemory);
    };
    let first = Sealed {
        boards: one,
        seen: seen.again(),
    };
    let second = Sealed {
        boards: other,
        seen: seen.again(),
    };
    let Ok(changes) = Arc::new(alloc, Vec::new(alloc)) else {
        return Err(OpenFault::NoMemory);
    };
    let Ok(writer) = Writer::new(alloc, first, second, usize::from(setup.desks())) else {
        return Err(OpenFault::NoMemory);
    };
    let empty = Batch {
        changes,
        seen: seen.again(),
    };
    name_opening(rt, writer, empty)
}

/// Publishes a batch without changes, so that the pair of boards knows its opening.
fn name_opening<R: Wait>(rt: &R, writer: PairWriter, empty: Batch) -> Result<PairWriter, OpenFault>
    requires idle { drop writer.behind writer.log.items ≡ [] }
    requires empty { items_of empty.changes ≡ [] }
    requires seen { empty.seen ≡ writer.desk.shown.value.seen }
    ensures idle { IfOk result (λ named. drop named.behind named.log.items ≡ []) }
    ensures shown { IfOk result (λ named. named.desk.shown.value ≡ writer.desk.shown.value) }
    ensures named { IfOk result (λ named. Names unnamed writer.desk.shown.value named.desk.shown.value named.desk.place.me.0.client) }
{
    let mut writer = writer;
    if writer.append(empty).is_err() {
        writer.take(rt);
        return Err(OpenFault::NoMemory);
    }
    Ok(publish_pair::<Naming, R>(rt, writer))
}

/// The desks, in order of number.
fn make_desks(
    alloc: Global,
    writer: &mut PairWriter,
    seen: &Token,
    count: u8,
) -> Result<Vec<Desk>, OpenFault>
    requires named { IsNamed writer.old.desk.place.me.0.client seen.now.book }
    requires empty { seen.now.log ≡ [] }
    ensures desks { IfOk result (λ desks. desks.items ≡ replicate count (record { opening = seen.now.book; sizes = sizes_known writer.old.desk.place.me.0.client; known = [] ∷ [] })) }
    ensures shown { writer.new.desk.shown ≡ writer.old.desk.shown }
    ensures waiting { drop writer.new.behind writer.new.log.items ≡ drop writer.old.behind writer.old.log.items }
{
    let Ok(mut desks) = Vec::with_capacity(alloc, usize::from(count)) else {
        return Err(OpenFault::NoMemory);
    };
    for _ in 0..count {
        let desk = make_desk(writer, seen)?;
        if desks.push(desk).is_err() {
            return Err(OpenFault::NoMemory);
        }
    }
    Ok(desks)
}

/// A desk that knows the empty version.
fn make_desk(writer: &mut PairWriter, seen: &Token) -> Result<Desk, OpenFault>
    requires named { IsNamed writer.old.desk.place.me.0.client seen.now.book }
    requires empty { seen.now.log ≡ [] }
    ensures desk { IfOk result (λ desk. desk ≡ record { opening = seen.now.book; sizes = sizes_known writer.old.desk.place.me.0.client; known = [] ∷ [] }) }
    ensures shown { writer.new.desk.shown ≡ writer.old.desk.shown }
    ensures waiting { drop writer.new.behind writer.new.log.items ≡ drop writer.old.behind writer.old.log.items }
    ensures knows { writer.new.desk.place.me.0.client ≡ writer.old.desk.place.me.0.client }
{
    let Ok(mut reader) = writer.factory().reader() else {
        return Err(OpenFault::NoPlace);
    };
    reader.learn::<Learning>(writer.tell::<Telling>());
    Ok(Desk {
        reader: Some(reader),
        memory: Memory::of(seen.again()),
        newest: seen.again(),
        longest: 0,
    })
}
