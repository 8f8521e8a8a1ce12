//! Cases that no call of a program can show: streams that fail or count while they are used, limits, cutoffs, and plans for
//! another order. If a call gives a wrong answer, its trial fails and prints the answer on standard error.
mod breaches;
mod cutoffs;
mod limits;
mod rosters;
mod script_streams;
mod single_writes;
mod streams;

use crate::Failed;
use crate::lines::or_failed;
use crate::setups::built_in;
use nms_fees::Setup;
use std::alloc::Global;
use std::fmt::Debug;
use std::process::Termination;
use std::test::Fail;

/// Fails the trial if two values differ.
fn same<V: PartialEq + Debug + Drop>(one: V, other: V) -> Result<(), Fail> {
    if one == other {
        Ok(())
    } else {
        Err(Fail::new(format_args!("{one:?}, and not {other:?}")))
    }
}

/// A value that a trial needs at its start. If it is missing, the trial fails.
fn there<V>(found: Option<V>) -> Result<V, Fail> {
    match found {
        Some(value) => Ok(value),
        None => Err(Fail::new("it is not there")),
    }
}

/// Makes the trials of one part of the library, and adds to the answer that they passed.
pub(crate) fn give_trials<T: AllocGlobal + Eprint>(
    rt: &T,
    part: &str,
    given: &mut Vec<u8>,
) -> Result<(), Failed> {
    let setup = built_in(rt.alloc())?;
    let came_to = try_part(rt.alloc(), &setup, part);
    let has_passed = came_to.is_ok();
    // The report only prints on standard error what failed. Its own result changes nothing, so it is dropped.
    let _ = came_to.report(rt);
    if !has_passed {
        return Err(Failed);
    }
    or_failed(given.extend_from_slice(b"passed"))
}

/// Makes the trials of one part of the library.
fn try_part(alloc: Global, setup: &Setup, part: &str) -> Result<(), Fail> {
    match part {
        "scripts" => script_streams::try_all(alloc, setup),
        "writes" => single_writes::try_all(alloc, setup),
        "rosters" => rosters::try_all(alloc),
        "limits" => limits::try_all(setup),
        "breaches" => breaches::try_all(alloc, setup),
        "cutoffs" => cutoffs::a_protected_row_is_swept_with_its_fee_at_the_next_price(alloc, setup),
        _ => Err(Fail::new("no such trials")),
    }
}
