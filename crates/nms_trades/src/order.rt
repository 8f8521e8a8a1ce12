//! The order in which executions are judged: by version, and within a version as they were given.
ghost use Rattle.std.specs.Prelude.{IfOk, length};
ghost use Rattle.nms_trades.specs.Turns.{HaveTurns};

use crate::execution::Execution;
use std::alloc::{AllocError, Global};

/// The place of an execution among those that were given, and its version.
#[derive(Clone, Copy)]
pub(crate) struct Turn {
    pub(crate) version: u64,
    pub(crate) place: usize,
}

/// The order in which executions are judged: by version, and within a version as they were given. Each execution occurs once.
pub(crate) fn turns_of(alloc: Global, executions: &[Execution]) -> Result<Vec<Turn>, AllocError>
    ensures { IfOk result (λ turns. HaveTurns turns.items (length executions.now)) }
{
    let mut turns = Vec::new(alloc);
    for place in 0..executions.len() {
        turns.push(Turn {
            version: executions[place].version,
            place,
        })?;
    }
    turns.sort_by_key(|turn| turn.version)?;
    Ok(turns)
}
