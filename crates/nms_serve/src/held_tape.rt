//! The tape of a run, held by its lock. It is new, or as an earlier run has left it.
ghost use Rattle.std.specs.Prelude.{◌≡◌, IfOk, None};
ghost use Rattle.nms_quote.specs.Roster.{sizes_of};
ghost use Rattle.nms_serve.specs.LeftRuns.{HasNext, IsOfRoster};

use crate::call_streams::check_streams;
use crate::left_epoch::{LeftTape, refused};
use crate::left_run::LeftRun;
use crate::own_files::OwnFiles;
use crate::refusal::Refusal;
use crate::tape_fault::TapeFault;
use crate::tape_folder::{Part, SETUP, TapeFile, files_of_tape, refuse_files};
use crate::tape_setup::{check_setup, hold_left, hold_new, write_setup};
use crate::words::Request;
use nms_fees::Setup;
use std::alloc::Global;
use std::fs::File;

/// The tape of a run.
#[derive(Drop)]
pub(crate) struct HeldTape {
    /// The file of the tape's setup. The run holds the tape's lock while this file is open.
    pub(crate) setup: File,
    /// What an earlier run has left of the tape, if this run goes on with it. Else there is no file of an epoch.
    pub(crate) left: Option<LeftRun>,
}

/// The tape that a request names, as it is found. Its files are not altered, and none is made.
#[derive(Drop)]
pub(crate) struct FoundTape {
    /// The file of the tape's setup, locked, if there is one.
    pub(crate) setup: Option<File>,
    /// What an earlier run has left of the tape, if this run goes on with it.
    pub(crate) left: Option<LeftRun>,
}

/// Finds the tape that a request names. A new one has no files. If `--resume` is given, the files of an earlier run are read.
pub(crate) fn find_tape(
    host: &HostRuntime,
    text: &[u8],
    setup: &Setup,
    request: &Request,
    own: &OwnFiles<'_>,
) -> Result<FoundTape, Refusal>
    ensures sizes { IfOk result (λ tape. IsOfRoster (sizes_of setup.now.roster) tape.left) }
    ensures next { IfOk result (λ tape. HasNext tape.left) }
{
    let (alloc, path) = (host.alloc(), request.tape.as_str());
    if !request.resume {
        let files = files_of_tape(host, alloc, path)?;
        refuse_files(host, &files)?;
        check_streams(host, alloc, request, own, &files)?;
        return Ok(FoundTape {
            setup: None,
            left: None,
        });
    }
    let name = setup_path(alloc, path)?;
    let held = hold_left(host, name.as_str())?;
    let files = files_of_tape(host, alloc, path)?;
    check_streams(host, alloc, request, own, &files)?;
    if !has_epoch(&files) {
        return Ok(FoundTape {
            setup: held,
            left: None,
        });
    }
    let tape = LeftTape {
        host,
        alloc,
        setup,
        path,
    };
    let Some(mut file) = held else {
        return Err(refused(TapeFault::NoSetup, name.as_str()));
    };
    check_setup(&mut file, alloc, text, name.as_str())?;
    let left = tape.left_run(&files)?;
    Ok(FoundTape {
        setup: Some(file),
        left,
    })
}

/// Holds a tape that was found, and returns the file of its setup. If there is none, a new one is made.
pub(crate) fn hold_setup(
    host: &HostRuntime,
    text: &[u8],
    request: &Request,
    found: Option<File>,
    is_left: bool,
) -> Result<File, Refusal> {
    let name = setup_path(host.alloc(), request.tape.as_str())?;
    let mut setup = match found {
        Some(file) => file,
        None => hold_new(host, name.as_str())?,
    };
    // The text is written here too if the file was there, because an earlier run may have made only this file.
    if !is_left {
        write_setup(&mut setup, text, name.as_str())?;
    }
    Ok(setup)
}

/// The path of the file of a tape's setup.
fn setup_path(alloc: Global, path: &str) -> Result<String, Refusal> {
    match format!(in alloc; "{path}{SETUP}") {
        Ok(name) => Ok(name),
        Err(_) => Err(Refusal::no_memory()),
    }
}

/// Whether any of the files belongs to an epoch.
fn has_epoch(files: &[TapeFile]) -> bool {
    files.iter().any(|file| file.part != Part::Setup)
}
