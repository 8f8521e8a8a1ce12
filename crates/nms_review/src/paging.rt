//! The option `--html` of `trades`: writes a page about the judged executions, in addition to the answers.
use crate::answers::Answers;
use crate::call::{Call, Host};
use crate::drawing::drawing_fault;
use crate::fault::{About, Fault};
use crate::files::create_file;
use crate::request::{Path, Trades};
use crate::trading::trades_fault;
use crate::words::Words;
use nms_codes::Code;
use nms_drawing::{Asked, PageFault, write_page};
use nms_show::Ending;
use nms_trades::{Layout, Timing};
use std::alloc::AllocError;
use std::io::Write;

/// Judges a file of executions, and writes the page. The changes and the executions are opened before the page is created.
pub(crate) fn serve_page<T: Host, W: Write>(
    call: &Call<'_, T>,
    trades: &Trades<'_>,
    timing: Option<&Timing<'_>>,
    layout: Layout,
    page: Path<'_>,
    answers: &mut W,
) -> Result<Ending, Fault> {
    let pairs = made_of(
        call,
        &[
            ("changes", Some(trades.changes)),
            ("executions", Some(trades.executions)),
            ("times", trades.times),
            ("symbols", trades.symbols),
        ],
    )?;
    let mut changes = call.open(trades.changes)?;
    let mut executions = call.open(trades.executions)?;
    let file = create_file(call, page.name, page.about)?;
    let Ok(mut page) = Answers::new(call.alloc(), file, false) else {
        return Err(Fault::no_memory());
    };
    let asked = Asked {
        form: call.form(),
        layout,
        pairs: &pairs,
        bests: trades.bests,
    };
    let served = write_page(
        call.alloc(),
        call.setup,
        &mut changes,
        &mut executions,
        timing,
        &asked,
        &mut page,
        answers,
    );
    let served = match served {
        Ok(ending) if page.flush().is_ok() => Ok(ending),
        Ok(_) => Err(Fault::of(Code::E2, About::Nothing)),
        Err(fault) => Err(page_fault(fault, trades.executions.about, trades.changes.about)),
    };
    changes.ended(executions.ended(served))
}

/// Pairs of a key and a text, which say on the page what it was made from. They name the given files, the setup, and how versions
/// were found by time.
pub(crate) fn made_of<'a, T: Host>(
    call: &Call<'a, T>,
    files: &[(&'static str, Option<Path<'a>>)],
) -> Result<Vec<&'a [u8]>, Fault> {
    let mut pairs = Vec::new(call.alloc());
    for (key, file) in files {
        if let Some(file) = file {
            if add_pair(&mut pairs, key, file.name.as_bytes()).is_err() {
                return Err(Fault::no_memory());
            }
        }
    }
    match add_options(&mut pairs, call.words) {
        Ok(()) => Ok(pairs),
        Err(_) => Err(Fault::no_memory()),
    }
}

/// Adds the pairs for `--setup`, `--window` and `--before`, if these options were given.
fn add_options<'a>(pairs: &mut Vec<&'a [u8]>, words: &'a Words<'a>) -> Result<(), AllocError> {
    if let Some(setup) = words.option("setup") {
        add_pair(pairs, "setup", setup.as_bytes())?;
    }
    if let Some(window) = words.option("window") {
        add_pair(pairs, "window (ns)", window.as_bytes())?;
    }
    if words.has("before") {
        add_pair(pairs, "before", b"yes")?;
    }
    Ok(())
}

/// Adds a pair of a key and its text.
fn add_pair<'a>(
    pairs: &mut Vec<&'a [u8]>,
    key: &'static str,
    text: &'a [u8],
) -> Result<(), AllocError> {
    pairs.push(key.as_bytes())?;
    pairs.push(text)?;
    Ok(())
}

/// Turns a fault of a page into a fault of the call. It is about the executions, the argument that names a version, or another
/// file.
pub(crate) fn page_fault(fault: PageFault, executions: About, version: About) -> Fault {
    match fault {
        PageFault::Drawing(fault) => drawing_fault(fault, version, About::Word(0)),
        PageFault::Trades(fault) => trades_fault(fault, executions),
    }
}
