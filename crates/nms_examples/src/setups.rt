//! The setups of the runs: the built-in one, and a wide one of 16 participants in 200 symbols.

use crate::Failed;
use crate::lines::or_failed;
use nms_engine::SETUP_K;
use nms_fees::{Setup, read_setup};
use std::alloc::{AllocError, Global};

/// How many participants the wide setup has.
pub(crate) const PARTICIPANTS: u64 = 16;

/// How many symbols the wide setup has.
pub(crate) const SYMBOLS: u64 = 200;

/// The built-in setup.
pub(crate) fn built_in(alloc: Global) -> Result<Setup, Failed> {
    or_failed(read_setup(alloc, SETUP_K))
}

/// The wide setup, with a given limit of the tape, room in the queue and number of desks.
pub(crate) fn wide(alloc: Global, tape: u32, queue: u16, desks: u8) -> Result<Setup, Failed> {
    let mut text = String::new(alloc);
    or_failed(write_wide(&mut text, tape, queue, desks))?;
    or_failed(read_setup(alloc, text.as_str()))
}

/// Writes the text of the wide setup.
fn write_wide(text: &mut String, tape: u32, queue: u16, desks: u8) -> Result<(), AllocError> {
    write!(
        text,
        "tape_limit = {tape}\nqueue = {queue}\ndesks = {desks}\n"
    )?;
    for place in 0..PARTICIPANTS {
        write!(
            text,
            "[[participant]]\nname = \"P{place}\"\nfeed = \"A\"\nfee = 0\nrate = 0\n"
        )?;
    }
    for place in 0..SYMBOLS {
        write!(text, "[[symbol]]\nname = \"S{place}\"\nlot = 100\n")?;
    }
    Ok(())
}
