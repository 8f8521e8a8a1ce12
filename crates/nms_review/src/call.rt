//! A call that is served, and what every subcommand does with it: it opens and reads files, and finds what arguments name.
ghost use Rattle.std.specs.Prelude.{◌<◌, IfOk, IfSome, length};

use crate::fault::{About, Fault};
use crate::request::{Path, Symbol};
use crate::screen::Screen;
use crate::source::Source;
use crate::words::Words;
use nms_codes::Code;
use nms_fees::{Setup, feed_named};
use nms_quote::{Feed, Sym};
use nms_show::Form;
use nms_stream::Tape;
use nms_times::{Times, read_times};
use std::alloc::Global;
use std::fs;
use std::rt::Files;
use std::time::Clock;

/// What a host has to offer, so that a call can be served.
pub(crate) trait Host: AllocGlobal + Clock + Clone + Drop + Eprint + Files {}

impl<T: AllocGlobal + Clock + Clone + Drop + Eprint + Files> Host for T {}

/// A call that is served.
#[derive(Drop)]
pub(crate) struct Call<'a, T> {
    pub(crate) rt: &'a T,
    pub(crate) screen: Screen,
    pub(crate) words: &'a Words<'a>,
    /// The setup that the arguments name, or the built-in one.
    pub(crate) setup: &'a Setup,
}

impl<'a, T: Host> Call<'a, T> {
    /// The allocator.
    pub(crate) fn alloc(&self) -> Global {
        self.rt.alloc()
    }

    /// The form of the answers.
    pub(crate) fn form(&self) -> Form {
        if self.words.has("json") {
            Form::Json
        } else {
            Form::Text {
                colours: self.screen.answers,
            }
        }
    }

    /// The bytes of a file.
    pub(crate) fn read(&self, file: Path<'_>) -> Result<Vec<u8>, Fault> {
        fs::read(self.rt, file.name).map_err(|error| Fault::unread(error, file.about))
    }

    /// The bytes of a file, if one is named.
    pub(crate) fn read_given(&self, file: Option<Path<'_>>) -> Result<Option<Vec<u8>>, Fault> {
        match file {
            Some(file) => Ok(Some(self.read(file)?)),
            None => Ok(None),
        }
    }

    /// A file that is opened to be read.
    pub(crate) fn open(&self, file: Path<'_>) -> Result<Source<'a, T, T::File>, Fault> {
        match fs::open(self.rt, file.name) {
            Ok(opened) => Ok(Source::new(self.rt, self.screen, opened)),
            Err(error) => Err(Fault::unread(error, file.about)),
        }
    }

    /// The changes of a file, under the setup of the call.
    pub(crate) fn read_tape(&self, file: Path<'_>) -> Result<Tape<'a>, Fault> {
        self.read_tape_under(self.setup, file)
    }

    /// The changes of a file, under a setup.
    pub(crate) fn read_tape_under<'s>(
        &self,
        setup: &'s Setup,
        file: Path<'_>,
    ) -> Result<Tape<'s>, Fault> {
        let mut source = self.open(file)?;
        let read = Tape::read(self.alloc(), setup, &mut source);
        source.clear();
        match read {
            Ok(tape) => Ok(tape),
            Err(fault) => {
                let fault = Fault::of(Code::of_changes(fault), file.about);
                Err(fault.with_reason(source.failed()))
            }
        }
    }

    /// The times in the text of a file.
    pub(crate) fn times_in(&self, text: &[u8], about: About) -> Result<Times, Fault> {
        read_times(self.alloc(), text).map_err(|fault| Fault::of_times(fault, about))
    }

    /// The times of a file, if one is named.
    pub(crate) fn read_times(&self, file: Option<Path<'_>>) -> Result<Option<Times>, Fault> {
        let Some(file) = file else {
            return Ok(None);
        };
        let text = self.read(file)?;
        Ok(Some(self.times_in(&text, file.about)?))
    }

    /// The symbol of the setup that an argument names.
    pub(crate) fn sym(&self, symbol: Symbol<'_>) -> Result<Sym, Fault>
        ensures { IfOk result (λ sym. sym < length self.now.setup.now.roster.syms) }
    {
        match self.setup.roster().find_sym(symbol.name.as_bytes()) {
            Some(sym) => Ok(sym),
            None => Err(Fault::usage(symbol.about, "it is no symbol of the setup; capitals count")),
        }
    }

    /// The symbol of the setup that an argument names, if there is one.
    pub(crate) fn sym_given(&self, symbol: Option<Symbol<'_>>) -> Result<Option<Sym>, Fault>
        ensures { IfOk result (λ given. IfSome given (λ sym. sym < length self.now.setup.now.roster.syms)) }
    {
        let Some(symbol) = symbol else {
            return Ok(None);
        };
        match self.sym(symbol) {
            Ok(sym) => Ok(Some(sym)),
            Err(fault) => Err(fault),
        }
    }

    /// The feed of the setup that a letter names; A if there is no letter.
    pub(crate) fn feed(&self, letter: Option<&str>) -> Result<Feed, Fault> {
        match feed_named(letter.unwrap_or("A")) {
            Some(feed) if feed.place() < self.setup.feeds() => Ok(feed),
            Some(_) | None => Err(Fault::usage(
                About::Value("feed"),
                "it is the letter of no feed of the setup",
            )),
        }
    }
}
