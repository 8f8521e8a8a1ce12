//! The files by which a run shows its state to other programs.
use crate::serving::Means;
use crate::text::Text;
use std::fs::OpenOptions;
use std::io::Write;
use std::sync::Wait;
use std::{fs, io};

/// A file that a run rewrites. It is written by another name first, so that no reader sees only a part of it.
#[derive(Clone, Copy)]
pub struct Sign<'a> {
    /// The path of the file.
    pub path: &'a str,
    /// The path under which the file is written first: the file's path with `.new` after it.
    pub new: &'a str,
}

/// The files by which a run shows its state.
#[derive(Clone, Copy)]
pub struct Signs<'a> {
    /// A file that says what the run does, rewritten once a second.
    pub status: Option<Sign<'a>>,
    /// A file that is there while the run serves.
    pub ready: Option<Sign<'a>>,
}

impl Sign<'_> {
    /// Replaces the file's content by a text.
    pub(crate) fn write(&self, host: &HostRuntime, text: &[u8]) -> io::Result<()> {
        let mut file = OpenOptions::new()
            .write(true)
            .create(true)
            .truncate(true)
            .open(host, self.new)?;
        file.write_all(text)?;
        fs::rename(host, self.new, self.path)
    }

    /// Removes the file, if it is there.
    pub fn remove(&self, host: &HostRuntime) {
        let _removed = fs::remove_file(host, self.path);
    }

    /// Reports why the file could not be written.
    pub(crate) fn report<R: Wait>(&self, means: &Means<'_, R>, error: &io::Error) {
        let line = Text::of("a file of the run's state could not be written")
            .and_shown(self.path.as_bytes())
            .and(error);
        means.run.teller.tell(means.rt, line);
    }
}
