//! Where an import shows the rows that it refuses: on standard error, or in the file that `--refused` names.
use crate::answers::Answers;
use crate::call::{Call, Host};
use crate::fault::{About, Fault};
use crate::notices::show_kept;
use crate::outputs::create_rows;
use crate::request::Import;
use nms_import::{Meanings, Telling};
use nms_show::Form;
use std::io;
use std::io::Write;

/// The option `--refused`, which names the file for refused rows.
const OPTION: &str = "refused";

/// The place at which refused rows are shown.
#[derive(Drop)]
pub(crate) enum RefusedRows<F> {
    /// Refused rows are kept in memory, and shown on standard error later.
    Kept(Vec<u8>),
    /// Refused rows are written to a file. The flag is false once a write has failed.
    Filed(Answers<F>, bool),
}

/// Chooses where and in which form an import shows refused rows: as text on standard error, or as objects in the file of
/// `--refused`.
pub(crate) fn refused_rows<T: Host>(
    call: &Call<'_, T>,
    import: &Import<'_>,
    meanings: &Meanings,
) -> Result<(Telling, RefusedRows<T::File>), Fault> {
    let Some(file) = import.refused else {
        let telling = Telling::new(call.alloc(), Form::Text { colours: false }, meanings);
        return Ok((telling, RefusedRows::Kept(Vec::new(call.alloc()))));
    };
    let telling = Telling::new(call.alloc(), Form::Json, meanings);
    match create_rows(call, file) {
        Ok(answers) => Ok((telling, RefusedRows::Filed(answers, true))),
        Err(fault) => Err(fault),
    }
}

impl<F: Write> RefusedRows<F> {
    /// Shows the refused rows that were kept for standard error.
    pub(crate) fn show<T: Host>(&mut self, call: &Call<'_, T>) {
        if let RefusedRows::Kept(text) = self {
            show_kept(call, text);
        }
    }

    /// Writes the last refused rows to the file, if there is one. E2 is returned if the file did not take all rows.
    pub(crate) fn finish(&mut self) -> Result<(), Fault> {
        match self {
            RefusedRows::Kept(_) => Ok(()),
            RefusedRows::Filed(answers, whole) => match answers.flush() {
                Ok(()) if *whole => Ok(()),
                Ok(()) | Err(_) => Err(Fault::unwritten(About::Value(OPTION))),
            },
        }
    }
}

impl<F: Write> Write for RefusedRows<F> {
    fn write(&mut self, bytes: &[u8]) -> io::Result<usize> {
        match self {
            RefusedRows::Kept(text) => text.write(bytes),
            RefusedRows::Filed(answers, whole) => match answers.write(bytes) {
                Ok(count) => Ok(count),
                Err(error) => {
                    *whole = false;
                    Err(error)
                }
            },
        }
    }

    fn flush(&mut self) -> io::Result<()> {
        match self {
            RefusedRows::Kept(text) => text.flush(),
            RefusedRows::Filed(answers, _) => answers.flush(),
        }
    }
}
