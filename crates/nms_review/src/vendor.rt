//! A vendor's file, whose rows are read one after another, whether they are accepted or not.
use crate::call::{Call, Host};
use crate::fault::{About, Fault};
use crate::request::Path;
use crate::source::Source;
use csv::{ByteRecord, Reader};
use nms_codes::Code;
use nms_import::{
    FileForm, ImportFault, MapFault, RowSource, Table, document_of, next_row, open_rows,
};
use std::alloc::Global;
use std::io::Read;
use std::{io, str};

/// A vendor's file that is being read.
#[derive(Drop)]
pub(crate) struct Rows<'a, T, R> {
    /// The file's first row, if it names the columns. Otherwise the row is empty.
    pub(crate) names: ByteRecord,
    /// The reader of the rows after the first one.
    pub(crate) reader: Reader<RowSource<Source<'a, T, R>>>,
}

/// Opens a vendor's file.
pub(crate) fn open_vendor<'a, T: Host>(
    call: &Call<'a, T>,
    file: Path<'_>,
    form: FileForm,
) -> Result<Rows<'a, T, T::File>, Fault> {
    let source = call.open(file)?;
    let mut reader = open_rows(call.alloc(), form.delimiter, form.quotes, source);
    let mut names = ByteRecord::new(call.alloc());
    if form.header {
        next_row(&mut reader, &mut names).map_err(|fault| fault_in(fault, file.about))?;
    }
    Ok(Rows { names, reader })
}

impl<T: Host, R: Read + Drop> Rows<'_, T, R> {
    /// Ends the reading, and removes the line of progress. Returns the system's reason, if the file could not be read to its end.
    pub(crate) fn close(self) -> Option<io::Error> {
        let Rows { names: _, reader } = self;
        let mut source = reader.into_inner().into_source();
        source.clear();
        source.failed()
    }
}

/// The document of a mapping.
pub(crate) fn map_document(alloc: Global, bytes: &[u8]) -> Result<Table, MapFault<'static>> {
    match str::from_utf8(bytes) {
        Ok(text) => document_of(alloc, text),
        Err(_) => Err(MapFault::NotToml { line: 1 }),
    }
}

/// A fault of an import, in the file that an argument names.
pub(crate) fn fault_in(fault: ImportFault, about: About) -> Fault {
    let code = match fault {
        ImportFault::ReadFault => Code::E1,
        ImportFault::WriteFault => Code::E2,
        ImportFault::TooLong => Code::E3Rows,
        ImportFault::NoMemory => Code::E4,
    };
    Fault::of(code, about)
}
