//! The subcommand `import`: reads a vendor's files one after another, and writes their changes to three files.
use crate::adding::import_added;
use crate::answers::Answers;
use crate::call::{Call, Host};
use crate::cutting::cut_files;
use crate::fault::{About, Fault, Output};
use crate::importing_trades::serve_trade_map;
use crate::notices::{note_odd_hours, note_setup, note_short, refuse_columns, refuse_map};
use crate::outputs::{QUOTES, check_outputs, create, flush, publish, remove_parts, remove_rows};
use crate::refused_rows::{RefusedRows, refused_rows};
use crate::request::{Import, Path};
use crate::vendor::{Rows, fault_in, map_document, open_vendor};
use nms_codes::Code;
use nms_import::{
    Guard, ImportFault, Kind, Left, Mapping, Notes, Sums, Tally, Told, Work, import_rows,
    kind_said, mapping_of, write_symbols, write_tally,
};
use nms_import_trades::is_of_trades;
use nms_show::Ending;
use std::io::Write;

const CHANGES: Output = Output {
    shard: 0,
    end: ".changes",
};

const TIMES: Output = Output {
    shard: 0,
    end: ".times",
};

const SYMBOLS: Output = Output {
    shard: 0,
    end: ".symbols",
};

/// Makes changes, or executions, from a vendor's files. The written files are complete even if a guard reports a doubt. After a
/// failure the files of an earlier import are as they were.
pub(crate) fn serve_import<T: Host, W: Write>(
    call: &Call<'_, T>,
    import: &Import<'_>,
    answers: &mut W,
) -> Result<Ending, Fault> {
    let ended = import_by_map(call, import, answers);
    remove_rows(call, import.refused);
    ended
}

/// Makes changes, or executions, as the mapping says.
fn import_by_map<T: Host, W: Write>(
    call: &Call<'_, T>,
    import: &Import<'_>,
    answers: &mut W,
) -> Result<Ending, Fault> {
    let text = call.read(import.map)?;
    let document = match map_document(call.alloc(), &text) {
        Ok(document) => document,
        Err(fault) => return refuse_map(call, import.map, Kind::Quotes, &fault),
    };
    if is_of_trades(&document) {
        return serve_trade_map(call, import, &document, answers);
    }
    match mapping_of(call.alloc(), &document) {
        Ok(mapping) => import_quotes(call, import, &mapping, answers),
        Err(fault) => refuse_map(call, import.map, kind_said(&document), &fault),
    }
}

/// What is kept about rows of quotes from one file to the next.
#[derive(Drop)]
pub(crate) struct Kept<'a, F> {
    pub(crate) mapping: &'a Mapping,
    pub(crate) notes: Notes,
    pub(crate) told: Told<'a, RefusedRows<F>>,
    pub(crate) tally: Tally,
}

impl<'a, F: Write + Drop> Kept<'a, F> {
    /// An import's state before its first row, with room for n symbols.
    pub(crate) fn new<T: Host<File = F>>(
        call: &Call<'_, T>,
        import: &Import<'_>,
        mapping: &'a Mapping,
        symbols: usize,
    ) -> Result<Kept<'a, F>, Fault> {
        let (telling, rows) = refused_rows(call, import, &mapping.meanings)?;
        match Notes::of_symbols(call.alloc(), symbols, mapping.order, mapping.file.count) {
            Ok(notes) => Ok(Kept {
                mapping,
                notes,
                told: Told::new(telling, rows),
                tally: Tally::none(),
            }),
            Err(_) => Err(Fault::no_memory()),
        }
    }

    /// The sums of the rows so far.
    fn sums(&self) -> Result<Sums, Fault> {
        match self.tally.sums() {
            Some(sums) => Ok(sums),
            None => Err(too_long()),
        }
    }

    /// Begins a vendor's file. Returns whether the last line of an earlier file did not count its rows.
    pub(crate) fn begin_file(&mut self, file: Path<'a>) -> Result<bool, Fault> {
        let rows = self.sums()?.rows;
        self.told.enter(file.name);
        self.notes.begin_file(rows);
        Ok(self.notes.is_short())
    }

    /// Ends a file all of whose rows were taken.
    pub(crate) fn end_file<T: Host>(
        &mut self,
        call: &Call<'_, T>,
        file: Path<'_>,
        was_short: bool,
    ) -> Result<Ending, Fault> {
        let rows = self.sums()?.rows;
        self.notes.end_file(rows);
        note_short(call, file, was_short, self.notes.is_short())?;
        Ok(Ending::Done)
    }

    /// Reports the counts, and the doubts about the import.
    pub(crate) fn report<T: Host, W: Write>(
        &self,
        call: &Call<'_, T>,
        import: &Import<'_>,
        answers: &mut W,
    ) -> Result<Ending, Fault> {
        let sums = self.sums()?;
        let (mapping, notes, tally) = (self.mapping, &self.notes, &self.tally);
        let Some(left) = Left::of(&sums, notes) else {
            return Err(too_long());
        };
        write_tally(answers, &mapping.meanings, tally, &sums, &left).map_err(|fault| fault_in(
            fault,
            import.map.about,
        ))?;
        if tally.unknown_participant > 0 || tally.unknown_symbol > 0 || tally.other_symbol > 0 {
            let some_refused = tally.unknown_participant > 0 || tally.unknown_symbol > 0;
            note_setup(call, import, some_refused)?;
        }
        if notes.are_hours_odd() {
            note_odd_hours(call)?;
        }
        match Guard::of(&sums, notes) {
            Some(guard) => Err(Fault::of(code_of(guard), About::Nothing)),
            None => Ok(Ending::Done),
        }
    }
}

/// The fault that there are more rows than can be counted.
pub(crate) fn too_long() -> Fault {
    fault_in(ImportFault::TooLong, About::Word(1))
}

/// The three files in which changes are written, and what is kept between the vendor's files.
#[derive(Drop)]
struct Quotes<'a, T, F> {
    call: &'a Call<'a, T>,
    import: &'a Import<'a>,
    kept: Kept<'a, F>,
    work: Work,
    changes: Answers<F>,
    times: Answers<F>,
    symbols: Answers<F>,
}

/// Makes changes by a mapping, in three files or in shards.
fn import_quotes<T: Host, W: Write>(
    call: &Call<'_, T>,
    import: &Import<'_>,
    mapping: &Mapping,
    answers: &mut W,
) -> Result<Ending, Fault> {
    if import.shards {
        return cut_files(call, import, mapping, answers);
    }
    if import.adds {
        return import_added(call, import, mapping, answers);
    }
    check_outputs(call, import.out, 0, &QUOTES)?;
    let ended = import_under(call, import, mapping, &QUOTES, answers);
    remove_parts(call, import.out, 0, &QUOTES);
    ended
}

/// Imports quotes under the setup of the call. The written files, whose ends are listed in `ends`, then get their final names.
pub(crate) fn import_under<T: Host, W: Write>(
    call: &Call<'_, T>,
    import: &Import<'_>,
    mapping: &Mapping,
    ends: &[&'static str],
    answers: &mut W,
) -> Result<Ending, Fault> {
    match begin(call, import, mapping) {
        Ok(mut quotes) => quotes.run(ends, answers),
        Err(fault) => Err(fault),
    }
}

/// Creates the files of changes, times and symbols under temporary names, and prepares the import.
fn begin<'a, T: Host>(
    call: &'a Call<'a, T>,
    import: &'a Import<'a>,
    mapping: &'a Mapping,
) -> Result<Quotes<'a, T, T::File>, Fault> {
    let changes = create(call, import.out, CHANGES)?;
    let times = create(call, import.out, TIMES)?;
    let symbols = create(call, import.out, SYMBOLS)?;
    match Kept::new(call, import, mapping, call.setup.roster().syms()) {
        Ok(kept) => Ok(Quotes {
            call,
            import,
            kept,
            work: Work::new(call.alloc()),
            changes,
            times,
            symbols,
        }),
        Err(fault) => Err(fault),
    }
}

impl<'a, T: Host> Quotes<'a, T, T::File> {
    /// Makes changes of all files, writes the symbols, and reports the counts and the doubts about the import.
    fn run<W: Write>(&mut self, ends: &[&'static str], answers: &mut W) -> Result<Ending, Fault> {
        let (call, import) = (self.call, self.import);
        for file in &import.files {
            let mut rows = open_vendor(call, *file, self.kept.mapping.file)?;
            let taken = self.take_rows(*file, &mut rows);
            rows.close();
            self.kept.told.errors.show(call);
            let ending = taken?;
            if !matches!(ending, Ending::Done) {
                return Ok(ending);
            }
        }
        write_symbols(&mut self.symbols, call.setup.roster(), &self.kept.notes).map_err(
            |fault| fault_in(fault, import.map.about).in_output(SYMBOLS),
        )?;
        flush(&mut self.changes, CHANGES)?;
        flush(&mut self.times, TIMES)?;
        flush(&mut self.symbols, SYMBOLS)?;
        self.kept.told.errors.finish()?;
        publish(call, import.out, import.refused, ends)?;
        self.kept.report(call, import, answers)
    }

    /// Makes changes from the rows of a file.
    fn take_rows(
        &mut self,
        file: Path<'a>,
        rows: &mut Rows<'_, T, T::File>,
    ) -> Result<Ending, Fault> {
        let (call, import, mapping) = (self.call, self.import, self.kept.mapping);
        let columns = match mapping.row_columns(call.alloc(), &rows.names) {
            Ok(columns) => columns,
            Err(fault) => return refuse_columns(call, file, &fault, &rows.names),
        };
        let was_short = self.kept.begin_file(file)?;
        let Kept {
            notes,
            told,
            tally,
            ..
        } = &mut self.kept;
        let imported = import_rows(
            &columns,
            &mapping.meanings,
            call.setup.roster(),
            import.rows,
            &mut self.work,
            &mut rows.reader,
            &mut self.changes,
            &mut self.times,
            notes,
            told,
            tally,
        );
        match imported {
            Ok(()) => self.kept.end_file(call, file, was_short),
            Err(fault) => Err(fault_in(fault, file.about).in_output(Output { shard: 0, end: "" })),
        }
    }
}

/// The code of the reason for which an import is doubted.
fn code_of(guard: Guard) -> Code {
    match guard {
        Guard::MostRefused => Code::I1,
        Guard::NoWholeLot => Code::I2,
        Guard::TimesFall => Code::I3,
        Guard::CutShort => Code::I4,
        Guard::Nothing => Code::I5,
    }
}
