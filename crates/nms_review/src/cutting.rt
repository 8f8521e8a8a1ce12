//! The option `--shards` of `import`. It cuts a market's rows, sorted by symbol, into shards of four files each.
ghost use Rattle.std.specs.Prelude.{◌≤◌};
ghost use Rattle.nms_shards.specs.declared.TheConstants.{LEAST_LIMIT};

use crate::answers::Answers;
use crate::call::{Call, Host};
use crate::fault::{About, Fault, Output};
use crate::importing::{Kept, too_long};
use crate::notices::{refuse_columns, refuse_map};
use crate::outputs::{SHARD, check_outputs, create, flush, publish_shards, remove_parts};
use crate::request::{Import, Path};
use crate::vendor::{Rows, fault_in, open_vendor};
use csv::ByteRecord;
use nms_import::{Finding, ImportFault, Kind, MapFault, Mapping, Order, RowColumns, Wrong};
use nms_shards::{
    Cutting, LEAST_LIMIT, Shard, begin_shard, import_shard, write_listed, write_setup,
};
use nms_show::{Ending, Form, Item, SafeText, write_line};
use std::alloc::AllocError;
use std::io::Write;

/// The shard that is being written, and what is kept from one of the vendor's files for the next.
#[derive(Drop)]
struct Shards<'a, T, F> {
    call: &'a Call<'a, T>,
    import: &'a Import<'a>,
    kept: Kept<'a, F>,
    cutting: Cutting,
    changes: Answers<F>,
    times: Answers<F>,
    row: ByteRecord,
    text: Vec<u8>,
    /// The number of shards that were begun.
    shards: u64,
    /// The number of opening changes in all shards that were begun.
    openings: u64,
}

/// Cuts the rows of the files into shards, and reports the counts.
pub(crate) fn cut_files<T: Host, W: Write>(
    call: &Call<'_, T>,
    import: &Import<'_>,
    mapping: &Mapping,
    answers: &mut W,
) -> Result<Ending, Fault> {
    if mapping.order != Order::Symbol {
        return refuse_order(call, import);
    }
    if call.setup.tape_limit() < LEAST_LIMIT {
        return Err(Fault::usage(
            About::Value("setup"),
            "a setup with a tape_limit of 66 or more",
        ));
    }
    check_outputs(call, import.out, 1, &SHARD)?;
    let (ended, shards) = match begin(call, import, mapping) {
        Ok(mut job) => (job.run(answers), job.shards),
        Err(fault) => (Err(fault), 1),
    };
    for before in 0..shards {
        remove_parts(call, import.out, before + 1, &SHARD);
    }
    ended
}

/// Reports that the mapping's order is not by symbol.
fn refuse_order<T: Host>(call: &Call<'_, T>, import: &Import<'_>) -> Result<Ending, Fault> {
    let fault = MapFault::Refused(Finding {
        table: "time",
        key: "order",
        word: None,
        wrong: Wrong::BadValue,
        expected: "\"symbol\" with --shards: rows sorted by symbol",
    });
    refuse_map(call, import.map, Kind::Quotes, &fault)
}

/// Creates the files of the first shard under temporary names, and prepares the import.
fn begin<'a, T: Host>(
    call: &'a Call<'a, T>,
    import: &'a Import<'a>,
    mapping: &'a Mapping,
) -> Result<Shards<'a, T, T::File>, Fault>
    requires room { LEAST_LIMIT ≤ call.now.setup.now.tape_limit }
{
    let changes = create(call, import.out, of_shard(1, ".changes"))?;
    let times = create(call, import.out, of_shard(1, ".times"))?;
    let kept = match Kept::new(call, import, mapping, 1) {
        Ok(kept) => kept,
        Err(fault) => return Err(fault),
    };
    match Cutting::new(call.alloc(), call.setup) {
        Ok(cutting) => Ok(Shards {
            call,
            import,
            kept,
            cutting,
            changes,
            times,
            row: ByteRecord::new(call.alloc()),
            text: Vec::new(call.alloc()),
            shards: 1,
            openings: 0,
        }),
        Err(fault) => Err(fault_in(fault, import.map.about)),
    }
}

impl<'a, T: Host> Shards<'a, T, T::File> {
    /// Cuts the rows of all files, and reports the counts.
    fn run<W: Write>(&mut self, answers: &mut W) -> Result<Ending, Fault> {
        let (call, import) = (self.call, self.import);
        for file in &import.files {
            let mut rows = open_vendor(call, *file, self.kept.mapping.file)?;
            let taken = self.take_rows(*file, &mut rows);
            rows.close();
            self.kept.told.errors.show(call);
            let ending = taken?;
            if !matches!(ending, Ending::Done) {
                return Ok(ending);
            }
        }
        self.finish_shard()?;
        self.kept.told.errors.finish()?;
        publish_shards(call, import, self.shards)?;
        write_shards(self.shards, self.openings, answers)?;
        self.kept.report(call, import, answers)
    }

    /// Cuts the rows of a file.
    fn take_rows(
        &mut self,
        file: Path<'a>,
        rows: &mut Rows<'_, T, T::File>,
    ) -> Result<Ending, Fault> {
        let (call, mapping) = (self.call, self.kept.mapping);
        let columns = match mapping.row_columns(call.alloc(), &rows.names) {
            Ok(columns) => columns,
            Err(fault) => return refuse_columns(call, file, &fault, &rows.names),
        };
        let was_short = self.kept.begin_file(file)?;
        match self.cut_rows(&columns, file, rows) {
            Ok(()) => self.kept.end_file(call, file, was_short),
            Err(fault) => Err(fault),
        }
    }

    /// Cuts the rows of a file whose columns were found.
    fn cut_rows(
        &mut self,
        columns: &RowColumns,
        file: Path<'_>,
        rows: &mut Rows<'_, T, T::File>,
    ) -> Result<(), Fault> {
        let (call, import, mapping) = (self.call, self.import, self.kept.mapping);
        for part in 0..u64::MAX {
            let Kept {
                notes,
                told,
                tally,
                ..
            } = &mut self.kept;
            let stopped = import_shard(
                columns,
                &mapping.meanings,
                call.setup.roster(),
                import.rows,
                part > 0,
                &mut self.cutting,
                &mut self.row,
                &mut self.text,
                &mut rows.reader,
                &mut self.changes,
                &mut self.times,
                notes,
                told,
                tally,
            );
            match stopped {
                Ok(Shard::GoesOn) => return Ok(()),
                Ok(Shard::Full) => self.begin_next()?,
                Err(fault) => {
                    return Err(fault_in(fault, file.about).in_output(of_shard(self.shards, "")));
                }
            }
        }
        Err(fault_in(ImportFault::TooLong, file.about))
    }

    /// Ends the shard and begins the next one, with its opening changes.
    fn begin_next(&mut self) -> Result<(), Fault> {
        self.finish_shard()?;
        let (call, import) = (self.call, self.import);
        let shard = sum_of(self.shards, 1)?;
        check_outputs(call, import.out, shard, &SHARD)?;
        self.shards = shard;
        self.changes = create(call, import.out, of_shard(shard, ".changes"))?;
        self.times = create(call, import.out, of_shard(shard, ".times"))?;
        let opened = begin_shard(
            call.setup.roster(),
            import.rows,
            &mut self.cutting,
            &mut self.text,
            &mut self.changes,
            &mut self.times,
        )
        .map_err(|fault| fault_in(fault, About::Nothing).in_output(of_shard(shard, "")))?;
        self.openings = sum_of(self.openings, opened)?;
        Ok(())
    }

    /// Writes out the changes and times that the shard still keeps in memory, then its symbols and its setup.
    fn finish_shard(&mut self) -> Result<(), Fault> {
        let (call, shard) = (self.call, self.shards);
        flush(&mut self.changes, of_shard(shard, ".changes"))?;
        flush(&mut self.times, of_shard(shard, ".times"))?;
        let mut text = SafeText::new(call.alloc(), Form::Text { colours: false });
        self.write_texts(&mut text)
    }

    /// Writes the symbols of the shard and its setup.
    fn write_texts(&mut self, text: &mut SafeText) -> Result<(), Fault> {
        let (call, out, shard) = (self.call, self.import.out, self.shards);
        let mut symbols = create(call, out, of_shard(shard, ".symbols"))?;
        let written = write_listed(text, &self.cutting);
        finish(&mut symbols, of_shard(shard, ".symbols"), written, text)?;
        let mut setup = create(call, out, of_shard(shard, ".toml"))?;
        let written = write_setup(text, call.setup, &self.cutting);
        finish(&mut setup, of_shard(shard, ".toml"), written, text)
    }
}

/// The file of a shard with the given number, and the given end of its name.
fn of_shard(shard: u64, end: &'static str) -> Output {
    Output { shard, end }
}

/// The sum of two counts.
fn sum_of(count: u64, more: u64) -> Result<u64, Fault> {
    count.checked_add(more).ok_or(too_long())
}

/// Writes a text to its file. It is a fault if there was no memory to make the text.
fn finish<W: Write>(
    file: &mut W,
    output: Output,
    written: Result<(), AllocError>,
    text: &mut SafeText,
) -> Result<(), Fault> {
    if written.is_err() {
        return Err(Fault::no_memory());
    }
    match text.pass_on(file) {
        Ok(()) => flush(file, output),
        Err(_) => Err(Fault::unwritten(About::Out(output))),
    }
}

/// Writes the number of shards and the number of their opening changes, which were written in addition to those of the vendor's
/// rows.
fn write_shards<W: Write>(shards: u64, openings: u64, answers: &mut W) -> Result<(), Fault> {
    write_line(
        answers,
        Form::Text { colours: false },
        &[
            Item::Number(shards),
            Item::Text(if shards == 1 { " shard, " } else { " shards, " }),
            Item::Number(openings),
            Item::Text(" opening changes"),
        ],
    )?;
    Ok(())
}
