//! The subcommand `import` with a mapping of trades: reads a vendor's files one after another, and writes their executions to
//! one file.
use crate::answers::Answers;
use crate::call::{Call, Host};
use crate::fault::{About, Fault, Output};
use crate::importing::too_long;
use crate::notices::{note_setup, note_short, refuse_columns, refuse_map};
use crate::outputs::{TRADES, check_outputs, create, flush, publish, remove_parts};
use crate::refused_rows::{RefusedRows, refused_rows};
use crate::request::{Import, Path};
use crate::vendor::{Rows, fault_in, open_vendor};
use nms_codes::Code;
use nms_import::{Kind, Table};
use nms_import_trades::{
    TradeMapping, TradeSums, TradeTally, TradeTold, TradeWork, import_trades, trade_mapping_of,
    write_trade_tally,
};
use nms_show::Ending;
use std::io::Write;

const EXECUTIONS: Output = Output {
    shard: 0,
    end: ".executions",
};

/// The file in which executions are written, and what is kept from one of the vendor's files for the next.
#[derive(Drop)]
struct Executions<'a, T, F> {
    call: &'a Call<'a, T>,
    import: &'a Import<'a>,
    mapping: &'a TradeMapping,
    executions: Answers<F>,
    work: TradeWork,
    told: TradeTold<'a, RefusedRows<F>>,
    tally: TradeTally,
}

/// Makes executions from a vendor's files, by the mapping of a document.
pub(crate) fn serve_trade_map<T: Host, W: Write>(
    call: &Call<'_, T>,
    import: &Import<'_>,
    document: &Table,
    answers: &mut W,
) -> Result<Ending, Fault> {
    if import.rows || import.shards || import.adds {
        return Err(Fault::usage(
            About::Nothing,
            "a mapping of trades takes no --rows, no --shards and no --add-symbols",
        ));
    }
    match trade_mapping_of(call.alloc(), document) {
        Ok(mapping) => import_executions(call, import, &mapping, answers),
        Err(fault) => refuse_map(call, import.map, Kind::Trades, &fault),
    }
}

/// Makes executions by a mapping.
fn import_executions<T: Host, W: Write>(
    call: &Call<'_, T>,
    import: &Import<'_>,
    mapping: &TradeMapping,
    answers: &mut W,
) -> Result<Ending, Fault> {
    check_outputs(call, import.out, 0, &TRADES)?;
    let ended = match begin(call, import, mapping) {
        Ok(mut executions) => executions.run(answers),
        Err(fault) => Err(fault),
    };
    remove_parts(call, import.out, 0, &TRADES);
    ended
}

/// Creates the file of executions under its temporary name, and prepares the report on refused rows.
fn begin<'a, T: Host>(
    call: &'a Call<'a, T>,
    import: &'a Import<'a>,
    mapping: &'a TradeMapping,
) -> Result<Executions<'a, T, T::File>, Fault> {
    let executions = create(call, import.out, EXECUTIONS)?;
    match refused_rows(call, import, &mapping.meanings.common) {
        Ok((telling, rows)) => Ok(Executions {
            call,
            import,
            mapping,
            executions,
            work: TradeWork::new(call.alloc(), mapping.file.count),
            told: TradeTold::new(telling, rows),
            tally: TradeTally::none(),
        }),
        Err(fault) => Err(fault),
    }
}

impl<'a, T: Host> Executions<'a, T, T::File> {
    /// Makes executions from all files, and reports the counts and the doubts about the import.
    fn run<W: Write>(&mut self, answers: &mut W) -> Result<Ending, Fault> {
        let (call, import) = (self.call, self.import);
        for file in &import.files {
            let mut rows = open_vendor(call, *file, self.mapping.file)?;
            let taken = self.take_rows(*file, &mut rows);
            rows.close();
            self.told.errors.show(call);
            let ending = taken?;
            if !matches!(ending, Ending::Done) {
                return Ok(ending);
            }
        }
        flush(&mut self.executions, EXECUTIONS)?;
        self.told.errors.finish()?;
        publish(call, import.out, import.refused, &TRADES)?;
        let sums = self.sums()?;
        let tally = &self.tally;
        write_trade_tally(answers, tally, &sums)?;
        if tally.unknown_participant > 0 || tally.unknown_symbol > 0 || tally.other_symbol > 0 {
            let some_refused = tally.unknown_participant > 0 || tally.unknown_symbol > 0;
            note_setup(call, import, some_refused)?;
        }
        match doubt_of(&sums, self.work.lasts.short) {
            Some(code) => Err(Fault::of(code, About::Nothing)),
            None => Ok(Ending::Done),
        }
    }

    /// The sums of the rows so far.
    fn sums(&self) -> Result<TradeSums, Fault> {
        match self.tally.sums() {
            Some(sums) => Ok(sums),
            None => Err(too_long()),
        }
    }

    /// Makes executions from the rows of a file.
    fn take_rows(
        &mut self,
        file: Path<'a>,
        rows: &mut Rows<'_, T, T::File>,
    ) -> Result<Ending, Fault> {
        let (call, mapping) = (self.call, self.mapping);
        let columns = match mapping.columns(call.alloc(), &rows.names) {
            Ok(columns) => columns,
            Err(fault) => return refuse_columns(call, file, &fault, &rows.names),
        };
        let before = self.sums()?.rows;
        let was_short = self.work.lasts.short;
        self.told.enter(file.name);
        self.work.lasts.begin_file(before);
        import_trades(
            &columns,
            &mapping.meanings,
            call.setup.roster(),
            &mut self.work,
            &mut rows.reader,
            &mut self.executions,
            &mut self.told,
            &mut self.tally,
        )
        .map_err(|fault| fault_in(fault, file.about).in_output(EXECUTIONS))?;
        let rows = self.sums()?.rows;
        self.work.lasts.end_file(rows);
        note_short(call, file, was_short, self.work.lasts.short)?;
        Ok(Ending::Done)
    }
}

/// The first reason for which the import is doubted. Either most rows were refused, or a last line is absent or counts other
/// rows, or no row made an execution.
fn doubt_of(sums: &TradeSums, is_short: bool) -> Option<Code> {
    if sums.refused > sums.rows / 2 {
        Some(Code::I1)
    } else if is_short {
        Some(Code::I4)
    } else if sums.executions == 0 {
        Some(Code::I5)
    } else {
        None
    }
}
