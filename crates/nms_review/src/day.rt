//! The subcommand `day`: judges a file of executions on the shards of a day. It prints one table, and writes one file of findings.
use crate::answers::Answers;
use crate::call::{Call, Host};
use crate::fault::{About, Fault, Output};
use crate::files::setup_in;
use crate::notices::note_place;
use crate::outputs::{
    DAY, SHARD, check_outputs, create, flush, publish, refuse_read, remove_parts,
};
use crate::request::{DayOf, Path};
use crate::shards::{Shards, shards_in};
use crate::trading::{timing_of, trades_fault};
use nms_codes::Code;
use nms_show::{Ending, Item};
use nms_trades::{Day, DayFault, TradesFault};
use std::io::Write;

const FINDINGS: Output = Output {
    shard: 0,
    end: ".findings.csv",
};

/// Judges a file of executions on the shards of a day. The call is refused if its output would overwrite a file of a shard.
pub(crate) fn serve_day<T: Host, W: Write>(
    call: &Call<'_, T>,
    asked: &DayOf<'_>,
    answers: &mut W,
) -> Result<Ending, Fault> {
    let mut all = Vec::new(call.alloc());
    for folder in &asked.folders {
        for shards in shards_in(call, *folder)? {
            refuse_shards(call, asked, &shards)?;
            all.push(shards).map_err(|_| Fault::no_memory())?;
        }
    }
    check_outputs(call, asked.out, 0, &DAY)?;
    let served = match create(call, asked.out, FINDINGS) {
        Ok(mut findings) => judge_day(call, asked, &all, &mut findings, answers),
        Err(fault) => Err(fault),
    };
    remove_parts(call, asked.out, 0, &DAY);
    served
}

/// Refuses the call if the file of findings would overwrite a file of one of these shards.
fn refuse_shards<T: Host>(
    call: &Call<'_, T>,
    asked: &DayOf<'_>,
    shards: &Shards,
) -> Result<(), Fault> {
    for number in 1..=shards.count {
        let name = name_of(call, shards, number)?;
        for end in SHARD {
            let path = path_of(call, name.as_str(), end)?;
            refuse_read(call, asked.out, FINDINGS, path.as_str())?;
        }
    }
    Ok(())
}

/// Judges the executions shard by shard. The findings get their name last, once the table is written.
fn judge_day<T: Host, W: Write>(
    call: &Call<'_, T>,
    asked: &DayOf<'_>,
    all: &[Shards],
    findings: &mut Answers<T::File>,
    answers: &mut W,
) -> Result<Ending, Fault> {
    let executions = call.read(asked.executions)?;
    let mut day = Day::new(call.alloc());
    for shards in all {
        for number in 1..=shards.count {
            let name = name_of(call, shards, number)?;
            judge_shard(
                call,
                asked,
                shards.about,
                name.as_str(),
                &executions,
                &mut day,
            )?;
        }
    }
    if !day.is_begun() {
        return Err(Fault::usage(About::Word(0), "a folder with the shards of a day"));
    }
    if let Err(fault) = day.write_findings(findings) {
        return Err(fault_of(call, asked, About::Word(0), fault)?.in_output(FINDINGS));
    }
    flush(findings, FINDINGS)?;
    if let Err(fault) = day.write_table(call.form(), answers) {
        return Err(fault_of(call, asked, About::Word(0), fault)?);
    }
    answers
        .flush()
        .map_err(|_| Fault::of(Code::E2, About::Nothing))?;
    publish(call, asked.out, None, &DAY)?;
    Ok(day.ending())
}

/// Judges the executions on one shard. A shard that has no symbols is passed over.
fn judge_shard<T: Host>(
    call: &Call<'_, T>,
    asked: &DayOf<'_>,
    about: About,
    name: &str,
    executions: &[u8],
    day: &mut Day,
) -> Result<(), Fault> {
    let symbols = read_end(call, about, name, ".symbols")?;
    if symbols.is_empty() {
        return Ok(());
    }
    let setup = read_end(call, about, name, ".toml")?;
    let setup = setup_in(call.alloc(), &setup, about);
    let setup = at_end(call, name, ".toml", setup)?;
    let times = read_end(call, about, name, ".times")?;
    let times = at_end(call, name, ".times", call.times_in(&times, about))?;
    let changes = path_of(call, name, ".changes")?;
    let file = Path {
        name: changes.as_str(),
        about,
    };
    let tape = at_end(call, name, ".changes", call.read_tape_under(&setup, file))?;
    let timing = timing_of(
        Some(&times),
        Some(symbols.as_slice()),
        asked.before,
        asked.window,
    );
    let own = name.rsplit('/').next().unwrap_or(name);
    match day.judge_shard(&tape, timing.as_ref(), own, executions) {
        Ok(()) => Ok(()),
        Err(fault) => at_end(call, name, "", Err(fault_of(call, asked, about, fault)?)),
    }
}

/// The name of a shard: the beginning of the paths of its files.
fn name_of<T: Host>(call: &Call<'_, T>, shards: &Shards, number: u64) -> Result<String, Fault> {
    let name = shards.name.as_str();
    format!(in call.alloc(); "{name}.{number}").map_err(|_| Fault::no_memory())
}

/// The path of one file of a shard: the name of the shard, and an end such as `.changes`.
fn path_of<T: Host>(call: &Call<'_, T>, name: &str, end: &str) -> Result<String, Fault> {
    format!(in call.alloc(); "{name}{end}").map_err(|_| Fault::no_memory())
}

/// The bytes of a file of a shard.
fn read_end<T: Host>(
    call: &Call<'_, T>,
    about: About,
    name: &str,
    end: &'static str,
) -> Result<Vec<u8>, Fault> {
    let path = path_of(call, name, end)?;
    let file = Path {
        name: path.as_str(),
        about,
    };
    at_end(call, name, end, call.read(file))
}

/// Passes on the result of reading or judging a file of a shard. Before a fault, a line on standard error names the file.
fn at_end<T: Host, V: Drop>(
    call: &Call<'_, T>,
    name: &str,
    end: &str,
    came: Result<V, Fault>,
) -> Result<V, Fault> {
    if came.is_err() {
        let path = path_of(call, name, end)?;
        note_place(call, "", Item::Bytes(path.as_bytes()))?;
    }
    came
}

/// Turns a fault of the day into a fault of the call, about the executions or a shard. If one record is at fault, its number is
/// shown first.
fn fault_of<T: Host>(
    call: &Call<'_, T>,
    asked: &DayOf<'_>,
    shard: About,
    fault: DayFault,
) -> Result<Fault, Fault> {
    let executions = asked.executions.about;
    let (number, about, expected) = match fault {
        DayFault::Trades(fault) => return Ok(trades_fault_of(fault, executions, shard)),
        DayFault::OtherParts => {
            let expected = "shards with the same participants in the same order";
            return Ok(Fault::usage(shard, expected));
        }
        DayFault::Untimed(number) => (number, executions, "executions with times, as @093000"),
        DayFault::Twice(number) => (
            number,
            shard,
            "shards that have each symbol once at a time: two judge this record",
        ),
        DayFault::Nowhere(number) => (
            number,
            shard,
            "all shards of the day: the one that judges this record is absent",
        ),
    };
    note_place(call, "record ", Item::Number(number))?;
    Ok(Fault::usage(about, expected))
}

/// Turns a fault of the judgement on a shard into a fault of the call, about the file of executions or about the shard.
fn trades_fault_of(fault: TradesFault, executions: About, shard: About) -> Fault {
    match fault {
        TradesFault::Times(fault) | TradesFault::Symbols(fault) => Fault::of_times(fault, shard),
        TradesFault::Changes(_)
        | TradesFault::Executions(_)
        | TradesFault::Board(_)
        | TradesFault::TooLong
        | TradesFault::Show(_) => trades_fault(fault, executions),
    }
}
