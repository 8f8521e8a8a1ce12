//! The files that an import writes. Each is written under a temporary name next to its own, and all get their names at the end.
//! Until then, and after a failure, the files of an earlier import stay as they were. The rows of `--refused` are such a file too,
//! also those of a comparison.
use crate::answers::Answers;
use crate::call::{Call, Host};
use crate::fault::{About, Fault, Output};
use crate::files::{create_file, is_file, is_same, is_special, refuse_used};
use crate::request::{Import, Path};
use std::alloc::Global;
use std::fs;
use std::io::Write;

/// The end of a temporary name.
const PART: &str = ".part";
/// The files of an import of quotes, by the ends of their names. Every reader of an import needs the changes, so they come last.
pub(crate) const QUOTES: [&'static str; 3] = [".symbols", ".times", ".changes"];
/// The file of an import of trades.
pub(crate) const TRADES: [&'static str; 1] = [".executions"];
/// The file of the findings of a day.
pub(crate) const DAY: [&'static str; 1] = [".findings.csv"];
/// The files of a shard, by the ends of their names. Every reader of a shard needs the changes, so they come last.
pub(crate) const SHARD: [&'static str; 4] = [".toml", ".symbols", ".times", ".changes"];

/// Refuses an output if its final or temporary name leads to a file that the call uses, or if it is no plain file.
pub(crate) fn check_outputs<T: Host>(
    call: &Call<'_, T>,
    name: &str,
    shard: u64,
    ends: &[&'static str],
) -> Result<(), Fault> {
    for end in ends {
        let output = Output { shard, end };
        let own = path_of(call.alloc(), name, output, "")?;
        let part = path_of(call.alloc(), name, output, PART)?;
        refuse_used(call, own.as_str(), About::Out(output))?;
        refuse_used(call, part.as_str(), About::Out(output))?;
        refuse_twice(call, own.as_str())?;
        refuse_twice(call, part.as_str())?;
        if is_special(call.rt, own.as_str()) {
            return Err(Fault::unwritten(About::Out(output)));
        }
    }
    Ok(())
}

/// Refuses a file that the call reads although no argument names it, if an output would overwrite it under its final or temporary
/// name.
pub(crate) fn refuse_read<T: Host>(
    call: &Call<'_, T>,
    name: &str,
    output: Output,
    path: &str,
) -> Result<(), Fault> {
    for more in ["", PART] {
        let written = path_of(call.alloc(), name, output, more)?;
        if is_same(call.rt, written.as_str(), path) {
            let expected = "another file than those of the day, which are read here";
            return Err(Fault::usage(About::Value("out"), expected));
        }
    }
    Ok(())
}

/// Refuses a path of `--out` if it is also the file of `--refused`, by its own name or by its temporary name.
fn refuse_twice<T: Host>(call: &Call<'_, T>, path: &str) -> Result<(), Fault> {
    let about = About::Value("refused");
    let Some(name) = call.words.option("refused") else {
        return Ok(());
    };
    let part = part_of(call, Path { name, about })?;
    if is_same(call.rt, path, name) || is_same(call.rt, path, part.as_str()) {
        return Err(Fault::usage(about, "another file than those of --out"));
    }
    Ok(())
}

/// Creates an output under its temporary name. It is refused if its final name leads to a file that the call uses.
pub(crate) fn create<T: Host>(
    call: &Call<'_, T>,
    name: &str,
    output: Output,
) -> Result<Answers<T::File>, Fault> {
    let own = path_of(call.alloc(), name, output, "")?;
    refuse_used(call, own.as_str(), About::Out(output))?;
    refuse_twice(call, own.as_str())?;
    let part = path_of(call.alloc(), name, output, PART)?;
    refuse_twice(call, part.as_str())?;
    match create_file(call, part.as_str(), About::Out(output)) {
        Ok(file) => Answers::new(call.alloc(), file, false).map_err(|_| Fault::no_memory()),
        Err(fault) => Err(fault),
    }
}

/// Creates the file of refused rows under its temporary name. A pipe or a device gets the rows directly.
pub(crate) fn create_rows<T: Host>(
    call: &Call<'_, T>,
    rows: Path<'_>,
) -> Result<Answers<T::File>, Fault> {
    refuse_used(call, rows.name, rows.about)?;
    let part = part_of(call, rows)?;
    let path = if is_special(call.rt, rows.name) {
        rows.name
    } else {
        part.as_str()
    };
    match create_file(call, path, rows.about) {
        Ok(file) => Answers::new(call.alloc(), file, false).map_err(|_| Fault::no_memory()),
        Err(fault) => Err(fault),
    }
}

/// Gives the file of refused rows its final name, if there is such a file and it is a plain file.
pub(crate) fn publish_rows<T: Host>(
    call: &Call<'_, T>,
    rows: Option<Path<'_>>,
) -> Result<(), Fault> {
    let Some(rows) = rows else {
        return Ok(());
    };
    if is_special(call.rt, rows.name) {
        return Ok(());
    }
    let part = part_of(call, rows)?;
    fs::rename(call.rt, part.as_str(), rows.name).map_err(|_| Fault::unwritten(rows.about))
}

/// Removes the file of refused rows if it still has its temporary name, as after a failure.
pub(crate) fn remove_rows<T: Host>(call: &Call<'_, T>, rows: Option<Path<'_>>) {
    let Some(rows) = rows else {
        return;
    };
    if is_special(call.rt, rows.name) {
        return;
    }
    if let Ok(part) = part_of(call, rows) {
        let _ = remove_at(call, part.as_str(), rows.about);
    }
}

/// Writes out the bytes that an output still keeps in memory.
pub(crate) fn flush<W: Write>(writer: &mut W, output: Output) -> Result<(), Fault> {
    writer
        .flush()
        .map_err(|_| Fault::unwritten(About::Out(output)))
}

/// Gives the files of one import their names, also that of its refused rows. Every reader needs the last of `ends`. So its earlier
/// file is removed first and the new one comes last, and no one reads it with files of another import.
pub(crate) fn publish<T: Host>(
    call: &Call<'_, T>,
    name: &str,
    refused: Option<Path<'_>>,
    ends: &[&'static str],
) -> Result<(), Fault> {
    if ends.len() > 1 || refused.is_some() {
        if let Some(end) = ends.last() {
            remove(call, name, Output { shard: 0, end }, "")?;
        }
    }
    publish_rows(call, refused)?;
    for end in ends {
        give_name(call, name, Output { shard: 0, end })?;
    }
    Ok(())
}

/// Gives the files of shards their names, also that of the refused rows, and removes the shards of an earlier import, also those
/// past the last new one. The changes of the first shard are removed first and come last, because the shards can't be read without
/// them.
pub(crate) fn publish_shards<T: Host>(
    call: &Call<'_, T>,
    import: &Import<'_>,
    shards: u64,
) -> Result<(), Fault> {
    let name = import.out;
    remove_shards(call, name, shards)?;
    publish_rows(call, import.refused)?;
    for shard in 1..=shards {
        for end in [".toml", ".symbols", ".times"] {
            give_name(call, name, Output { shard, end })?;
        }
    }
    for shard in (1..=shards).rev() {
        let end = ".changes";
        give_name(call, name, Output { shard, end })?;
    }
    Ok(())
}

/// Removes the changes of all shards of an earlier import, and the other files of those past the last new one.
fn remove_shards<T: Host>(call: &Call<'_, T>, name: &str, shards: u64) -> Result<(), Fault> {
    for shard in 1..u64::MAX {
        let end = ".changes";
        let changes = path_of(call.alloc(), name, Output { shard, end }, "")?;
        if !is_file(call.rt, changes.as_str()) && shard > shards {
            return Ok(());
        }
        remove(call, name, Output { shard, end }, "")?;
        if shard > shards {
            for end in [".times", ".symbols", ".toml"] {
                remove(call, name, Output { shard, end }, "")?;
            }
        }
    }
    Ok(())
}

/// Removes the files that are left under temporary names.
pub(crate) fn remove_parts<T: Host>(
    call: &Call<'_, T>,
    name: &str,
    shard: u64,
    ends: &[&'static str],
) {
    for end in ends {
        let _ = remove(call, name, Output { shard, end }, PART);
    }
}

/// Gives an output its final name in place of its temporary name.
fn give_name<T: Host>(call: &Call<'_, T>, name: &str, output: Output) -> Result<(), Fault> {
    let own = path_of(call.alloc(), name, output, "")?;
    let part = path_of(call.alloc(), name, output, PART)?;
    fs::rename(call.rt, part.as_str(), own.as_str()).map_err(|_| Fault::unwritten(About::Out(
        output,
    )))
}

/// Removes an output, if it is there and not in use.
fn remove<T: Host>(
    call: &Call<'_, T>,
    name: &str,
    output: Output,
    more: &str,
) -> Result<(), Fault> {
    let path = path_of(call.alloc(), name, output, more)?;
    remove_at(call, path.as_str(), About::Out(output))
}

/// Removes the file at a path, if it is there and not in use.
fn remove_at<T: Host>(call: &Call<'_, T>, path: &str, about: About) -> Result<(), Fault> {
    if !is_file(call.rt, path) || refuse_used(call, path, about).is_err() {
        return Ok(());
    }
    fs::remove_file(call.rt, path).map_err(|_| Fault::unwritten(about))
}

/// The temporary name of a file of rows.
fn part_of<T: Host>(call: &Call<'_, T>, rows: Path<'_>) -> Result<String, Fault> {
    let name = rows.name;
    format!(in call.alloc(); "{name}{PART}").map_err(|_| Fault::no_memory())
}

/// The path of an output: the name that `--out` gives, the number of the shard if there are shards, and an end.
fn path_of(alloc: Global, name: &str, output: Output, more: &str) -> Result<String, Fault> {
    let (shard, end) = (output.shard, output.end);
    let path = if shard == 0 {
        format!(in alloc; "{name}{end}{more}")
    } else {
        format!(in alloc; "{name}.{shard}{end}{more}")
    };
    path.map_err(|_| Fault::no_memory())
}
