//! The shards that are in a folder, as `import --shards` or the job of a day writes them.
use crate::call::{Call, Host};
use crate::fault::{About, Fault};
use crate::outputs::SHARD;
use crate::request::Path;
use std::alloc::{AllocError, Global};
use std::{fs, io};

/// The shards of one import, whose files have the same beginning of their names.
#[derive(Drop)]
pub(crate) struct Shards {
    /// The beginning of the paths of the shards' files.
    pub(crate) name: String,
    /// The highest number of a shard. Shards are counted from 1.
    pub(crate) count: u64,
    /// The argument of the call that names the folder of the shards.
    pub(crate) about: About,
}

/// The shards in a folder and in its direct subfolders, sorted by name. Subfolders whose names begin with a point are skipped.
pub(crate) fn shards_in<T: Host>(
    call: &Call<'_, T>,
    folder: Path<'_>,
) -> Result<Vec<Shards>, Fault> {
    let mut found = Vec::new(call.alloc());
    let mut below = Vec::new(call.alloc());
    take_folder(call, folder.name, folder.about, &mut found, &mut below)?;
    let mut deeper = Vec::new(call.alloc());
    for inner in &below {
        take_folder(call, inner.as_str(), folder.about, &mut found, &mut deeper)?;
    }
    found
        .sort_by(|one, other| one.name.as_str().cmp(other.name.as_str()))
        .map_err(|_| Fault::no_memory())?;
    Ok(found)
}

/// Lists a folder: adds its shards to `found`, and its subfolders to `below`.
fn take_folder<T: Host>(
    call: &Call<'_, T>,
    path: &str,
    about: About,
    found: &mut Vec<Shards>,
    below: &mut Vec<String>,
) -> Result<(), Fault> {
    let entries = fs::read_dir(call.rt, path).map_err(|error| Fault::unread(error, about))?;
    for entry in entries {
        match entry {
            Ok(entry) => {
                let own = entry.path().to_string_lossy();
                take_entry(call, own, entry.file_name(), about, found, below).map_err(
                    |_| Fault::no_memory(),
                )?;
            }
            Err(error) => return Err(Fault::unread(error, about)),
        }
    }
    Ok(())
}

/// Adds one entry of a folder: a file of a shard adds its shard, and a subfolder adds its path.
fn take_entry<T: Host>(
    call: &Call<'_, T>,
    path: &str,
    name: &str,
    about: About,
    found: &mut Vec<Shards>,
    below: &mut Vec<String>,
) -> Result<(), AllocError> {
    if name.starts_with('.') {
        return Ok(());
    }
    if let Some((name, number)) = shard_of(path) {
        return take_shard(call.alloc(), name, number, about, found);
    }
    match fs::metadata(call.rt, path) {
        Ok(entry) if entry.is_dir() => {
            below.push(String::from_str(call.alloc(), path)?)?;
            Ok(())
        }
        Ok(_) | Err(_) => Ok(()),
    }
}

/// Adds a shard of the given name: the shards of this name then reach at least to its number.
fn take_shard(
    alloc: Global,
    name: &str,
    number: u64,
    about: About,
    found: &mut Vec<Shards>,
) -> Result<(), AllocError> {
    for shards in found.iter_mut() {
        if shards.name.as_str() == name {
            shards.count = shards.count.max(number);
            return Ok(());
        }
    }
    found.push(Shards {
        name: String::from_str(alloc, name)?,
        count: number,
        about,
    })?;
    Ok(())
}

/// The name and the number of the shard to which the file at a path belongs. The number has one to six digits, without a leading
/// 0.
fn shard_of(path: &str) -> Option<(&str, u64)> {
    for end in SHARD {
        if let Some(own) = path.strip_suffix(end) {
            let (name, digits) = own.rsplit_once('.')?;
            let number = digits.parse::<u64>().ok()?;
            return if digits.starts_with('+') || digits.starts_with('0') || digits.len() > 6 {
                None
            } else {
                Some((name, number))
            };
        }
    }
    None
}
