//! The subcommand `compare`: compares a vendor's own national bests with those of a file of changes.

use crate::call::{Call, Host};
use crate::fault::Fault;
use crate::notices::refuse_map;
use crate::outputs::{create_rows, publish_rows, remove_rows};
use crate::request::Compare;
use crate::vendor::{Rows, map_document, open_vendor};
use nms_compare::{
    CompareFault, Counts, Keyed, NationalMapping, Showing, Shown, Sums, Vendor, compare_rows,
    keys_of, national_mapping_of, write_counts, write_counts_object,
};
use nms_import::Kind;
use nms_show::{Ending, Form};
use std::alloc::Global;
use std::io::Write;

/// Compares a vendor's national bests with those of a file of changes. The comparison is doubted if a row differs or is malformed.
pub(crate) fn serve_compare<T: Host, W: Write>(
    call: &Call<'_, T>,
    compare: &Compare<'_>,
    answers: &mut W,
) -> Result<Ending, Fault> {
    let text = call.read(compare.map)?;
    let document = match map_document(call.alloc(), &text) {
        Ok(document) => document,
        Err(fault) => return refuse_map(call, compare.map, Kind::Bests, &fault),
    };
    match national_mapping_of(call.alloc(), &document) {
        Ok(mapping) => compare_by(call, compare, &mapping, answers),
        Err(fault) => refuse_map(call, compare.map, Kind::Bests, &fault),
    }
}

/// Compares a vendor's national bests with those of the changes, after the mapping was read. The times and the changes are read
/// first.
fn compare_by<T: Host, W: Write>(
    call: &Call<'_, T>,
    compare: &Compare<'_>,
    mapping: &NationalMapping,
    answers: &mut W,
) -> Result<Ending, Fault> {
    let times = call.read(compare.times)?;
    let tape = call.read_tape(compare.changes)?;
    let keyed = match keys_of(call.alloc(), mapping.order(), &tape, &times) {
        Ok(keyed) => keyed,
        Err(fault) => return Err(fault_in(fault, compare)),
    };
    let mut rows = open_vendor(call, compare.national, mapping.file())?;
    let compared = compare_with(call, compare, mapping, &keyed, &mut rows, answers);
    let failed = rows.close();
    remove_rows(call, compare.refused);
    compared.map_err(|fault| fault.with_reason(failed))
}

/// Compares the rows of an open vendor's file with the changes. If `--refused` names a file, the rows that differ or are refused
/// go there.
fn compare_with<T: Host, W: Write>(
    call: &Call<'_, T>,
    compare: &Compare<'_>,
    mapping: &NationalMapping,
    keyed: &Keyed<'_>,
    rows: &mut Rows<'_, T, T::File>,
    answers: &mut W,
) -> Result<Ending, Fault> {
    let vendor = match mapping.vendor(call.alloc(), &rows.names) {
        Ok(vendor) => vendor,
        Err(fault) => return refuse_map(call, compare.national, Kind::Bests, &fault),
    };
    let showing = Showing {
        alloc: call.alloc(),
        form: call.form(),
        all: false,
    };
    let Some(file) = compare.refused else {
        let (counts, sums) = compare_on(call, compare, showing, &vendor, keyed, rows, answers)?;
        return tell_counts(call, &counts, &sums, compare, answers);
    };
    let mut out = match create_rows(call, file) {
        Ok(out) => out,
        Err(fault) => return Err(fault),
    };
    let filed = Showing {
        alloc: call.alloc(),
        form: Form::Json,
        all: true,
    };
    let compared = compare_on(call, compare, filed, &vendor, keyed, rows, &mut out);
    if out.flush().is_err() {
        return Err(Fault::unwritten(file.about));
    }
    let (counts, sums) = compared?;
    publish_rows(call, compare.refused)?;
    tell_counts(call, &counts, &sums, compare, answers)
}

/// Compares the rows, and shows on a writer those that are not equal.
fn compare_on<T: Host, W: Write>(
    call: &Call<'_, T>,
    compare: &Compare<'_>,
    showing: Showing,
    vendor: &Vendor<'_>,
    keyed: &Keyed<'_>,
    rows: &mut Rows<'_, T, T::File>,
    out: &mut W,
) -> Result<(Counts, Sums), Fault> {
    let symbols = call.setup.roster().syms();
    let mut shown = match Shown::new(showing, out, compare.national.name, symbols) {
        Ok(shown) => shown,
        Err(fault) => return Err(fault_in(fault, compare)),
    };
    match compare_rows(call.alloc(), vendor, keyed, &mut rows.reader, &mut shown) {
        Ok(counts) => Ok((counts, shown.into_sums())),
        Err(fault) => Err(fault_in(fault, compare)),
    }
}

/// Writes the sums and the counts. A comparison is doubted if a row differs or is malformed.
fn tell_counts<T: Host, W: Write>(
    call: &Call<'_, T>,
    counts: &Counts,
    sums: &Sums,
    compare: &Compare<'_>,
    answers: &mut W,
) -> Result<Ending, Fault> {
    sums.write(answers, call.setup.roster(), call.form())
        .map_err(|fault| fault_in(fault, compare))?;
    let written = if call.form().is_json() {
        write_counts_object(call.alloc(), answers, counts)
    } else {
        write_counts(answers, counts)
    };
    match written {
        Ok(()) if counts.has_doubts() => Ok(Ending::Doubted),
        Ok(()) => Ok(Ending::Done),
        Err(fault) => Err(fault_in(fault, compare)),
    }
}

/// Turns the comparison's fault into a fault of the call, which names the file at fault.
fn fault_in(fault: CompareFault, compare: &Compare<'_>) -> Fault {
    let file = match fault {
        CompareFault::NotTheTimes => compare.times,
        CompareFault::ChangesFall => compare.changes,
        CompareFault::ReadFault
        | CompareFault::WriteFault
        | CompareFault::TooLong
        | CompareFault::NoMemory
        | CompareFault::Board
        | CompareFault::RowsFall => compare.national,
    };
    Fault::of(fault.code(), file.about)
}
