//! The option `--add-symbols` of `import`: symbols that the setup lacks are added to a new setup, which is written next to the
//! changes. The vendor's files are read twice.
use crate::call::{Call, Host};
use crate::fault::{About, Fault, Output};
use crate::files::{is_file, setup_in};
use crate::importing::import_under;
use crate::notices::{note_full, note_lots, refuse_columns};
use crate::outputs::{SHARD, check_outputs, create, flush, remove_parts};
use crate::request::{Import, Path};
use crate::vendor::{Rows, fault_in, open_vendor};
use nms_import::Mapping;
use nms_quote::Roster;
use nms_shards::{add_symbols, roster_of, write_added};
use nms_show::{Ending, Form, SafeText};
use std::io::Write;

const SETUP: Output = Output {
    shard: 0,
    end: ".toml",
};

/// Imports a vendor's files under the call's setup, to which the files' other symbols were added.
pub(crate) fn import_added<T: Host, W: Write>(
    call: &Call<'_, T>,
    import: &Import<'_>,
    mapping: &Mapping,
    answers: &mut W,
) -> Result<Ending, Fault> {
    let mut roster = roster_of(call.alloc(), call.setup.roster()).map_err(|_| Fault::no_memory())?;
    let mut took_all = true;
    for file in &import.files {
        if !is_file(call.rt, file.name) {
            let expected = "a file that can be read twice, as --add-symbols does";
            return Err(Fault::usage(file.about, expected));
        }
        let mut rows = open_vendor(call, *file, mapping.file)?;
        let added = add_of(call, *file, mapping, &mut rows, &mut roster, &mut took_all);
        rows.close();
        let ending = added?;
        if !matches!(ending, Ending::Done) {
            return Ok(ending);
        }
    }
    if !took_all {
        note_full(call)?;
    }
    check_outputs(call, import.out, 0, &SHARD)?;
    let ended = import_with(call, import, mapping, &roster, answers);
    remove_parts(call, import.out, 0, &SHARD);
    ended
}

/// Adds the symbols of one vendor's file to the roster.
fn add_of<T: Host>(
    call: &Call<'_, T>,
    file: Path<'_>,
    mapping: &Mapping,
    rows: &mut Rows<'_, T, T::File>,
    roster: &mut Roster,
    took_all: &mut bool,
) -> Result<Ending, Fault> {
    let columns = match mapping.row_columns(call.alloc(), &rows.names) {
        Ok(columns) => columns,
        Err(fault) => return refuse_columns(call, file, &fault, &rows.names),
    };
    match add_symbols(
        call.alloc(),
        &columns,
        &mapping.meanings,
        roster,
        &mut rows.reader,
    ) {
        Ok(all) => {
            *took_all = *took_all && all;
            Ok(Ending::Done)
        }
        Err(fault) => Err(fault_in(fault, file.about)),
    }
}

/// Writes a setup that has the symbols of the given roster, and imports the vendor's files under that setup.
fn import_with<T: Host, W: Write>(
    call: &Call<'_, T>,
    import: &Import<'_>,
    mapping: &Mapping,
    roster: &Roster,
    answers: &mut W,
) -> Result<Ending, Fault> {
    let mut text = SafeText::new(call.alloc(), Form::Text { colours: false });
    write_added(&mut text, call.setup, roster).map_err(|_| Fault::no_memory())?;
    let mut bytes = Vec::new(call.alloc());
    text.pass_on(&mut bytes).map_err(|_| Fault::no_memory())?;
    let mut file = create(call, import.out, SETUP)?;
    file.write_all(&bytes)
        .map_err(|_| Fault::unwritten(About::Out(SETUP)))?;
    flush(&mut file, SETUP)?;
    let setup = setup_in(call.alloc(), &bytes, About::Value("setup"))?;
    if roster.syms() > call.setup.roster().syms() {
        note_lots(call)?;
    }
    let under = Call {
        rt: call.rt,
        screen: call.screen,
        words: call.words,
        setup: &setup,
    };
    import_under(&under, import, mapping, &SHARD, answers)
}
