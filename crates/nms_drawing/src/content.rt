//! The symbols and the executions of a page.
ghost use Rattle.std.specs.Prelude.{◌≡◌, ◌<◌, ◌≤◌, [], ◌∷◌, ◌++◌, All, IfOk, None, OnOk, Some, false, if◌then◌else◌, length, map, option_copied};
ghost use Rattle.std.specs.Prelude.{replicate, slice_index_or};
ghost use Rattle.std.specs.List.{range_with_len};
ghost use Rattle.nms_quote.specs.declared.TheConstants.{MOST_SYMBOLS};
ghost use Rattle.nms_drawing.specs.Drawn.{day_if_same, days_among, days_of_symbol, found_of, has_day, symbols_among, traded_of};

use crate::executions::Judged;
use nms_quote::{Roster, Sym};
use nms_trades::{Execution, Finding};
use std::alloc::{AllocError, Global};

/// For each symbol of the roster, its day on the page of one symbol: day 0 for that symbol, none for all others.
pub(crate) fn days_of_symbol(
    alloc: Global,
    roster: &Roster,
    sym: Sym,
) -> Result<Vec<Option<u64>>, AllocError>
    ensures { IfOk result (λ days. days.items ≡ days_of_symbol (length roster.now.syms) sym) }
{
    let mut days = Vec::new(alloc);
    for place in 0..roster.syms() {
        days.push(day_if_same(sym, place))?;
    }
    Ok(days)
}

/// The day of the roster's symbol at a place, on the page of one symbol: day 0 if it is that symbol, else none.
fn day_if_same(sym: Sym, place: usize) -> Option<u64>
    ensures { result ≡ day_if_same sym place }
{
    if place == usize::from(sym.get()) {
        Some(0)
    } else {
        None
    }
}

/// The executions of a file; none if there is no file.
pub(crate) fn executions_of<'a>(judged: Option<&'a Judged>) -> &'a [Execution]
    ensures { result.now ≡ traded_of (option_copied judged.entry) }
{
    match judged {
        Some(judged) => &judged.records.executions,
        None => &[],
    }
}

/// The findings about the executions of a file, in the same order as the executions; none if there is no file.
pub(crate) fn findings_of<'a>(judged: Option<&'a Judged>) -> &'a [Option<Finding>]
    ensures { result.now ≡ found_of (option_copied judged.entry) }
{
    match judged {
        Some(judged) => &judged.findings,
        None => &[],
    }
}

/// The number of refused records of a file, and the number of its executions that other shards judge.
pub(crate) fn asides_of(judged: Option<&Judged>) -> [u64; 2] {
    match judged {
        Some(judged) => [
            judged.records.refused.len() as u64,
            others_in(&judged.records.executions),
        ],
        None => [0, 0],
    }
}

/// How many executions other shards judge.
fn others_in(executions: &[Execution]) -> u64 {
    let mut others = 0;
    for place in 0..executions.len() {
        if executions[place].other && others < place as u64 + 1 {
            others += 1;
        }
    }
    others
}

/// The symbols whose days are on the page of a file of executions.
#[derive(Drop)]
pub(crate) struct Traded {
    /// For each symbol of the roster, the number of its day on the page; `None` if the page does not show it.
    pub(crate) days: Vec<Option<u64>>,
    /// The symbols that have a day, in the order of the days.
    pub(crate) symbols: Vec<Sym>,
}

/// The symbols of the executions that are judged here; the first symbol of the roster if there is none.
pub(crate) fn traded_in(
    alloc: Global,
    roster: &Roster,
    executions: &[Execution],
) -> Result<Traded, AllocError>
    requires { All (λ execution. execution.sym < length roster.now.syms) executions.now }
    ensures len { IfOk result (λ traded. length traded.days.items ≡ length roster.now.syms) }
    ensures days { IfOk result (λ traded. traded.days.items ≡ days_among (length roster.now.syms) (has_day executions.now)) }
    ensures symbols { IfOk result (λ traded. traded.symbols.items ≡ symbols_among (length roster.now.syms) (has_day executions.now)) }
{
    let marks = marks_of(alloc, roster.syms(), executions)?;
    number_days(alloc, &marks)
}

/// For each symbol of the roster, whether the page shows its day.
fn marks_of(
    alloc: Global,
    symbols: usize,
    executions: &[Execution],
) -> Result<Vec<bool>, AllocError>
    requires { All (λ execution. execution.sym < symbols) executions.now }
    ensures { IfOk result (λ marks. marks.items ≡ map (has_day executions.now) (range_with_len 0 symbols)) }
{
    let mut marks = Vec::new(alloc);
    marks.resize(symbols, false)?;
    mark_traded(&mut marks, executions);
    Ok(marks)
}

/// Marks each symbol that was traded; the first one if none was.
fn mark_traded(marks: &mut [bool], executions: &[Execution])
    requires none { marks.old ≡ replicate (length marks.old) false }
    requires symbols { All (λ execution. execution.sym < length marks.old) executions.now }
    ensures { marks.new ≡ map (has_day executions.now) (range_with_len 0 (length marks.old)) }
{
    let mut is_any = false;
    for execution in executions {
        if !execution.other {
            marks[usize::from(execution.sym.get())] = true;
            is_any = true;
        }
    }
    if !is_any && !marks.is_empty() {
        marks[0] = true;
    }
}

/// Gives a day to each symbol that is marked. The days are numbered from 0, in the order of the roster.
fn number_days(alloc: Global, marks: &[bool]) -> Result<Traded, AllocError>
    requires { length marks.now ≤ MOST_SYMBOLS }
    ensures days { IfOk result (λ traded. traded.days.items ≡ days_among (length marks.now) (λ sym. slice_index_or marks.now sym false)) }
    ensures symbols { IfOk result (λ traded.
        traded.symbols.items ≡ symbols_among (length marks.now) (λ sym. slice_index_or marks.now sym false)) }
{
    let mut traded = Traded {
        days: Vec::new(alloc),
        symbols: Vec::new(alloc),
    };
    for place in 0..marks.len() as u16 {
        add_day(&mut traded, Sym::new(place).unwrap(), marks)?;
    }
    Ok(traded)
}

/// Adds the next symbol of the roster. It gets the next free day if it is marked, else none.
fn add_day(traded: &mut Traded, sym: Sym, marks: &[bool]) -> Result<(), AllocError>
    requires { sym < length marks.now }
    ensures days { OnOk result (traded.new.days.items ≡ traded.old.days.items
        ++ (if slice_index_or marks.now sym false then Some (length traded.old.symbols.items) else None) ∷ []) }
    ensures symbols { OnOk result (traded.new.symbols.items ≡ traded.old.symbols.items
        ++ (if slice_index_or marks.now sym false then sym ∷ [] else [])) }
{
    if !marks[usize::from(sym.get())] {
        traded.days.push(None)?;
        return Ok(());
    }
    traded.days.push(Some(traded.symbols.len() as u64))?;
    traded.symbols.push(sym)?;
    Ok(())
}
