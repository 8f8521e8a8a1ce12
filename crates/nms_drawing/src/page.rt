//! A page of a day: its own text, a plain report, and the data (`specs/Page`).
ghost use Rattle.std.specs.Prelude.{◌≡◌, ◌≤◌, ◌++◌, ◌∷◌, [], IfErr, IfOk, OnOk, false, if◌then◌else◌, length, map, option_map, replicate};
ghost use Rattle.std.specs.List.{range_with_len};
ghost use Rattle.nms_quote.specs.Roster.{part_text, symbol_text};
ghost use Rattle.nms_stream.specs.Tapes.{sizes_in};
ghost use Rattle.nms_drawing.specs.Faults.{is_begun, is_of_input};
ghost use Rattle.nms_drawing.specs.Data.{json_text};
ghost use Rattle.nms_drawing.specs.Page.{HasReport, IsPage, WritesPage, by_day, day_row, page_text, part_names};
ghost use Rattle.nms_drawing.specs.PageData.{lists_of, tables_of};
ghost use Rattle.nms_drawing.specs.Plans.{legs_of, plans_of, quotations_of};
ghost use Rattle.nms_drawing.specs.Rows.{AreRows};
ghost use Rattle.nms_drawing.specs.Trades.{execution_rows, ids_of, passed_rows, shown_of};

use crate::days::by_day;
use crate::drawing_fault::DrawingFault;
use crate::page_data::{Lists, Tables, append_json};
use crate::page_text::{HEAD, MIDDLE, TAIL};
use crate::plans::{PlanRows, no_plan, plan_rows};
use crate::report::append_report;
use crate::rows::{Rows, Window, rows_of};
use crate::texts::append_data;
use crate::trades::{TradeRows, trade_rows};
use nms_board::BoardFault;
use nms_lines::{name_of_part, name_of_sym, write_text};
use nms_quote::{Part, Plan, Roster, Sym};
use nms_show::Ending;
use nms_stream::Tape;
use nms_trades::{Cause, Execution, Finding};
use nms_verdicts::Said;
use std::alloc::{AllocError, Global};
use std::io::Write;

/// The content from which a page is made.
#[derive(Clone, Copy)]
pub(crate) struct Content<'a> {
    pub(crate) tape: &'a Tape<'a>,
    pub(crate) window: &'a Window<'a>,
    /// The symbols that have a day, in the order of the days.
    pub(crate) symbols: &'a [Sym],
    /// Executions, each with what was found about it.
    pub(crate) executions: &'a [Execution],
    pub(crate) findings: &'a [Option<Finding>],
    /// The number of refused records, and the number of executions that other shards judge. Both are 0 without executions.
    pub(crate) aside: &'a [[u64; 2]],
    /// A plan of the first day, and the remarks about it.
    pub(crate) plan: Option<(&'a Plan, &'a Said)>,
    /// The name of the plan.
    pub(crate) name: &'a str,
    /// What else the page was made from: pairs of a key and its text.
    pub(crate) about: &'a [&'a [u8]],
}

/// The text of a page. It fails only if no board was made, or if out of memory.
pub(crate) fn page_of(alloc: Global, content: &Content<'_>) -> Result<Vec<u8>, BoardFault>
    requires days { length content.now.window.now.days.now ≡ length content.now.tape.now.roster.now.syms }
    requires order { content.now.window.now.from ≤ content.now.window.now.to }
    requires within { content.now.window.now.to ≤ length content.now.tape.now.changes.items }
    requires found { length content.now.findings.now ≡ length content.now.executions.now }
    ensures { IfOk result (λ text. IsPage content.now.tape.now.roster.now content.now.tape.now.changes.items content.now.window.now content.now.symbols.now
        content.now.executions.now content.now.findings.now (option_map (λ given. (given.0.now, given.1.now)) content.now.plan) text.items) }
{
    let rows = match rows_of(alloc, content.tape, content.window) {
        Ok(rows) => rows,
        Err(fault) => return Err(fault),
    };
    match text_of(alloc, content, &rows) {
        Ok(text) => Ok(text),
        Err(_) => Err(BoardFault::NoMemory),
    }
}

/// The text of a page that has the given rows of the changes.
fn text_of(alloc: Global, content: &Content<'_>, rows: &Rows) -> Result<Vec<u8>, AllocError>
    requires found { length content.now.findings.now ≡ length content.now.executions.now }
    requires rows { AreRows content.now.window.now (sizes_in content.now.tape.now) content.now.tape.now.changes.items content.now.window.now.from
        content.now.window.now.to rows.now }
    ensures { IfOk result (λ text. IsPage content.now.tape.now.roster.now content.now.tape.now.changes.items content.now.window.now content.now.symbols.now
        content.now.executions.now content.now.findings.now (option_map (λ given. (given.0.now, given.1.now)) content.now.plan) text.items) }
{
    let trades = trade_rows(
        alloc,
        &*content.window,
        &*content.executions,
        &*content.findings,
    )?;
    let plan = plan_of(alloc, &*content)?;
    let names = names_of(alloc, &*content)?;
    page_with(alloc, &*content, rows, &trades, &plan, &names)
}

/// The rows of the plan, if there is one.
fn plan_of<'a>(alloc: Global, content: &Content<'a>) -> Result<PlanRows<'a>, AllocError>
    ensures plans { IfOk result (λ rows. rows.plans.items
        ≡ plans_of content.now.window.now (option_map (λ given. (given.0.now, given.1.now)) content.now.plan)) }
    ensures legs { IfOk result (λ rows. rows.legs.items ≡ legs_of (option_map (λ given. (given.0.now, given.1.now)) content.now.plan)) }
    ensures quotations { IfOk result (λ rows. rows.quotations.items
        ≡ quotations_of (option_map (λ given. (given.0.now, given.1.now)) content.now.plan)) }
{
    match content.plan {
        Some((plan, said)) => plan_rows(
            alloc,
            content.window,
            0,
            content.name.as_bytes(),
            plan,
            said,
        ),
        None => Ok(no_plan(alloc)),
    }
}

/// The names of symbols, participants and causes.
#[derive(Drop)]
struct Names<'a> {
    symbols: Vec<&'a [u8]>,
    parts: Vec<&'a [u8]>,
    causes: Vec<&'a [u8]>,
}

/// The names of symbols, participants and causes.
fn names_of<'a>(alloc: Global, content: &Content<'a>) -> Result<Names<'a>, AllocError>
    ensures symbols { IfOk result (λ names. map (λ name. name.now) names.symbols.items
        ≡ map (symbol_text content.now.tape.now.roster.now) content.now.symbols.now) }
    ensures parts { IfOk result (λ names. map (λ name. name.now) names.parts.items ≡ part_names content.now.tape.now.roster.now) }
{
    let mut names = Names {
        symbols: Vec::new(alloc),
        parts: Vec::new(alloc),
        causes: Vec::new(alloc),
    };
    match add_names(&mut names, content.tape.roster, content.symbols) {
        Ok(()) => Ok(names),
        Err(fault) => Err(fault),
    }
}

/// Adds the names of symbols, participants and causes.
fn add_names<'a>(
    names: &mut Names<'a>,
    roster: &'a Roster,
    symbols: &[Sym],
) -> Result<(), AllocError>
    requires symbols { names.old.symbols.items ≡ [] }
    requires parts { names.old.parts.items ≡ [] }
    ensures symbols { OnOk result (map (λ name. name.now) names.new.symbols.items ≡ map (symbol_text roster.now) symbols.now) }
    ensures parts { OnOk result (map (λ name. name.now) names.new.parts.items ≡ part_names roster.now) }
{
    add_symbols(&mut names.symbols, roster, symbols)?;
    add_parts(&mut names.parts, roster)?;
    add_causes(&mut names.causes)
}

/// Adds the word of each cause, which is a reason why a trade-through may be lawful.
fn add_causes<'a>(names: &mut Vec<&'a [u8]>) -> Result<(), AllocError> {
    for cause in Cause::ALL {
        names.push(cause.word().as_bytes())?;
    }
    Ok(())
}

/// Adds the names of symbols to an empty list.
fn add_symbols<'a>(
    names: &mut Vec<&'a [u8]>,
    roster: &'a Roster,
    symbols: &[Sym],
) -> Result<(), AllocError>
    requires { names.old.items ≡ [] }
    ensures { OnOk result (map (λ name. name.now) names.new.items ≡ map (symbol_text roster.now) symbols.now) }
{
    for sym in symbols {
        names.push(name_of_sym(roster, *sym).as_bytes())?;
    }
    Ok(())
}

/// Adds the names of participants to an empty list, after an empty text. So the number 0 means no participant.
fn add_parts<'a>(names: &mut Vec<&'a [u8]>, roster: &'a Roster) -> Result<(), AllocError>
    requires { names.old.items ≡ [] }
    ensures { OnOk result (map (λ name. name.now) names.new.items ≡ part_names roster.now) }
{
    names.push(b"")?;
    for place in 0..roster.parts() as u8 {
        names.push(name_of_part(roster, Part::new(place).unwrap()).as_bytes())?;
    }
    Ok(())
}

/// The text of a page that has the given rows and names.
fn page_with<'l, 't>(
    alloc: Global,
    content: &'l Content<'t>,
    rows: &Rows,
    trades: &'l TradeRows<'t>,
    plan: &'l PlanRows<'t>,
    names: &'l Names<'t>,
) -> Result<Vec<u8>, AllocError>
    requires rows { AreRows content.now.window.now (sizes_in content.now.tape.now) content.now.tape.now.changes.items content.now.window.now.from
        content.now.window.now.to rows.now }
    requires executions { trades.now.executions.items ≡ execution_rows content.now.window.now
        (shown_of content.now.window.now content.now.executions.now content.now.findings.now) }
    requires passed { trades.now.passed.items ≡ passed_rows
        (shown_of content.now.window.now content.now.executions.now content.now.findings.now) }
    requires ids { map (λ text. text.now) trades.now.ids.items ≡ ids_of
        (shown_of content.now.window.now content.now.executions.now content.now.findings.now) }
    requires plans { plan.now.plans.items
        ≡ plans_of content.now.window.now (option_map (λ given. (given.0.now, given.1.now)) content.now.plan) }
    requires legs { plan.now.legs.items ≡ legs_of (option_map (λ given. (given.0.now, given.1.now)) content.now.plan) }
    requires quotations { plan.now.quotations.items ≡ quotations_of (option_map (λ given. (given.0.now, given.1.now)) content.now.plan) }
    requires symbols { map (λ name. name.now) names.now.symbols.items ≡ map (symbol_text content.now.tape.now.roster.now) content.now.symbols.now }
    requires parts { map (λ name. name.now) names.now.parts.items ≡ part_names content.now.tape.now.roster.now }
    ensures { IfOk result (λ text. IsPage content.now.tape.now.roster.now content.now.tape.now.changes.items content.now.window.now content.now.symbols.now
        content.now.executions.now content.now.findings.now (option_map (λ given. (given.0.now, given.1.now)) content.now.plan) text.items) }
{
    let days = days_of(alloc, content)?;
    let sorted = sorted_of(alloc, content, rows)?;
    let lists = lists_with(content, trades, plan, names);
    let tables = tables_with(content, &days, &sorted, trades, plan);
    whole_page(alloc, &lists, &tables)
}

/// The lists of a page.
fn lists_with<'l, 't>(
    content: &'l Content<'t>,
    trades: &'l TradeRows<'t>,
    plan: &'l PlanRows<'t>,
    names: &'l Names<'t>,
) -> Lists<'l, 't>
    ensures symbols { map (λ text. text.now) result.symbols.now ≡ map (λ text. text.now) names.now.symbols.items }
    ensures names { map (λ text. text.now) result.names.now ≡ map (λ text. text.now) names.now.parts.items }
    ensures ids { map (λ text. text.now) result.ids.now ≡ map (λ text. text.now) trades.now.ids.items }
{
    Lists {
        about: &*content.about,
        symbols: &names.symbols,
        names: &names.parts,
        causes: &names.causes,
        ids: &trades.ids,
        words: &plan.words,
    }
}

/// The tables of a page, with rows in the order of their days.
fn tables_with<'l, 't>(
    content: &'l Content<'t>,
    days: &'l [[u64; 3]],
    sorted: &'l Rows,
    trades: &'l TradeRows<'t>,
    plan: &'l PlanRows<'t>,
) -> Tables<'l>
    ensures days { result.days.now ≡ days.now }
    ensures lines { result.lines.now ≡ sorted.now.best.items }
    ensures board { result.board.now ≡ (if content.now.window.now.bests then [] else sorted.now.board.items) }
    ensures lots { result.lots.now ≡ sorted.now.lots.items }
    ensures executions { result.executions.now ≡ trades.now.executions.items }
    ensures rows { result.rows.now ≡ trades.now.passed.items }
    ensures plans { result.plans.now ≡ plan.now.plans.items }
    ensures legs { result.legs.now ≡ plan.now.legs.items }
    ensures quotations { result.quotations.now ≡ plan.now.quotations.items }
{
    Tables {
        days,
        lines: &sorted.best,
        board: unless(content.window.bests, &sorted.board),
        lots: &sorted.lots,
        executions: &trades.executions,
        rows: &trades.passed,
        aside: &*content.aside,
        plans: &plan.plans,
        legs: &plan.legs,
        quotations: &plan.quotations,
        said: &plan.said,
    }
}

/// The rows of the boards, or none if the page has only best quotations.
fn unless<'x>(is_unwanted: bool, rows: &'x [[u64; 11]]) -> &'x [[u64; 11]]
    ensures { result.now ≡ (if is_unwanted then [] else rows.now) }
{
    if is_unwanted { &[] } else { rows }
}

/// The row of each day: its first version, its last version, and 1 if the page counts times, else 0.
fn days_of(alloc: Global, content: &Content<'_>) -> Result<Vec<[u64; 3]>, AllocError>
    ensures { IfOk result (λ days. days.items ≡ replicate (length content.now.symbols.now) (day_row content.now.window.now)) }
{
    let window = content.window;
    let mut days = Vec::new(alloc);
    for _ in 0..content.symbols.len() {
        days.push([window.from, window.to, u64::from(window.timed)])?;
    }
    Ok(days)
}

/// Rows in the order of their days.
fn sorted_of(alloc: Global, content: &Content<'_>, rows: &Rows) -> Result<Rows, AllocError>
    ensures best { IfOk result (λ sorted. sorted.best.items ≡ by_day (length content.now.symbols.now) rows.now.best.items) }
    ensures board { IfOk result (λ sorted. sorted.board.items ≡ by_day (length content.now.symbols.now) rows.now.board.items) }
    ensures lots { IfOk result (λ sorted. sorted.lots.items ≡ by_day (length content.now.symbols.now) rows.now.lots.items) }
{
    let days = content.symbols.len();
    let best = by_day(alloc, days, &rows.best)?;
    let board = by_day(alloc, days, &rows.board)?;
    let lots = by_day(alloc, days, &rows.lots)?;
    Ok(Rows { best, board, lots })
}

/// The complete text of a page that has the given lists and tables.
fn whole_page(
    alloc: Global,
    lists: &Lists<'_, '_>,
    tables: &Tables<'_>,
) -> Result<Vec<u8>, AllocError>
    ensures { IfOk result (λ text. HasReport (json_text (lists_of lists.now) (tables_of tables.now)) text.items) }
{
    let mut json = Vec::new(alloc);
    append_json(&mut json, lists, tables)?;
    let mut report = Vec::new(alloc);
    append_report(&mut report, lists, tables)?;
    let mut text = Vec::new(alloc);
    append_page(&mut text, &report, &json)?;
    Ok(text)
}

/// Appends the text of a page: the plain report and the data, between the parts that are the same on every page.
fn append_page(text: &mut Vec<u8>, report: &[u8], json: &[u8]) -> Result<(), AllocError>
    ensures { OnOk result (text.new.items ≡ text.old.items ++ page_text report.now json.now) }
{
    text.extend_from_slice(HEAD.as_bytes())?;
    text.extend_from_slice(report)?;
    text.extend_from_slice(MIDDLE.as_bytes())?;
    append_data(text, json)?;
    text.extend_from_slice(TAIL.as_bytes())?;
    Ok(())
}

/// Writes a page. After any fault but `WriteFault` nothing is written.
pub(crate) fn write_content<W: Write>(
    alloc: Global,
    content: &Content<'_>,
    answers: &mut W,
) -> Result<Ending, DrawingFault>
    requires days { length content.now.window.now.days.now ≡ length content.now.tape.now.roster.now.syms }
    requires order { content.now.window.now.from ≤ content.now.window.now.to }
    requires within { content.now.window.now.to ≤ length content.now.tape.now.changes.items }
    requires found { length content.now.findings.now ≡ length content.now.executions.now }
    ensures page { OnOk result (WritesPage content.now.tape.now.roster.now content.now.tape.now.changes.items content.now.window.now content.now.symbols.now
        content.now.executions.now content.now.findings.now (option_map (λ given. (given.0.now, given.1.now)) content.now.plan)
        (W.contents answers.old) (W.contents answers.new)) }
    ensures own { IfErr result (λ fault. is_of_input fault ≡ false) }
    ensures unwritten { IfErr result (λ fault. is_begun fault ≡ false → W.contents answers.new ≡ W.contents answers.old) }
{
    match page_of(alloc, content) {
        Ok(text) => match write_text(answers, &text) {
            Ok(()) => Ok(Ending::Done),
            Err(_) => Err(DrawingFault::WriteFault),
        },
        Err(fault) => Err(DrawingFault::Board(fault)),
    }
}
