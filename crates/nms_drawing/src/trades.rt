//! The rows of a page that come from its executions (`specs/Trades`).
ghost use Rattle.std.specs.Prelude.{◌≡◌, ◌++◌, ◌∷◌, [], ◌≤◌, ℕ, length, map, IfOk, OnOk, if◌then◌else◌};
ghost use Rattle.nms_trades.specs.Sums.{is_helped};
ghost use Rattle.nms_drawing.specs.Trades.{Shown, causes_number, causes_shown, counted, execution_row, execution_rows, ids_of, is_cause, is_flagged, is_on_page, kind_of, offer_cell, own_cell, part_cell, passed_cells, passed_from, passed_rows, passed_rows_from, shown_if, shown_of, side_of, time_shown};

use crate::rows::Window;
use nms_board::Row;
use nms_quote::{Part, Side};
use nms_trades::{Cause, Deal, Execution, Finding, Standing, Sums, difference, is_helped, sums_of};
use std::alloc::{AllocError, Global};

/// The rows of the tables of executions.
#[derive(Drop)]
pub(crate) struct TradeRows<'a> {
    /// The executions.
    pub(crate) executions: Vec<[u64; 13]>,
    /// The quotations that the executions traded through.
    pub(crate) passed: Vec<[u64; 9]>,
    /// The ids of the executions.
    pub(crate) ids: Vec<&'a [u8]>,
}

/// The rows of the executions that are on a page, each with what was found about it.
pub(crate) fn trade_rows<'a>(
    alloc: Global,
    window: &Window<'_>,
    executions: &'a [Execution],
    findings: &[Option<Finding>],
) -> Result<TradeRows<'a>, AllocError>
    requires { length findings.now ≡ length executions.now }
    ensures executions { IfOk result (λ rows. rows.executions.items ≡ execution_rows window.now (shown_of window.now executions.now findings.now)) }
    ensures passed { IfOk result (λ rows. rows.passed.items ≡ passed_rows (shown_of window.now executions.now findings.now)) }
    ensures ids { IfOk result (λ rows. map (λ text. text.now) rows.ids.items ≡ ids_of (shown_of window.now executions.now findings.now)) }
{
    let mut rows = TradeRows {
        executions: Vec::new(alloc),
        passed: Vec::new(alloc),
        ids: Vec::new(alloc),
    };
    match add_all(&mut rows, window, executions, findings) {
        Ok(()) => Ok(rows),
        Err(fault) => Err(fault),
    }
}

/// Adds the rows of executions to empty lists.
fn add_all<'a>(
    rows: &mut TradeRows<'a>,
    window: &Window<'_>,
    executions: &'a [Execution],
    findings: &[Option<Finding>],
) -> Result<(), AllocError>
    requires same { length findings.now ≡ length executions.now }
    requires executions { rows.old.executions.items ≡ [] }
    requires passed { rows.old.passed.items ≡ [] }
    requires ids { rows.old.ids.items ≡ [] }
    ensures executions { OnOk result (rows.new.executions.items ≡ execution_rows window.now (shown_of window.now executions.now findings.now)) }
    ensures passed { OnOk result (rows.new.passed.items ≡ passed_rows (shown_of window.now executions.now findings.now)) }
    ensures ids { OnOk result (map (λ text. text.now) rows.new.ids.items ≡ ids_of (shown_of window.now executions.now findings.now)) }
{
    for place in 0..executions.len() {
        add_one(rows, window, &executions[place], &findings[place])?;
    }
    Ok(())
}

/// Adds the rows of an execution, if it is on the page.
fn add_one<'a>(
    rows: &mut TradeRows<'a>,
    window: &Window<'_>,
    execution: &'a Execution,
    finding: &Option<Finding>,
) -> Result<(), AllocError>
    ensures executions { OnOk result (rows.new.executions.items ≡ rows.old.executions.items
        ++ execution_rows window.now (shown_if window.now execution.now finding.now)) }
    ensures passed { OnOk result (rows.new.passed.items ≡ rows.old.passed.items
        ++ passed_rows_from (length rows.old.executions.items) (shown_if window.now execution.now finding.now)) }
    ensures ids { OnOk result (map (λ text. text.now) rows.new.ids.items ≡ map (λ text. text.now) rows.old.ids.items
        ++ ids_of (shown_if window.now execution.now finding.now)) }
{
    match (finding, window.day_of(execution.sym)) {
        (Some(finding), Some(day)) if is_on_page(window, execution) => {
            add_shown(rows, window, execution, finding, day)
        }
        (Some(_), Some(_)) | (Some(_), None) | (None, _) => Ok(()),
    }
}

/// Whether an execution is judged here and is in the range that is shown.
fn is_on_page(window: &Window<'_>, execution: &Execution) -> bool
    ensures { result ≡ is_on_page window.now execution.now }
{
    let (version, time) = (execution.version, time_shown(window, execution));
    !execution.other
        && window.from <= version
        && version <= window.to
        && window.since <= time
        && time <= window.until
}

/// Adds the row of an execution, its id, and the quotations that it traded through.
fn add_shown<'a>(
    rows: &mut TradeRows<'a>,
    window: &Window<'_>,
    execution: &'a Execution,
    finding: &Finding,
    day: u64,
) -> Result<(), AllocError>
    ensures executions { OnOk result (rows.new.executions.items ≡ rows.old.executions.items
        ++ execution_row window.now (record { execution = execution.now; finding = finding.now; day = day }) ∷ []) }
    ensures passed { OnOk result (rows.new.passed.items ≡ rows.old.passed.items
        ++ passed_from (length rows.old.executions.items) (record { execution = execution.now; finding = finding.now; day = day }) 0
        finding.now.passed.items) }
    ensures ids { OnOk result (map (λ text. text.now) rows.new.ids.items ≡ map (λ text. text.now) rows.old.ids.items ++ execution.now.name.items ∷ []) }
{
    let number = rows.executions.len() as u64;
    rows.executions
        .push(execution_row(window, execution, finding, day))?;
    rows.ids.push(execution.name.as_slice())?;
    add_passed(&mut rows.passed, number, execution, finding)?;
    Ok(())
}

/// Adds the quotations that an execution traded through.
fn add_passed(
    rows: &mut Vec<[u64; 9]>,
    number: u64,
    execution: &Execution,
    finding: &Finding,
) -> Result<(), AllocError>
    ensures { (day : ℕ) → OnOk result (rows.new.items ≡ rows.old.items
        ++ passed_from number (record { execution = execution.now; finding = finding.now; day = day }) 0 finding.now.passed.items) }
{
    for place in 0..finding.passed.len() {
        let (side, row) = &finding.passed[place];
        let flickers = finding.is_flickering(place);
        add_quotation(rows, number, execution, *side, row, flickers)?;
    }
    Ok(())
}

/// Adds a quotation that an execution traded through, if self-help does not take it out.
fn add_quotation(
    rows: &mut Vec<[u64; 9]>,
    number: u64,
    execution: &Execution,
    side: Side,
    row: &Row,
    flickers: bool,
) -> Result<(), AllocError>
    ensures { OnOk result (rows.new.items ≡ rows.old.items
        ++ (if is_helped execution.now row.now then [] else passed_cells number execution.now (side, row.now) flickers ∷ [])) }
{
    if is_helped(execution, row) {
        return Ok(());
    }
    rows.push(passed_cells(number, execution, side, row, flickers))?;
    Ok(())
}

/// The row of an execution.
fn execution_row(
    window: &Window<'_>,
    execution: &Execution,
    finding: &Finding,
    day: u64,
) -> [u64; 13]
    ensures { result ≡ execution_row window.now (record { execution = execution.now; finding = finding.now; day = day }) }
{
    let sums = sums_of(execution, finding);
    [
        day,
        time_shown(window, execution),
        execution.version,
        kind_of(finding.standing),
        execution.millionths,
        u64::from(execution.shares.get()),
        side_of(execution.deal),
        part_cell(execution.part),
        execution.number,
        sums.count,
        sums.worst,
        u64::from(sums.shares),
        causes_shown(execution, finding, &sums),
    ]
}

/// The time of an execution: its own, or else that of its version.
fn time_shown(window: &Window<'_>, execution: &Execution) -> u64
    ensures { result ≡ time_shown window.now execution.now execution.now.time }
{
    match execution.time {
        Some(time) => time.since_midnight(),
        None => window.time_of(execution.version),
    }
}

/// The number of a standing: 3 for a trade-through, 2 for a possible one, 1 if the symbol was not yet quoted, else 0.
fn kind_of(standing: Standing) -> u64
    ensures { result ≡ kind_of standing }
{
    match standing {
        Standing::Clean | Standing::Other => 0,
        Standing::Unquoted => 1,
        Standing::Perhaps => 2,
        Standing::Through => 3,
    }
}

/// Whether an execution is flagged, because it traded through a quotation or perhaps did.
fn is_flagged(standing: Standing) -> bool
    ensures { result ≡ is_flagged standing }
{
    match standing {
        Standing::Perhaps | Standing::Through => true,
        Standing::Clean | Standing::Unquoted | Standing::Other => false,
    }
}

/// The number of the side of an execution: 1 if it bought, 2 if it sold, 0 if that is not known.
fn side_of(deal: Option<Deal>) -> u64
    ensures { result ≡ side_of deal }
{
    match deal {
        None => 0,
        Some(Deal::Bought) => 1,
        Some(Deal::Sold) => 2,
    }
}

/// The number of a participant, 0 if there is none.
fn part_cell(part: Option<Part>) -> u64
    ensures { result ≡ part_cell part }
{
    match part {
        Some(part) => u64::from(part.get()) + 1,
        None => 0,
    }
}

/// The causes that apply to an execution, as a number; 0 if the execution is not flagged.
fn causes_shown(execution: &Execution, finding: &Finding, sums: &Sums) -> u64
    ensures { result ≡ causes_shown execution.now finding.now sums.now }
{
    if !is_flagged(finding.standing) {
        return 0;
    }
    causes_number(execution, finding, sums)
}

/// The causes that apply to an execution, as a number. The first cause counts 1, and each next one twice as much.
fn causes_number(execution: &Execution, finding: &Finding, sums: &Sums) -> u64
    ensures { result ≡ causes_number execution.now finding.now sums.now }
{
    weight_of(Cause::SelfHelp, execution, finding, sums, 1)
        + weight_of(Cause::NotRegular, execution, finding, sums, 2)
        + weight_of(Cause::SinglePriced, execution, finding, sums, 4)
        + weight_of(Cause::Crossed, execution, finding, sums, 8)
        + weight_of(Cause::Sweep, execution, finding, sums, 16)
        + weight_of(Cause::Swept, execution, finding, sums, 32)
        + weight_of(Cause::Benchmark, execution, finding, sums, 64)
        + weight_of(Cause::Flicker, execution, finding, sums, 128)
        + weight_of(Cause::Stopped, execution, finding, sums, 256)
        + weight_of(Cause::Contingent, execution, finding, sums, 512)
        + weight_of(Cause::Exempt, execution, finding, sums, 1024)
        + weight_of(Cause::OutsideHours, execution, finding, sums, 2048)
        + weight_of(Cause::OutOfSequence, execution, finding, sums, 4096)
}

/// The number that a cause counts, if it applies to an execution, else 0.
fn weight_of(
    cause: Cause,
    execution: &Execution,
    finding: &Finding,
    sums: &Sums,
    weight: u64,
) -> u64
    ensures weight { result ≡ counted (is_cause cause execution.now finding.now sums.now) weight }
    ensures within { result ≤ weight }
{
    if cause.applies(
        &execution.claims,
        finding.crossed,
        sums.helped,
        sums.is_flickering(),
    ) {
        weight
    } else {
        0
    }
}

/// The row of a quotation that an execution traded through.
fn passed_cells(
    number: u64,
    execution: &Execution,
    side: Side,
    row: &Row,
    flickers: bool,
) -> [u64; 9]
    ensures { result ≡ passed_cells number execution.now (side, row.now) flickers }
{
    [
        number,
        offer_cell(side),
        u64::from(row.part.get()) + 1,
        row.price.get(),
        u64::from(row.size),
        execution.version - row.receipt.min(execution.version),
        difference(row, execution.millionths),
        own_cell(execution.part, row),
        u64::from(flickers),
    ]
}

/// 1 for an offer, 0 for a bid.
fn offer_cell(side: Side) -> u64
    ensures { result ≡ offer_cell side }
{
    match side {
        Side::Bid => 0,
        Side::Offer => 1,
    }
}

/// 1 for a quotation of the participant that executed, else 0.
fn own_cell(part: Option<Part>, row: &Row) -> u64
    ensures { result ≡ own_cell part row.now }
{
    match part {
        Some(part) => u64::from(part == row.part),
        None => 0,
    }
}
