//! How many records were read, and how many were refused by each code.
ghost use Rattle.std.specs.Prelude.{◌≡◌, ◌<◌, ◌+◌, ◌-◌, ◌^◌, ◌||◌, false};
ghost use Rattle.nms_explain.specs.Counted.{IsWithin, publishes};

use crate::refusal_code::RefusalCode;
use nms_codes::Code;
use nms_lines::{Line, LineFault};
use nms_show::{Item, SafeText};
use std::alloc::AllocError;

/// The number of faults for which a record may be refused. The place of each fault is below it, so a new fault needs a greater
/// one.
const FAULT_COUNT: usize = 11;

/// The faults of a record, in the order of their codes.
const FAULTS: [LineFault; FAULT_COUNT] = [
    LineFault::UnknownKind,
    LineFault::FieldCount,
    LineFault::UnknownParticipant,
    LineFault::UnknownSymbol,
    LineFault::BadState,
    LineFault::BadPrice,
    LineFault::BadShares,
    LineFault::HalfSide,
    LineFault::WrongFeed,
    LineFault::BadDesk,
    LineFault::BadLot,
];

/// The counts of the records so far.
#[derive(Clone, Copy)]
pub(crate) struct Tally {
    /// How many records there were.
    pub(crate) records: u64,
    /// How many of them were refused.
    pub(crate) refused: u64,
    /// Whether one of the records publishes.
    pub(crate) publishes: bool,
    by_fault: [u64; FAULT_COUNT],
}

impl Tally {
    /// The counts before the first record.
    pub(crate) fn new() -> Self
        ensures records { result.records ≡ 0 }
        ensures refused { result.refused ≡ 0 }
        ensures publishes { result.publishes ≡ false }
        ensures within { IsWithin result }
    {
        Tally {
            records: 0,
            refused: 0,
            publishes: false,
            by_fault: [0; FAULT_COUNT],
        }
    }

    /// Counts a record that is not refused.
    pub(crate) fn take(&mut self, line: &Line)
        requires room { self.old.records < 2 ^ 64 - 1 }
        requires within { IsWithin self.old }
        ensures records { self.new.records ≡ self.old.records + 1 }
        ensures refused { self.new.refused ≡ self.old.refused }
        ensures publishes { self.new.publishes ≡ self.old.publishes || publishes line.now }
        ensures within { IsWithin self.new }
    {
        self.records += 1;
        self.publishes = self.publishes || publishes(line);
    }

    /// Counts a refused record.
    pub(crate) fn refuse(&mut self, fault: LineFault)
        requires room { self.old.records < 2 ^ 64 - 1 }
        requires within { IsWithin self.old }
        ensures records { self.new.records ≡ self.old.records + 1 }
        ensures refused { self.new.refused ≡ self.old.refused + 1 }
        ensures publishes { self.new.publishes ≡ self.old.publishes }
        ensures within { IsWithin self.new }
    {
        self.records += 1;
        self.refused += 1;
        let place = place_of_fault(fault);
        self.by_fault[place] += 1;
    }

    /// How many records were refused by a fault.
    pub(crate) fn count(&self, fault: LineFault) -> u64 {
        self.by_fault[place_of_fault(fault)]
    }

    /// Writes how many records there were, and how many were refused by each code.
    pub(crate) fn tell(&self, file: &str, out: &mut SafeText) -> Result<(), AllocError> {
        tell_counts(file, self.records, self.refused, out)?;
        for fault in FAULTS {
            let code = RefusalCode::Record(Code::of_line(fault));
            tell_count(file, code, self.count(fault), out)?;
        }
        Ok(())
    }
}

/// Whether a record of a script publishes, as `F` and `P` do.
fn publishes(line: &Line) -> bool
    ensures { result ≡ publishes line.now }
{
    match *line {
        Line::TakeAll | Line::Publish => true,
        Line::Change(_)
        | Line::TakeOne
        | Line::Tell { .. }
        | Line::Best { .. }
        | Line::Through { .. }
        | Line::Sweep { .. } => false,
    }
}

/// The place of a fault among the faults, counted from 0.
fn place_of_fault(fault: LineFault) -> usize
    ensures { result < FAULT_COUNT }
{
    match fault {
        LineFault::UnknownKind => 0,
        LineFault::FieldCount => 1,
        LineFault::UnknownParticipant => 2,
        LineFault::UnknownSymbol => 3,
        LineFault::BadState => 4,
        LineFault::BadPrice => 5,
        LineFault::BadShares => 6,
        LineFault::HalfSide => 7,
        LineFault::WrongFeed => 8,
        LineFault::BadDesk => 9,
        LineFault::BadLot => 10,
    }
}

/// Writes how many records a file has, and how many of them were refused.
pub(crate) fn tell_counts(
    file: &str,
    records: u64,
    refused: u64,
    out: &mut SafeText,
) -> Result<(), AllocError> {
    let file = Item::Bytes(file.as_bytes());
    if out.is_json() {
        return out.object(&[
            ("what", Item::Text("summary")),
            ("file", file),
            ("records", Item::Number(records)),
            ("refused", Item::Number(refused)),
        ]);
    }
    out.line(&[
        file,
        Item::Text(": records: "),
        Item::Number(records),
        Item::Text("; refused: "),
        Item::Number(refused),
    ])
}

/// Writes how many records were refused by a code, if any were.
pub(crate) fn tell_count<'a>(
    file: &'a str,
    code: RefusalCode,
    count: u64,
    out: &mut SafeText,
) -> Result<(), AllocError> {
    if count == 0 {
        return Ok(());
    }
    let (code, count) = (Item::Text(code.text()), Item::Number(count));
    if out.is_json() {
        return out.object(&[
            ("what", Item::Text("count")),
            ("file", Item::Bytes(file.as_bytes())),
            ("code", code),
            ("records", count),
        ]);
    }
    out.line(&[Item::Text("    "), code, Item::Text(": "), count])
}

/// Writes a remark about the file.
pub(crate) fn tell_remark<'a>(
    file: &'a str,
    remark: &'a str,
    out: &mut SafeText,
) -> Result<(), AllocError> {
    let (file, remark) = (Item::Bytes(file.as_bytes()), Item::Bytes(remark.as_bytes()));
    if out.is_json() {
        return out.object(&[
            ("what", Item::Text("remark")),
            ("file", file),
            ("remark", remark),
        ]);
    }
    out.line(&[file, Item::Text(": "), remark])
}
