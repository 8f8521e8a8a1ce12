//! Calls that read many records in one text: `specs/TextLines`.
ghost use Rattle.std.specs.Prelude.{◌≡◌, ◌≢◌, ◌+◌, ◌<◌, ◌==◌, ◌∷◌, drop, Err, length, OnErr, position, take};
ghost use Rattle.std.specs.Result.{result_err};
ghost use Rattle.std.specs.Str.Lines.{strip_carriage_return};
ghost use Rattle.nms_calls.specs.Opened.{version};
ghost use Rattle.nms_calls.specs.TextLines.{AreAppliedRecords, all_records, line_start, records_in};

use crate::call_fault::CallFault;
use crate::open_board::OpenBoard;
use nms_fees::SetupFault;

impl OpenBoard {
    /// Applies the changes that the lines of a text say, in order up to the first that is refused. Writes how many were
    /// applied, and the byte at which the next line begins. If no line is left, that is the text's length.
    pub fn apply_lines(
        &mut self,
        text: &[u8],
        applied: &mut usize,
        at: &mut usize,
    ) -> Result<(), CallFault>
        ensures answer { result ≢ Err (CallFault.Setup SetupFault.NoMemory) → result_err result ≡ (all_records self.old (records_in text.now)).fault }
        ensures applied { result ≢ Err (CallFault.Setup SetupFault.NoMemory) → applied.new ≡ (all_records self.old (records_in text.now)).applied }
        ensures refused { OnErr result (applied.new < length (records_in text.now)) }
        ensures at { at.new ≡ line_start text.now applied.new }
        ensures rest { records_in (drop at.new text.now) ≡ drop applied.new (records_in text.now) }
        ensures left { AreAppliedRecords self.old (take applied.new (records_in text.now)) self.new }
        ensures version { version self.new ≡ version self.old + applied.new }
    {
        let mut taken = 0;
        let mut start = 0;
        while start < text.len() {
            let (record, bytes) = first_record(&text[start..]);
            if let Err(fault) = self.apply_record(record) {
                *applied = taken;
                *at = start;
                return Err(fault);
            }
            taken += 1;
            start += bytes;
        }
        *applied = taken;
        *at = start;
        Ok(())
    }
}

/// The first record of a text, and how many bytes its line takes, with the characters that end it.
fn first_record(text: &[u8]) -> (&[u8], usize)
    requires { 0 < length text.now }
    ensures line { records_in text.now ≡ result.0.now ∷ records_in (drop result.1 text.now) }
    ensures bytes { result.1 ≡ line_start text.now 1 }
{
    match first_feed(text) {
        Some(end) => (without_return(&text[..end]), end + 1),
        None => (text, text.len()),
    }
}

/// The place of a text's first line feed, in bytes from the start. `None` if the text has no line feed.
fn first_feed(text: &[u8]) -> Option<usize>
    ensures { result ≡ position (λ byte. byte == 10) text.now }
{
    text.iter().position(|byte| *byte == b'\n')
}

/// A line without the carriage return at its end.
fn without_return(line: &[u8]) -> &[u8]
    ensures { result.now ≡ strip_carriage_return line.now }
{
    match line.last() {
        Some(b'\r') => &line[..line.len() - 1],
        _ => line,
    }
}
