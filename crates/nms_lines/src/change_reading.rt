//! Reading records that have to be changes: `specs/ChangeReading`.
ghost use Rattle.std.specs.Prelude.{◌≡◌, Ok, Err, IfErr, IfOk, true};
ghost use Rattle.csv.specs.Records.{fields_of};
ghost use Rattle.nms_quote.specs.Roster.{holds, sizes_of};
ghost use Rattle.nms_lines.specs.ChangeReading.{IsOwn, change_reading, feed_reading};
ghost use Rattle.nms_lines.specs.declared.line.Line.TheVariants as line;

use crate::line::{Line, Reading};
use crate::line_fault::LineFault;
use crate::line_reading::read_line;
use csv::ByteRecord;
use nms_quote::{Change, Feed, Roster};

/// The change that a record of a file of changes gives. A record of any other kind, such as an order, is refused as
/// `UnknownKind`.
pub fn read_change(row: &ByteRecord, roster: &Roster) -> Result<Change, LineFault>
    ensures line { result ≡ change_reading roster.now (fields_of row.now) }
    ensures there { IfOk result (λ change. holds (sizes_of roster.now) change ≡ true) }
{
    match read_line(row, roster, Reading::Changes) {
        Ok(Line::Change(change)) => Ok(change),
        Ok(
            Line::TakeOne
            | Line::TakeAll
            | Line::Publish
            | Line::Tell { .. }
            | Line::Best { .. }
            | Line::Through { .. }
            | Line::Sweep { .. },
        ) => Err(LineFault::UnknownKind),
        Err(fault) => Err(fault),
    }
}

/// The change that a record of a feed gives. It is one of the feed's participants, or a round lot from feed A.
pub fn read_feed_change(row: &ByteRecord, roster: &Roster, feed: Feed) -> Result<Change, LineFault>
    ensures said { IfOk result (λ change. feed_reading roster.now feed (fields_of row.now) ≡ Ok (line.Change change)) }
    ensures own { IfOk result (IsOwn roster.now feed) }
    ensures refused { IfErr result (λ fault. feed_reading roster.now feed (fields_of row.now) ≡ Err fault) }
{
    match read_line(row, roster, Reading::FromFeed(feed)) {
        Ok(Line::Change(change)) => Ok(change),
        Ok(
            Line::TakeOne
            | Line::TakeAll
            | Line::Publish
            | Line::Tell { .. }
            | Line::Best { .. }
            | Line::Through { .. }
            | Line::Sweep { .. },
        ) => unreachable!(),
        Err(fault) => Err(fault),
    }
}
