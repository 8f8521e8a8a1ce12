//! Whether the last line of each file counts the rows before it: `specs/LastLines`.
ghost use Rattle.std.specs.Prelude.{◌≡◌};
ghost use Rattle.csv.specs.Records.{fields_of};
ghost use Rattle.nms_import.specs.LastLines.{is_counted, lacks_count};

use csv::ByteRecord;
use nms_lines::field_at;
use nms_units::parse_digits;

/// What is known about the last lines of files. Without a place for their count nothing is required of them.
#[derive(Clone, Copy)]
pub struct LastLines {
    /// The place of the count in a last line, counted from 0.
    pub count: Option<u16>,
    /// How many rows come before the part of the file that is being read. They are those before the file, or up to the latest
    /// last line.
    pub begun: u64,
    /// Whether the file has had a last line.
    pub ended: bool,
    /// Whether a count was wrong, or a file did not end with a last line.
    pub short: bool,
}

impl LastLines {
    ghost use Rattle.std.specs.Prelude.{◌≡◌};
    ghost use Rattle.csv.specs.Records.{fields_of};
    ghost use Rattle.nms_import.specs.LastLines.{after_file, after_last, before_files, in_file};

    /// The state before the first file.
    pub fn new(count: Option<u16>) -> LastLines
        ensures { result ≡ before_files count }
    {
        LastLines {
            count,
            begun: 0,
            ended: false,
            short: false,
        }
    }

    /// Begins a file, after n rows of earlier files.
    pub fn begin_file(&mut self, rows: u64)
        ensures { self.new ≡ in_file self.old rows }
    {
        self.begun = rows;
        self.ended = false;
    }

    /// Notes the last line of a file. `number` is its number among the rows of all files, counted from 1.
    pub fn note(&mut self, row: &ByteRecord, number: u64)
        ensures { self.new ≡ after_last self.old (fields_of row.now) number }
    {
        self.short = self.short || lacks_count(self.count, row, self.begun, number);
        self.begun = number;
        self.ended = true;
    }

    /// Ends a file, after n rows of all files.
    pub fn end_file(&mut self, rows: u64)
        ensures { self.new ≡ after_file self.old rows }
    {
        let is_whole = self.count.is_none() || self.ended && self.begun == rows;
        self.short = self.short || !is_whole;
    }
}

/// Whether the count in a last line is wrong. The right count is the number of rows after the first `begun` rows and before the
/// last line.
fn lacks_count(count: Option<u16>, row: &ByteRecord, begun: u64, number: u64) -> bool
    ensures { result ≡ lacks_count count (fields_of row.now) begun number }
{
    match count {
        None => false,
        Some(place) => !is_counted(field_at(row, usize::from(place)), begun, number),
    }
}

/// Whether a text is the number of rows that come after the first `begun` rows and before the row with the given number.
fn is_counted(text: &[u8], begun: u64, number: u64) -> bool
    ensures { result ≡ is_counted text.now begun number }
{
    match parse_digits(text, 15) {
        Some(said) => begun < number && said == number - begun - 1,
        None => false,
    }
}
