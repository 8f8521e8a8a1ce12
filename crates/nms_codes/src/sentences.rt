//! The meaning of each code, as a sentence.
ghost use Rattle.std.specs.Prelude.{◌≡◌, true};
ghost use Rattle.nms_show.specs.Plain.{is_plain};

use crate::code::Code;

impl Code {
    /// The meaning of the code, in a sentence. The sentence is about the argument or the file that is printed before it, if
    /// any.
    pub fn sentence(self) -> &'static str
        ensures { is_plain result.now ≡ true }
    {
        match self {
            Code::A1 => "the file has fewer changes than that version",
            Code::B1 => "memory ran out for the board",
            Code::C1 => "this setup is no TOML",
            Code::C2 => "a key is absent from this setup",
            Code::C3 => "this setup has a key that is not known",
            Code::C4 => "a name in this setup is not of its form, or stands twice",
            Code::C5 => "a value in this setup is not of its kind",
            Code::C6 => "a number in this setup is out of its range",
            Code::C7 => "a fee or a rate in this setup is over its cap",
            Code::C8 => "this setup has too many participants or symbols",
            Code::C9 => "memory ran out for the setup",
            Code::E1 => "it could not be read",
            Code::E2 => "the output could not be written",
            Code::E3 => "it has more than 10,000,000 records",
            Code::E3Rows => "there are more than 1,000,000,000,000 rows",
            Code::E4 => "memory ran out",
            Code::F4 => "it has more changes than the setup's tape_limit",
            Code::G2 => "memory ran out for the words",
            Code::H1 => "a line is not the time of a change",
            Code::H2 =>
                "a time is before the one above it; if the file is sorted by symbol, give --symbols",
            Code::H3 => "it has not as many lines as there are changes",
            Code::H4 => "a line is not a symbol with its first and its last version",
            Code::I1 =>
                "more than half of the rows were refused: is it the mapping of these files?",
            Code::I2 =>
                "no row shows a round lot on either side: are the sizes lots, and not shares?",
            Code::I3 => "times fall, though the mapping says that they do not",
            Code::I4 =>
                "the count at the end of a file is not that of its rows: is the file complete?",
            Code::I5 =>
                "nothing was imported: no row is of a symbol of the setup that could be read",
            Code::J1 =>
                "it has not one time of 15 digits for each change, as import without --rows writes them",
            Code::J2 => "a change is before an earlier one, in the order that the mapping gives",
            Code::J3 => "a row is before an earlier one, in the order that the mapping gives",
            Code::L1 => "the first refused record is of no kind that is read there",
            Code::L2 => "the first refused record has not the number of fields of its kind",
            Code::L3 => "the first refused record names a participant that is not on the roster",
            Code::L4 => "the first refused record names a symbol that is not on the roster",
            Code::L5 => "the first refused record has a state that is none",
            Code::L6 => "the first refused record has a price that is none",
            Code::L7 => "the first refused record has shares that are none",
            Code::L8 => "the first refused record has half a side",
            Code::L9 => "the first refused record is of another feed",
            Code::L10 => "the first refused record has a desk that is none",
            Code::L11 => "it is not the text of one plan",
            Code::L12 => "memory ran out for the text of a plan",
            Code::L13 => "the text of a plan could not be written",
            Code::L14 => "the first refused record has a round lot that is none",
            Code::M1 => "this mapping is no TOML",
            Code::M2 => "a key is absent",
            Code::M3 => "a key that is not known",
            Code::M4 => "a value that is not allowed",
            Code::M5 => "the file has no such column",
            Code::M6 => "memory ran out for the mapping",
            Code::Usage => "the words of the call were refused",
        }
    }
}
