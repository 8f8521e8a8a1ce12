//! The codes with which the reviewer's program ends, or which it reports about a record or a setup.
ghost use Rattle.std.specs.Prelude.{◌≡◌, true};
ghost use Rattle.nms_codes.specs.Codes.{matter_of, status_of, text_of};
ghost use Rattle.nms_show.specs.Plain.{is_plain};

use crate::matter::Matter;

/// A code, by letter and number. Each is printed as it is named here, except `E3Rows` and `Usage`.
#[derive(Clone, Copy, Debug, PartialEq, Eq, PartialOrd, Ord)]
pub enum Code {
    /// A1: a file has fewer changes than the version that was asked for.
    A1,
    /// B1: out of memory for the board.
    B1,
    /// C1: a setup is not a TOML document.
    C1,
    /// C2: a setup lacks a key.
    C2,
    /// C3: a setup has a key that is not known.
    C3,
    /// C4: a name in a setup does not have its form, or occurs twice.
    C4,
    /// C5: a value in a setup does not have its kind.
    C5,
    /// C6: a number in a setup is out of its range.
    C6,
    /// C7: a fee or a rate in a setup is over its cap.
    C7,
    /// C8: a setup has too many participants or symbols.
    C8,
    /// C9: out of memory for a setup.
    C9,
    /// E1: a file could not be read.
    E1,
    /// E2: the output could not be written.
    E2,
    /// E3: a file has more than 10,000,000 records.
    E3,
    /// E3: there are more than 1,000,000,000,000 rows.
    E3Rows,
    /// E4: out of memory.
    E4,
    /// F4: a file has more changes than the tape's limit.
    F4,
    /// G2: out of memory for the arguments of the call.
    G2,
    /// H1: a line of a file of times is not the time of a change.
    H1,
    /// H2: a time is before the one above it.
    H2,
    /// H3: the number of times is not that of the changes.
    H3,
    /// H4: a line of the symbols is malformed.
    H4,
    /// I1: most rows of an import were refused.
    I1,
    /// I2: no row of an import shows a round lot.
    I2,
    /// I3: times of an import fall, though its mapping says that they do not.
    I3,
    /// I4: the count at the end of an import's file is not the number of its rows.
    I4,
    /// I5: nothing was imported, because no row is of a symbol of the setup that could be read.
    I5,
    /// J1: a file of times does not have one time of 15 digits for each change.
    J1,
    /// J2: the changes are not in the order of the mapping.
    J2,
    /// J3: the rows are not in the order of the mapping.
    J3,
    /// L1: a record is of no kind that its file may have.
    L1,
    /// L2: a record does not have the number of fields of its kind.
    L2,
    /// L3: a participant is not on the roster.
    L3,
    /// L4: a symbol is not on the roster.
    L4,
    /// L5: a text is no state, no side or no flag.
    L5,
    /// L6: a text is no price.
    L6,
    /// L7: a text is no number of shares.
    L7,
    /// L8: a side has only one of its two fields.
    L8,
    /// L9: a record is of another feed.
    L9,
    /// L10: a record names a desk that does not exist.
    L10,
    /// L11: a text is not that of a plan.
    L11,
    /// L12: out of memory for the text of a plan.
    L12,
    /// L13: the text of a plan could not be written.
    L13,
    /// L14: a text is no round lot.
    L14,
    /// M1: a mapping is not a TOML document.
    M1,
    /// M2: a mapping lacks a key.
    M2,
    /// M3: a mapping has a key that is not known.
    M3,
    /// M4: a mapping has a value that is not allowed.
    M4,
    /// M5: a file lacks a column that its mapping names.
    M5,
    /// M6: out of memory for a mapping.
    M6,
    /// The arguments of the call were refused.
    Usage,
}

impl Code {
    /// The code as it is printed: a letter and a number, or `usage`.
    pub fn text(self) -> &'static str
        ensures text { result.now ≡ text_of self }
        ensures plain { is_plain result.now ≡ true }
    {
        match self {
            Code::A1 => "A1",
            Code::B1 => "B1",
            Code::C1 => "C1",
            Code::C2 => "C2",
            Code::C3 => "C3",
            Code::C4 => "C4",
            Code::C5 => "C5",
            Code::C6 => "C6",
            Code::C7 => "C7",
            Code::C8 => "C8",
            Code::C9 => "C9",
            Code::E1 => "E1",
            Code::E2 => "E2",
            Code::E3 | Code::E3Rows => "E3",
            Code::E4 => "E4",
            Code::F4 => "F4",
            Code::G2 => "G2",
            Code::H1 => "H1",
            Code::H2 => "H2",
            Code::H3 => "H3",
            Code::H4 => "H4",
            Code::I1 => "I1",
            Code::I2 => "I2",
            Code::I3 => "I3",
            Code::I4 => "I4",
            Code::I5 => "I5",
            Code::J1 => "J1",
            Code::J2 => "J2",
            Code::J3 => "J3",
            Code::L1 => "L1",
            Code::L2 => "L2",
            Code::L3 => "L3",
            Code::L4 => "L4",
            Code::L5 => "L5",
            Code::L6 => "L6",
            Code::L7 => "L7",
            Code::L8 => "L8",
            Code::L9 => "L9",
            Code::L10 => "L10",
            Code::L11 => "L11",
            Code::L12 => "L12",
            Code::L13 => "L13",
            Code::L14 => "L14",
            Code::M1 => "M1",
            Code::M2 => "M2",
            Code::M3 => "M3",
            Code::M4 => "M4",
            Code::M5 => "M5",
            Code::M6 => "M6",
            Code::Usage => "usage",
        }
    }

    /// The matter that the code is about.
    pub fn matter(self) -> Matter
        ensures { result ≡ matter_of self }
    {
        match self {
            Code::L1
            | Code::L2
            | Code::L3
            | Code::L4
            | Code::L5
            | Code::L6
            | Code::L7
            | Code::L8
            | Code::L9
            | Code::L10
            | Code::L11
            | Code::L14 => Matter::Record,
            Code::A1
            | Code::E3
            | Code::E3Rows
            | Code::F4
            | Code::H1
            | Code::H2
            | Code::H3
            | Code::H4
            | Code::J1
            | Code::J2
            | Code::J3 => Matter::Content,
            Code::C1 | Code::C2 | Code::C3 | Code::C4 | Code::C5 | Code::C6 | Code::C7 | Code::C8 =>
                Matter::Setup,
            Code::M1 | Code::M2 | Code::M3 | Code::M4 | Code::M5 => Matter::Mapping,
            Code::Usage => Matter::Words,
            Code::E1 => Matter::Input,
            Code::E2 | Code::L13 => Matter::Output,
            Code::B1 | Code::C9 | Code::E4 | Code::G2 | Code::L12 | Code::M6 => Matter::Memory,
            Code::I1 | Code::I2 | Code::I3 | Code::I4 | Code::I5 => Matter::Import,
        }
    }

    /// The exit status of a call that ends with the code.
    pub fn status(self) -> u8
        ensures { result ≡ status_of self }
    {
        self.matter().status()
    }
}
