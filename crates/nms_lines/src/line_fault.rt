//! Why a record is refused: `specs/Faults`.
ghost use Rattle.std.specs.Prelude.{◌≡◌};
ghost use Rattle.nms_lines.specs.Faults.{at, code_of};
ghost use Rattle.nms_lines.specs.RecordFaults.{refused_status};

use std::fmt;
use thiserror::Error;

/// Why a record is refused. The fault that holds with the least number is reported.
#[derive(Clone, Copy, Debug, PartialEq, Eq, Error)]
pub enum LineFault {
    /// L1: the first field is not a kind that the record's source may have.
    UnknownKind,
    /// L2: a record of its kind does not have that number of fields.
    FieldCount,
    /// L3: the participant is not on the roster.
    UnknownParticipant,
    /// L4: the symbol is not on the roster.
    UnknownSymbol,
    /// L5: the state, the order's side or its flag has an unknown letter, or the word before an average price is not `AVG`.
    BadState,
    /// L6: a price does not have its form, or is zero when a quotation, an order or a round lot needs one.
    BadPrice,
    /// L7: a share count is not 1 to 9 digits, or is zero when an order needs one.
    BadShares,
    /// L8: a side has a price without shares, or shares without a price.
    HalfSide,
    /// L9: the participant is of another feed than the one that is read, or a round lot is not on the first feed.
    WrongFeed,
    /// L10: the desk is not 1 or 2 digits, or not below the number of desks.
    BadDesk,
    /// L14: a round lot is not 1 to 4 digits, or not from 1 to 1,000.
    BadLot,
}

/// The place at which a record is wrong.
#[derive(Clone, Copy, Debug, PartialEq, Eq)]
pub enum FaultPlace {
    /// The record as such: it has another number of fields than its kind.
    Record,
    /// A field, numbered by how many fields come before it.
    Field(u8),
}

/// A fault of a record, and its place in the record.
#[derive(Clone, Copy, Debug, PartialEq, Eq)]
pub struct PlacedFault {
    /// The fault.
    pub fault: LineFault,
    /// The place of the fault.
    pub place: FaultPlace,
}

impl PlacedFault {
    /// A fault of one field, which is numbered by how many fields come before it.
    pub(crate) fn at(fault: LineFault, place: u8) -> Self
        ensures { result ≡ at fault place }
    {
        PlacedFault {
            fault,
            place: FaultPlace::Field(place),
        }
    }
}

impl LineFault {
    /// The code in answers and messages, `L1` to `L10` or `L14`.
    pub fn code(self) -> &'static str
        ensures { result.now ≡ code_of self }
    {
        match self {
            LineFault::UnknownKind => "L1",
            LineFault::FieldCount => "L2",
            LineFault::UnknownParticipant => "L3",
            LineFault::UnknownSymbol => "L4",
            LineFault::BadState => "L5",
            LineFault::BadPrice => "L6",
            LineFault::BadShares => "L7",
            LineFault::HalfSide => "L8",
            LineFault::WrongFeed => "L9",
            LineFault::BadDesk => "L10",
            LineFault::BadLot => "L14",
        }
    }

    /// The exit status of a program that ends at a refused record, 6.
    pub fn status(self) -> u8
        ensures { result ≡ refused_status }
    {
        6
    }

    /// The message: the code, and what is wrong.
    fn message(self) -> &'static str {
        match self {
            LineFault::UnknownKind => "L1: unknown kind",
            LineFault::FieldCount => "L2: wrong number of fields",
            LineFault::UnknownParticipant => "L3: unknown participant",
            LineFault::UnknownSymbol => "L4: unknown symbol",
            LineFault::BadState => "L5: not a state, a side or a flag",
            LineFault::BadPrice => "L6: not a price",
            LineFault::BadShares => "L7: not a share count",
            LineFault::HalfSide => "L8: half a side",
            LineFault::WrongFeed => "L9: wrong feed",
            LineFault::BadDesk => "L10: no such desk",
            LineFault::BadLot => "L14: not a round lot",
        }
    }
}

impl fmt::Display for LineFault {
    fn fmt<W: fmt::Write>(&self, f: &mut fmt::Formatter<W>) -> fmt::Result {
        f.write_str(self.message())
    }
}
