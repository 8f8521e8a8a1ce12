//! Why a call is refused, and the code that the caller receives for it: `specs/Codes`.
ghost use Rattle.std.specs.Prelude.{◌≡◌, ◌≤◌, Ok};
ghost use Rattle.std.specs.Result.{result_err};
ghost use Rattle.nms_calls.specs.Codes.{answer_of, code_of, line_code, setup_code};

use nms_fees::SetupFault;
use nms_lines::LineFault;

/// Why a call is refused. It leaves the board as it was.
#[derive(Clone, Copy, Debug, PartialEq, Eq)]
pub enum CallFault {
    /// 1 to 9: the text is no setup, or out of memory.
    Setup(SetupFault),
    /// 10: a number is out of its range, or a side has a price and no shares, or shares and no price.
    Range,
    /// 11: no such participant on the roster.
    NoParticipant,
    /// 12: no such symbol on the roster.
    NoSymbol,
    /// 13: the board has taken 2^63 changes. The setup's limit of the tape does not count here.
    Full,
    /// 14: the rank order has no row at that place.
    NoRow,
    /// 15: the board is not open.
    Closed,
    /// 16: the plan is not confirmed.
    Doubted,
    /// 17: the board is open already.
    OpenAlready,
    /// 18: a pointer that must not be null is null. The C header finds this before a call reaches the library.
    Null,
    /// 19: the caller's buffer is too small.
    NoRoom,
    /// 21: the numbers are no view, because no look shows them.
    NoView,
    /// 101 to 110, and 114: the record is refused.
    Line(LineFault),
    /// 111: the text is no plan.
    PlanText,
}

impl CallFault {
    /// The code that the caller receives for this refusal, 1 to 114.
    pub fn code(self) -> u32
        ensures code { result ≡ code_of self }
        ensures low { 1 ≤ result }
    {
        match self {
            CallFault::Setup(fault) => setup_code(fault),
            CallFault::Range => 10,
            CallFault::NoParticipant => 11,
            CallFault::NoSymbol => 12,
            CallFault::Full => 13,
            CallFault::NoRow => 14,
            CallFault::Closed => 15,
            CallFault::Doubted => 16,
            CallFault::OpenAlready => 17,
            CallFault::Null => 18,
            CallFault::NoRoom => 19,
            CallFault::NoView => 21,
            CallFault::Line(fault) => line_code(fault),
            CallFault::PlanText => 111,
        }
    }
}

/// The number of a setup's fault, C1 to C9.
pub(crate) fn setup_code(fault: SetupFault) -> u32
    ensures code { result ≡ setup_code fault }
    ensures low { 1 ≤ result }
{
    match fault {
        SetupFault::NotToml => 1,
        SetupFault::Missing => 2,
        SetupFault::UnknownKey => 3,
        SetupFault::BadName => 4,
        SetupFault::WrongType => 5,
        SetupFault::OutOfRange => 6,
        SetupFault::OverCap => 7,
        SetupFault::TooMany => 8,
        SetupFault::NoMemory => 9,
    }
}

/// 100 more than the number of a record's fault, L1 to L10 or L14.
fn line_code(fault: LineFault) -> u32
    ensures code { result ≡ line_code fault }
    ensures low { 1 ≤ result }
{
    match fault {
        LineFault::UnknownKind => 101,
        LineFault::FieldCount => 102,
        LineFault::UnknownParticipant => 103,
        LineFault::UnknownSymbol => 104,
        LineFault::BadState => 105,
        LineFault::BadPrice => 106,
        LineFault::BadShares => 107,
        LineFault::HalfSide => 108,
        LineFault::WrongFeed => 109,
        LineFault::BadDesk => 110,
        LineFault::BadLot => 114,
    }
}

/// The answer of a call: 0, or the code of why it is refused.
pub fn answer(called: Result<(), CallFault>) -> u32
    ensures code { result ≡ answer_of (result_err called) }
    ensures done { called ≡ Ok tt → result ≡ 0 }
    ensures refused { result ≡ 0 → called ≡ Ok tt }
{
    match called {
        Ok(()) => 0,
        Err(fault) => fault.code(),
    }
}
