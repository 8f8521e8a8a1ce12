//! The texts of codes: `specs/CodeTexts`.
ghost use Rattle.std.specs.Prelude.{◌≡◌, codes, IfSome, OnErr, OnOk, option_map};
ghost use Rattle.std.specs.Result.{result_err};
ghost use Rattle.nms_calls.specs.CodeTexts.{code_fault, code_text, fault_with, line_text, line_with, own_with, setup_text, setup_with, text_of};
ghost use Rattle.nms_calls.specs.Written.{IsWritten, text_fault};

use crate::call_fault::CallFault;
use crate::text_writing::put_text;
use nms_fees::SetupFault;
use nms_lines::LineFault;

/// Writes the version of the library.
pub fn put_version(out: &mut [u8], bytes: &mut usize) -> Result<(), CallFault>
    ensures answer { result_err result ≡ text_fault (codes "0.3.0") out.old }
    ensures written { OnOk result (IsWritten (codes "0.3.0") out.old out.new bytes.new) }
    ensures unwritten { OnErr result ((out.new ≡ out.old) × (bytes.new ≡ bytes.old)) }
{
    put_text("0.3.0".as_bytes(), out, bytes)
}

/// Writes what a code means. `NoRow` if no call answers with it.
pub fn put_code(code: u32, out: &mut [u8], bytes: &mut usize) -> Result<(), CallFault>
    ensures answer { result_err result ≡ code_fault (code_text code) out.old }
    ensures written { OnOk result (IfSome (code_text code) (λ text. IsWritten text out.old out.new bytes.new)) }
    ensures unwritten { OnErr result ((out.new ≡ out.old) × (bytes.new ≡ bytes.old)) }
{
    match code_text(code) {
        Some(text) => put_text(text.as_bytes(), out, bytes),
        None => Err(CallFault::NoRow),
    }
}

/// The text that says what a code means. `None` if no call answers with the code.
fn code_text(code: u32) -> Option<&'static str>
    ensures { option_map (λ text. text.now) result ≡ code_text code }
{
    if code == 0 {
        return Some("done");
    }
    match fault_with(code) {
        Some(fault) => Some(text_of(fault)),
        None => None,
    }
}

/// The fault that has a code.
fn fault_with(code: u32) -> Option<CallFault>
    ensures { result ≡ fault_with code }
{
    if let Some(fault) = setup_with(code) {
        return Some(CallFault::Setup(fault));
    }
    if let Some(fault) = line_with(code) {
        return Some(CallFault::Line(fault));
    }
    own_with(code)
}

/// The setup's fault that has a code.
fn setup_with(code: u32) -> Option<SetupFault>
    ensures { result ≡ setup_with code }
{
    match code {
        1 => Some(SetupFault::NotToml),
        2 => Some(SetupFault::Missing),
        3 => Some(SetupFault::UnknownKey),
        4 => Some(SetupFault::BadName),
        5 => Some(SetupFault::WrongType),
        6 => Some(SetupFault::OutOfRange),
        7 => Some(SetupFault::OverCap),
        8 => Some(SetupFault::TooMany),
        9 => Some(SetupFault::NoMemory),
        _ => None,
    }
}

/// The record's fault that has a code.
fn line_with(code: u32) -> Option<LineFault>
    ensures { result ≡ line_with code }
{
    match code {
        101 => Some(LineFault::UnknownKind),
        102 => Some(LineFault::FieldCount),
        103 => Some(LineFault::UnknownParticipant),
        104 => Some(LineFault::UnknownSymbol),
        105 => Some(LineFault::BadState),
        106 => Some(LineFault::BadPrice),
        107 => Some(LineFault::BadShares),
        108 => Some(LineFault::HalfSide),
        109 => Some(LineFault::WrongFeed),
        110 => Some(LineFault::BadDesk),
        114 => Some(LineFault::BadLot),
        _ => None,
    }
}

/// The fault that has a code and is of neither a setup nor a record.
fn own_with(code: u32) -> Option<CallFault>
    ensures { result ≡ own_with code }
{
    match code {
        10 => Some(CallFault::Range),
        11 => Some(CallFault::NoParticipant),
        12 => Some(CallFault::NoSymbol),
        13 => Some(CallFault::Full),
        14 => Some(CallFault::NoRow),
        15 => Some(CallFault::Closed),
        16 => Some(CallFault::Doubted),
        17 => Some(CallFault::OpenAlready),
        18 => Some(CallFault::Null),
        19 => Some(CallFault::NoRoom),
        21 => Some(CallFault::NoView),
        111 => Some(CallFault::PlanText),
        _ => None,
    }
}

/// A fault in words.
fn text_of(fault: CallFault) -> &'static str
    ensures { result.now ≡ text_of fault }
{
    match fault {
        CallFault::Setup(fault) => setup_text(fault),
        CallFault::Line(fault) => line_text(fault),
        CallFault::Range => "a number is out of its range",
        CallFault::NoParticipant => "no such participant",
        CallFault::NoSymbol => "no such symbol",
        CallFault::Full => "2^63 changes were applied: the board takes no more",
        CallFault::NoRow => "nothing stands there",
        CallFault::Closed => "the board is not open",
        CallFault::Doubted => "the plan is not confirmed",
        CallFault::OpenAlready => "the board is open already",
        CallFault::Null => "a null pointer",
        CallFault::NoRoom => "the buffer is too small",
        CallFault::NoView => "no look shows such a view",
        CallFault::PlanText => "L11: not the text of a plan",
    }
}

/// A setup's fault in words.
fn setup_text(fault: SetupFault) -> &'static str
    ensures { result.now ≡ setup_text fault }
{
    match fault {
        SetupFault::NotToml => "C1: not a TOML document",
        SetupFault::Missing => "C2: a key is missing",
        SetupFault::UnknownKey => "C3: an unknown key",
        SetupFault::BadName => "C4: a bad name, or the same name twice",
        SetupFault::WrongType => "C5: a value of another kind",
        SetupFault::OutOfRange => "C6: a value out of range",
        SetupFault::OverCap => "C7: a fee over its cap",
        SetupFault::TooMany => "C8: too many participants or symbols",
        SetupFault::NoMemory => "C9: out of memory",
    }
}

/// A record's fault in words.
fn line_text(fault: LineFault) -> &'static str
    ensures { result.now ≡ line_text fault }
{
    match fault {
        LineFault::UnknownKind => "L1: unknown kind",
        LineFault::FieldCount => "L2: wrong number of fields",
        LineFault::UnknownParticipant => "L3: unknown participant",
        LineFault::UnknownSymbol => "L4: unknown symbol",
        LineFault::BadState => "L5: not a state, a side or a flag",
        LineFault::BadPrice => "L6: not a price",
        LineFault::BadShares => "L7: not a share count",
        LineFault::HalfSide => "L8: half a side",
        LineFault::WrongFeed => "L9: wrong feed",
        LineFault::BadDesk => "L10: no such desk",
        LineFault::BadLot => "L14: not a round lot",
    }
}
