//! What to do about a refused record.
use nms_codes::Code;
use nms_lines::LineFault;

/// What to do about a refused record: the remedy of its code, which mentions a side only if the record has sides.
pub(crate) fn remedy_in(fault: LineFault, has_sides: bool) -> &'static str {
    match fault {
        LineFault::FieldCount if !has_sides => "Count the commas.",
        LineFault::BadPrice if !has_sides => "No signs, no spaces, at most four decimals.",
        LineFault::UnknownKind
        | LineFault::FieldCount
        | LineFault::UnknownParticipant
        | LineFault::UnknownSymbol
        | LineFault::BadState
        | LineFault::BadPrice
        | LineFault::BadShares
        | LineFault::HalfSide
        | LineFault::WrongFeed
        | LineFault::BadDesk
        | LineFault::BadLot => Code::of_line(fault).remedy(),
    }
}
