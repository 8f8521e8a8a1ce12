//! What is expected at the place of a fault.
use crate::places::{FieldName, expected_kind};
use nms_lines::{LineFault, Reading};
use nms_quote::Feed;

/// What is expected of a field that was refused.
pub(crate) fn expected_field(fault: LineFault, name: FieldName, from: Reading) -> &'static str {
    match fault {
        LineFault::UnknownKind => expected_kind(from),
        LineFault::FieldCount => "as many fields as the kind has",
        LineFault::UnknownParticipant => expected_participant(name),
        LineFault::UnknownSymbol => "a symbol of the setup",
        LineFault::BadState => expected_letter(name),
        LineFault::BadPrice => expected_price(name),
        LineFault::BadShares => expected_shares(name),
        LineFault::HalfSide => expected_half(name),
        LineFault::WrongFeed => expected_sender(name, from),
        LineFault::BadDesk => "a desk: 1 or 2 digits, below the setup's number of desks",
        LineFault::BadLot => "a round lot: 1 to 4 digits, from 1 to 1000",
    }
}

fn expected_participant(name: FieldName) -> &'static str {
    if name == FieldName::Names {
        "participants of the setup, joined by one + each"
    } else {
        "a participant of the setup"
    }
}

fn expected_letter(name: FieldName) -> &'static str {
    if name == FieldName::Side {
        "B or S"
    } else if name == FieldName::Flag {
        "M, or nothing before an eighth field"
    } else if name == FieldName::Average {
        "AVG"
    } else {
        "A, M or H"
    }
}

fn expected_price(name: FieldName) -> &'static str {
    if is_side_price(name) {
        "dollars: 1 to 7 digits, at most a point and 1 to 4 digits; zero only beside shares that are 0"
    } else {
        "dollars above zero: 1 to 7 digits, at most a point and 1 to 4 digits"
    }
}

fn expected_shares(name: FieldName) -> &'static str {
    if name == FieldName::Shares {
        "shares: 1 to 9 digits, at least 1"
    } else {
        "shares: 1 to 9 digits"
    }
}

fn expected_half(name: FieldName) -> &'static str {
    if is_side_price(name) {
        "a price beside the shares, or neither"
    } else {
        "shares beside the price, or neither"
    }
}

/// Whether a field is the price of a quotation's side.
fn is_side_price(name: FieldName) -> bool {
    name == FieldName::Bid || name == FieldName::Offer
}

fn expected_sender(name: FieldName, from: Reading) -> &'static str {
    if name == FieldName::Kind {
        "no round lot: these come on feed A"
    } else {
        expected_of_feed(from)
    }
}

fn expected_of_feed(from: Reading) -> &'static str {
    match from {
        Reading::FromFeed(feed) => participant_of(feed),
        Reading::Script { .. } | Reading::Changes | Reading::Orders { .. } => {
            "a participant of this feed"
        }
    }
}

fn participant_of(feed: Feed) -> &'static str {
    match feed {
        Feed::A => "a participant of feed A",
        Feed::B => "a participant of feed B",
        Feed::C => "a participant of feed C",
        Feed::D => "a participant of feed D",
        Feed::E => "a participant of feed E",
        Feed::F => "a participant of feed F",
        Feed::G => "a participant of feed G",
        Feed::H => "a participant of feed H",
    }
}
