//! The codes of refused executions: `specs/ExecutionCodes`.
ghost use Rattle.std.specs.Prelude.{◌≡◌, true};
ghost use Rattle.nms_show.specs.Plain.{is_plain};
ghost use Rattle.nms_explain.specs.ExecutionCodes.{field_of, text_of};

use crate::places::{FieldName, FieldPlace};

/// Why an execution is refused, in the order in which a record is tested.
#[derive(Clone, Copy, PartialEq, Eq)]
pub enum ExecutionCode {
    /// X1: the first field is not `D`.
    UnknownKind,
    /// X2: the record does not have nine fields.
    FieldCount,
    /// X3: the name does not have its form.
    BadName,
    /// X4: the symbol is not on the roster.
    UnknownSymbol,
    /// X5: the text is no price, or the price is zero.
    BadPrice,
    /// X6: the text is no number of shares, or it is zero.
    BadShares,
    /// X7: the side is not `B`, `S` or empty.
    BadSide,
    /// X8: the text is neither a version nor `@` and a time.
    BadVersion,
    /// X9: there are fewer changes than the version says.
    Beyond,
    /// X10: the participant is neither empty nor on the roster.
    UnknownParticipant,
    /// X11: a text is no flag.
    BadFlags,
    /// X12: there is a time, and the changes have no times.
    NoTimes,
    /// X13: there is a time, and the file of symbols has no changes of the symbol.
    NoChanges,
}

impl ExecutionCode {
    /// All codes.
    pub const ALL: [ExecutionCode; 13] = [
        ExecutionCode::UnknownKind,
        ExecutionCode::FieldCount,
        ExecutionCode::BadName,
        ExecutionCode::UnknownSymbol,
        ExecutionCode::BadPrice,
        ExecutionCode::BadShares,
        ExecutionCode::BadSide,
        ExecutionCode::BadVersion,
        ExecutionCode::Beyond,
        ExecutionCode::UnknownParticipant,
        ExecutionCode::BadFlags,
        ExecutionCode::NoTimes,
        ExecutionCode::NoChanges,
    ];

    /// The code as it is printed, `X1` to `X13`.
    pub fn text(self) -> &'static str
        ensures text { result.now ≡ text_of self }
        ensures plain { is_plain result.now ≡ true }
    {
        match self {
            ExecutionCode::UnknownKind => "X1",
            ExecutionCode::FieldCount => "X2",
            ExecutionCode::BadName => "X3",
            ExecutionCode::UnknownSymbol => "X4",
            ExecutionCode::BadPrice => "X5",
            ExecutionCode::BadShares => "X6",
            ExecutionCode::BadSide => "X7",
            ExecutionCode::BadVersion => "X8",
            ExecutionCode::Beyond => "X9",
            ExecutionCode::UnknownParticipant => "X10",
            ExecutionCode::BadFlags => "X11",
            ExecutionCode::NoTimes => "X12",
            ExecutionCode::NoChanges => "X13",
        }
    }

    /// The field that is wrong; none if the number of fields is wrong.
    pub(crate) fn field(self) -> Option<FieldPlace>
        ensures { result ≡ field_of self }
    {
        match self {
            ExecutionCode::FieldCount => None,
            ExecutionCode::UnknownKind => Some(FieldPlace::at(0, FieldName::Kind)),
            ExecutionCode::BadName => Some(FieldPlace::at(1, FieldName::Id)),
            ExecutionCode::UnknownSymbol | ExecutionCode::NoChanges => {
                Some(FieldPlace::at(2, FieldName::Symbol))
            }
            ExecutionCode::BadPrice => Some(FieldPlace::at(3, FieldName::Price)),
            ExecutionCode::BadShares => Some(FieldPlace::at(4, FieldName::Shares)),
            ExecutionCode::BadSide => Some(FieldPlace::at(5, FieldName::Side)),
            ExecutionCode::BadVersion | ExecutionCode::Beyond | ExecutionCode::NoTimes => {
                Some(FieldPlace::at(6, FieldName::When))
            }
            ExecutionCode::UnknownParticipant => Some(FieldPlace::at(7, FieldName::Participant)),
            ExecutionCode::BadFlags => Some(FieldPlace::at(8, FieldName::Flags)),
        }
    }

    /// What the code means, in a sentence.
    pub(crate) fn sentence(self) -> &'static str {
        match self {
            ExecutionCode::UnknownKind => "the record of an execution does not begin with D",
            ExecutionCode::FieldCount => "the record of an execution has not nine fields",
            ExecutionCode::BadName => "the name of an execution is not of its form",
            ExecutionCode::UnknownSymbol => "an execution names a symbol that is not on the roster",
            ExecutionCode::BadPrice => "an execution has a price that is none, or zero",
            ExecutionCode::BadShares => "an execution has shares that are none, or zero",
            ExecutionCode::BadSide => "the side of an execution is not B, S or empty",
            ExecutionCode::BadVersion =>
                "an execution has neither a version nor @ and a time of day",
            ExecutionCode::Beyond =>
                "the file has fewer changes than the version of an execution says",
            ExecutionCode::UnknownParticipant =>
                "an execution names a participant that is not on the roster",
            ExecutionCode::BadFlags => "an execution has a flag that is none",
            ExecutionCode::NoTimes =>
                "an execution has a time, and no times of the changes were given",
            ExecutionCode::NoChanges =>
                "an execution has a time, and the file of symbols lacks its symbol",
        }
    }

    /// What is expected at the field, or how many fields there should be.
    pub(crate) fn expected(self) -> &'static str {
        match self {
            ExecutionCode::UnknownKind => "the kind of an execution: D",
            ExecutionCode::FieldCount => "9: D,id,sym,price,shares,side,when,part,flags",
            ExecutionCode::BadName => "a name: 1 to 32 of letters, digits, ., - and _",
            ExecutionCode::UnknownSymbol => "a symbol of the setup",
            ExecutionCode::BadPrice =>
                "dollars above zero: 1 to 7 digits, at most a point and 1 to 6 digits",
            ExecutionCode::BadShares => "shares: 1 to 9 digits, at least 1",
            ExecutionCode::BadSide => "B, S or nothing",
            ExecutionCode::BadVersion =>
                "a version of 1 to 9 digits; or @, six digits HHMMSS, and up to nine after them",
            ExecutionCode::Beyond => "a version no greater than the number of the changes",
            ExecutionCode::UnknownParticipant => "a participant of the setup, or nothing",
            ExecutionCode::BadFlags =>
                "C, O, I, J, K, P, Q, E, T or Z, or H= and participants joined by /; one + between two flags",
            ExecutionCode::NoTimes => "a version: a time needs --times",
            ExecutionCode::NoChanges => "a symbol that the file of symbols has",
        }
    }

    /// What to do about the code.
    pub(crate) fn remedy(self) -> &'static str {
        match self {
            ExecutionCode::UnknownKind =>
                "Begin each record with `D`. For a vendor's file see `nms_review import`.",
            ExecutionCode::FieldCount => "Count the commas: an empty field has its comma too.",
            ExecutionCode::BadName => "Take out spaces and other signs, or number the executions.",
            ExecutionCode::UnknownSymbol | ExecutionCode::UnknownParticipant => {
                "Names are case-sensitive, and spaces count. Is it in the setup that is used?"
            }
            ExecutionCode::BadPrice => "No signs, no spaces, at most six decimals.",
            ExecutionCode::BadShares => "Whole shares, without separators; at most 999,999,999.",
            ExecutionCode::BadSide => "Write the capital letter, or leave the field empty.",
            ExecutionCode::BadVersion =>
                "Put `@` before a time of day, and write it without colons.",
            ExecutionCode::Beyond => "Are the changes those of the executions, and whole?",
            ExecutionCode::BadFlags => "Write capital letters, and names of the setup after `H=`.",
            ExecutionCode::NoTimes => "Give the times of the changes by `--times`.",
            ExecutionCode::NoChanges =>
                "Is it `NAME.symbols` of the same import? A symbol without a change has no times.",
        }
    }
}
