//! The codes that only `nms_tool`, `nms_serve` and the library give.
use crate::code_words::CodeWords;

/// The codes that only `nms_tool`, `nms_serve` and the library give, in the words of docs/ERRORS.md.
pub(crate) static OTHERS: [CodeWords; 48] = [
    CodeWords {
        code: "A2",
        sentence: "the plan is not confirmed: see K1 to K7",
        remedy: "",
    },
    CodeWords {
        code: "A3",
        sentence: "memory ran out for a board, and nothing was judged",
        remedy: "give the process more memory",
    },
    CodeWords {
        code: "E5",
        sentence: "a record of a feed is refused",
        remedy: "`nms_review explain feed` finds it. If all are L9, feeds were swapped.",
    },
    CodeWords {
        code: "E6",
        sentence: "no lane or tape was opened, or no thread started",
        remedy: "Give it more memory, or fewer desks.",
    },
    CodeWords {
        code: "E7",
        sentence: "a change was not appended: the tape is full, or memory ran out",
        remedy: "Set `tape_limit` higher, or give it more memory.",
    },
    CodeWords {
        code: "E8",
        sentence: "a look gave no reading, or a desk could not be settled",
        remedy: "No cause is known while the publisher is there.",
    },
    CodeWords {
        code: "E9",
        sentence: "the caller's gate did not open in 1,000,000 turns",
        remedy: "",
    },
    CodeWords {
        code: "E10",
        sentence: "memory ran out for orders, records or answers",
        remedy: "give the process more memory",
    },
    CodeWords {
        code: "F1",
        sentence: "memory ran out for the board or the queue",
        remedy: "give the process more memory",
    },
    CodeWords {
        code: "F2",
        sentence: "a change met a full queue",
        remedy: "Take with `T` or `F` and send it again, or set `queue` higher.",
    },
    CodeWords {
        code: "F3",
        sentence: "`T` met an empty queue",
        remedy: "",
    },
    CodeWords {
        code: "F5",
        sentence: "memory ran out for a take",
        remedy: "give the process more memory",
    },
    CodeWords {
        code: "G1",
        sentence: "the words of the call were refused",
        remedy: "See `./nms_tool --help`.",
    },
    CodeWords {
        code: "K1",
        sentence: "the plan is not lawful, or not summed rightly: the code P after it says how",
        remedy: "`nms_review why` shows the quotations of its version.",
    },
    CodeWords {
        code: "K2",
        sentence: "the plan is lawful and fills less than can be filled",
        remedy: "Look for quotations within the limit that it left.",
    },
    CodeWords {
        code: "K3",
        sentence: "a price that the order may trade at has no cut",
        remedy: "Is it another version, setup or order, or cut short?",
    },
    CodeWords {
        code: "K4",
        sentence: "a cut is at another price, stands twice, or is not best price first",
        remedy: "Is it another version, setup or order, or cut short?",
    },
    CodeWords {
        code: "K5",
        sentence: "the displayed sizes deny what a cut says",
        remedy: "Is it another version, state or lot?",
    },
    CodeWords {
        code: "K6",
        sentence: "a marginal is beyond 1,000,000,000 dollars either way",
        remedy: "The certificate is damaged.",
    },
    CodeWords {
        code: "K7",
        sentence: "by a cut's marginal a plan might cost less than this one",
        remedy: "Fill the order by hand. Are the fees those of the day?",
    },
    CodeWords {
        code: "N1",
        sentence: "memory ran out for a lane",
        remedy: "take a smaller capacity.",
    },
    CodeWords {
        code: "N2",
        sentence: "a change met a full lane, and is given back",
        remedy: "`send` waits.",
    },
    CodeWords {
        code: "N3",
        sentence: "a lane is closed, and a change was sent that is not taken",
        remedy: "Take until `None`, then close the ends that it gives back.",
    },
    CodeWords {
        code: "P1",
        sentence: "the plan's version is not that of the view",
        remedy: "",
    },
    CodeWords {
        code: "P2",
        sentence: "the plan's order is not the one given, or the view is of another symbol",
        remedy: "",
    },
    CodeWords {
        code: "P3",
        sentence: "a leg goes to a participant with no quotation there, under self-help, or with a manual one that the order does not allow",
        remedy: "Did it come later, was it halted or withdrawn, is `M` missing?",
    },
    CodeWords {
        code: "P4",
        sentence: "a leg's price is not that of the quotation",
        remedy: "See `nms_review at`.",
    },
    CodeWords {
        code: "P5",
        sentence: "a leg has no shares",
        remedy: "",
    },
    CodeWords {
        code: "P6",
        sentence: "a leg has more shares than are displayed",
        remedy: "Displayed are whole round lots. Is it the setup of the day?",
    },
    CodeWords {
        code: "P7",
        sentence: "two legs go to one participant",
        remedy: "",
    },
    CodeWords {
        code: "P8",
        sentence: "a leg's price is worse than the limit",
        remedy: "",
    },
    CodeWords {
        code: "P9",
        sentence: "the legs have more shares than were ordered",
        remedy: "",
    },
    CodeWords {
        code: "P10",
        sentence: "a trade-through: a better protected quotation gets less than its full displayed size",
        remedy: "Look for the quotation with `nms_review why`.",
    },
    CodeWords {
        code: "P11",
        sentence: "filled is not the sum of the legs",
        remedy: "",
    },
    CodeWords {
        code: "P12",
        sentence: "cost is not what the legs cost with fees",
        remedy: "Are the fees those of the day?",
    },
    CodeWords {
        code: "Q1",
        sentence: "a name is not of its form",
        remedy: "1 to 4 of A to Z and 0 to 9 for a participant, 1 to 8 of these and the point for a symbol",
    },
    CodeWords {
        code: "Q2",
        sentence: "a name has a place already",
        remedy: "",
    },
    CodeWords {
        code: "Q3",
        sentence: "there are 32 participants, or 1,000 symbols, already",
        remedy: "",
    },
    CodeWords {
        code: "Q4",
        sentence: "memory ran out for a roster",
        remedy: "give the process more memory",
    },
    CodeWords {
        code: "U1",
        sentence: "a price is not 1 to 7 digits with at most a point and 1 to 4 digits",
        remedy: "",
    },
    CodeWords {
        code: "U2",
        sentence: "a price is zero",
        remedy: "Prices begin at 0.0001.",
    },
    CodeWords {
        code: "U3",
        sentence: "shares are not 1 to 9 digits",
        remedy: "",
    },
    CodeWords {
        code: "U4",
        sentence: "money is not an optional minus, 1 to 20 digits, a point and nine digits",
        remedy: "",
    },
    CodeWords {
        code: "V1",
        sentence: "memory ran out for a tape, and nothing is opened",
        remedy: "Take fewer symbols or desks.",
    },
    CodeWords {
        code: "V2",
        sentence: "a desk got no place to read from, and nothing is opened",
        remedy: "No cause is known; open again.",
    },
    CodeWords {
        code: "V3",
        sentence: "memory ran out for a change that was not appended",
        remedy: "give the process more memory",
    },
    CodeWords {
        code: "V4",
        sentence: "the tape is at the setup's limit",
        remedy: "Set `tape_limit` higher, up to 10,000,000.",
    },
    CodeWords {
        code: "V5",
        sentence: "there is no reading: the publisher was closed",
        remedy: "The desk knows the last published version.",
    },
];
