//! A plain slow program that judges the result of a live run. Its input is what the feeds sent and the orders.
use super::drawn::Sent;
use super::plain_look::are_shown;
use super::{Wanted, order_of};
use nms_board::Boards;
use nms_cert::confirm;
use nms_fees::{FeeBook, Setup, read_setup};
use nms_live::{Answer, Live};
use nms_quote::Change;
use std::alloc::Global;

/// The place of the feed on which a change has to come. There are two participants to a feed, and a new round lot is of feed A.
fn feed_of(change: &Change) -> usize {
    match *change {
        Change::Quote { part, .. } | Change::State { part, .. } | Change::Withdraw { part } =>
            usize::from(part.get() / 2),
        Change::Lot { .. } => 0,
    }
}

/// Whether a tape has exactly the changes that a feed sent, in the order in which it sent them.
fn has_all_of(tape: &[Change], feed: usize, sent: &[Change]) -> bool {
    let mut rest = sent.iter();
    for change in tape {
        if feed_of(change) == feed && rest.next() != Some(change) {
            return false;
        }
    }
    rest.next().is_none()
}

/// Whether the tape has the changes of all feeds and no others. Those of each feed have to be in the order in which it sent them.
fn is_merge(tape: &[Change], sent: &[Sent]) -> bool {
    let mut others = tape.len();
    for (feed, own) in sent.iter().enumerate() {
        if !has_all_of(tape, feed, &own.changes) {
            return false;
        }
        let Some(left) = others.checked_sub(own.changes.len()) else {
            return false;
        };
        others = left;
    }
    others == 0
}

/// The most changes that may be appended between two publishings. The number is taken from the rule, not from the program that is
/// tested.
const MOST_BETWEEN: u64 = 64;

/// Whether each publishing shows up to 64 changes more than the one before it, and the last one shows all of them. Only the
/// last one may show nothing new.
fn rises_to(published: &[u64], all: u64) -> bool {
    let Some((end, before)) = published.split_last() else {
        return false;
    };
    let mut last = 0u64;
    for number in before {
        if *number <= last || *number - last > MOST_BETWEEN {
            return false;
        }
        last = *number;
    }
    *end == all && last <= *end && *end - last <= MOST_BETWEEN
}

/// Whether an answer is for a given order, by its desk, its number and the order itself.
fn is_for(answer: &Answer, number: usize, wanted: &Wanted) -> bool {
    answer.desk == wanted.desk
        && answer.number == number
        && order_of(wanted) == Some(answer.plan.order)
}

/// Whether each order of a table has one answer, and the answers are in the order of the table.
fn answers_all(answers: &[Answer], table: &[Wanted]) -> bool {
    for (number, (answer, wanted)) in answers.iter().zip(table).enumerate() {
        if !is_for(answer, number, wanted) {
            return false;
        }
    }
    answers.len() == table.len()
}

/// Whether the versions that a desk's answers are on never fall.
fn never_goes_back(desk: u8, answers: &[Answer]) -> bool {
    let mut last = 0;
    for answer in answers {
        if answer.desk == desk {
            if answer.plan.version < last {
                return false;
            }
            last = answer.plan.version;
        }
    }
    true
}

/// Whether none of the desks answers on an older version than it did before.
fn nobody_goes_back(answers: &[Answer]) -> bool {
    for desk in 0..16u8 {
        if !never_goes_back(desk, answers) {
            return false;
        }
    }
    true
}

/// Whether each answer is on a version that was published, or on version 0, the empty one.
fn are_published(answers: &[Answer], published: &[u64]) -> bool {
    for answer in answers {
        let version = answer.plan.version;
        if version != 0 && !published.contains(&version) {
            return false;
        }
    }
    true
}

/// Whether each answer is on the version with n changes.
fn are_all_on(answers: &[Answer], all: u64) -> bool {
    for answer in answers {
        if answer.plan.version != all {
            return false;
        }
    }
    true
}

/// Applies n changes of a tape, from the first.
fn apply_first(boards: &mut Boards, tape: &[Change], count: u64) {
    for (change, _) in tape.iter().zip(0..count) {
        if boards.takes(change) {
            boards.apply(*change);
        }
    }
}

/// Whether the checker confirms an answer on the view that the first changes of the tape give. The answer's version says how many
/// changes these are.
fn is_confirmed_on(mut boards: Boards, fees: &FeeBook, tape: &[Change], answer: &Answer) -> bool {
    let plan = &answer.plan;
    apply_first(&mut boards, tape, plan.version);
    let view = boards.view(plan.order.sym);
    confirm(&view, &plan.order, fees, plan, &answer.certificate).is_ok()
}

/// Whether the checker confirms an answer. A plain slow look at the tape also has to show the shares that the answer's legs take.
fn is_confirmed(alloc: Global, setup: &Setup, tape: &[Change], answer: &Answer) -> bool {
    match Boards::new(alloc, setup.roster()) {
        Ok(boards) => {
            is_confirmed_on(boards, setup.fees(), tape, answer) && are_shown(tape, &answer.plan)
        }
        Err(_) => false,
    }
}

/// Whether the checker confirms each answer.
fn are_confirmed(alloc: Global, setup: &Setup, tape: &[Change], answers: &[Answer]) -> bool {
    for answer in answers {
        if !is_confirmed(alloc, setup, tape, answer) {
            return false;
        }
    }
    true
}

/// What is wrong with the tape and its publishings; empty if nothing is.
fn tape_finding(tape: &[Change], published: &[u64], sent: &[Sent]) -> &'static str {
    if !is_merge(tape, sent) {
        "the tape is no merge of what was sent"
    } else if !rises_to(published, tape.len() as u64) {
        "what was published"
    } else {
        ""
    }
}

/// What is wrong with the answers; empty if nothing is.
fn answer_finding(
    answers: &[Answer],
    closing: &[Answer],
    published: &[u64],
    all: u64,
    table: &[Wanted],
) -> &'static str {
    if !answers_all(answers, table) || !answers_all(closing, table) {
        "an order without its answer"
    } else if !nobody_goes_back(answers) {
        "a desk went back"
    } else if !are_published(answers, published) {
        "a version was not published"
    } else if !are_all_on(closing, all) {
        "a closing answer not on the whole tape"
    } else {
        ""
    }
}

/// What is wrong with a run under the setup that a text gives, if the feeds sent the given changes; empty if nothing is.
pub(crate) fn finding(
    alloc: Global,
    setup: &str,
    sent: &[Sent],
    table: &[Wanted],
    live: &Live,
) -> &'static str {
    match read_setup(alloc, setup) {
        Ok(setup) => finding_under(alloc, &setup, sent, table, live),
        Err(_) => "no setup",
    }
}

/// What is wrong with a run under a setup; empty if nothing is.
fn finding_under(
    alloc: Global,
    setup: &Setup,
    sent: &[Sent],
    table: &[Wanted],
    live: &Live,
) -> &'static str {
    let (tape, published) = (live.tape.as_slice(), live.published.as_slice());
    let (answers, closing) = (live.answers.as_slice(), live.closing.as_slice());
    let told = tape_finding(tape, published, sent);
    if !told.is_empty() {
        return told;
    }
    if !are_confirmed(alloc, setup, tape, answers) || !are_confirmed(alloc, setup, tape, closing) {
        return "an answer that the checker doubts";
    }
    answer_finding(answers, closing, published, tape.len() as u64, table)
}
