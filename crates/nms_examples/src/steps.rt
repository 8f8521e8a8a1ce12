//! Running the machine by steps without text.

use crate::Failed;
use crate::lines::{around, gap_after, or_failed, some_or_failed};
use crate::offers::offer_of;
use crate::setups::wide;
use nms_flow::{Flow, Reply, Step, StepFault};
use nms_quote::{Feed, QState, Side, SideQuote, Sym};
use std::alloc::Global;
use std::io::Write;

/// Adds each step of a line with its answer, from a machine that starts empty. Before the steps come the limits of its tape and
/// of its queue.
pub(crate) fn give_steps(alloc: Global, line: &str, given: &mut Vec<u8>) -> Result<(), Failed> {
    let (tape, rest) = around(line, " ")?;
    let (queue, steps) = around(rest, " ")?;
    let tape = or_failed(tape.parse::<u32>())?;
    let setup = wide(alloc, tape, or_failed(queue.parse::<u16>())?, 1)?;
    match Flow::new(alloc, &setup) {
        Ok(mut flow) => give_each(&mut flow, steps, given),
        Err(_) => Err(Failed),
    }
}

/// Makes each step that a line names, and adds the step with its answer.
fn give_each(flow: &mut Flow, steps: &str, given: &mut Vec<u8>) -> Result<(), Failed> {
    for word in steps.split(' ') {
        or_failed(write!(given, "{}{word} ", gap_after(given)))?;
        give_step(flow, word, given)?;
    }
    Ok(())
}

/// The step that a word names. The letter of a participant sends its offer.
fn step_named(word: &str) -> Option<Step> {
    match word {
        "take" => Some(Step::Take),
        "publish" => Some(Step::Publish),
        "tell" => Some(Step::Tell { desk: 0 }),
        "look" => Some(Step::Look {
            desk: 0,
            sym: Sym::new(0)?,
        }),
        "N" => sending(Feed::A, 0),
        "P" => sending(Feed::A, 1),
        _ => sending(Feed::B, 2),
    }
}

/// The step that sends the offer of the participant at a place.
fn sending(feed: Feed, place: u8) -> Option<Step> {
    let offer = offer_of(place, QState::Automated, 100_000, 100)?;
    Some(Step::Send(feed, offer))
}

/// Makes the step that a word names, and adds its answer. The word `all` takes all changes from the queue.
fn give_step(flow: &mut Flow, word: &str, given: &mut Vec<u8>) -> Result<(), Failed> {
    if word == "all" {
        return or_failed(write!(given, "{}", flow.take_all().code()));
    }
    // The prover has to see the types of a step before the step moves, so the code mentions them.
    let _seen: Option<SideQuote> = None;
    let step = some_or_failed(step_named(word))?;
    if let Step::Send(_, change) = &step
        && !flow.holds(change)
    {
        return Err(Failed);
    }
    tell_reply(flow.step(step), given)
}

/// Adds the answer to a step in words. A view is shown by its version and its number of offers, a refusal by its code.
fn tell_reply(answer: Result<Reply, StepFault>, given: &mut Vec<u8>) -> Result<(), Failed> {
    or_failed(match answer {
        Ok(Reply::Sent) => write!(given, "sent"),
        Ok(Reply::Taken { version }) => write!(given, "taken {version}"),
        Ok(Reply::Published { version }) => write!(given, "published {version}"),
        Ok(Reply::Told { desk, version }) => write!(given, "told {desk} {version}"),
        Ok(Reply::Seen(view)) => write!(
            given,
            "seen {} {}",
            view.version(),
            view.count(Side::Offer)
        ),
        Err(fault) => write!(given, "{}", fault.code()),
    })
}
