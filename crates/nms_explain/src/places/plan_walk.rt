//! A walk over the records of a plan's text: which record is due, and what is wrong with the one that came
//! (`specs/PlanOrder`).
ghost use Rattle.std.specs.Prelude.{◌≡◌, ◌+◌, ◌++◌, ◌∷◌, [], List, Some, None, min};
ghost use Rattle.csv.specs.Records.{fields_of};
ghost use Rattle.nms_lines.specs.Layout.{Record};
ghost use Rattle.nms_explain.specs.PlanOrder.{HasPassed, count_next, due_next, due_place, record_due, trouble_after};

use super::record_field::text_at;
use nms_lines::{ByteRecord, FaultPlace, PlanRecord, wrong_place};
use nms_quote::Roster;

/// How many legs a plan has at most, and how many cuts.
const MOST: u8 = 32;

/// Which records of a plan's text may come next.
#[derive(Clone, Copy)]
pub(crate) enum PlanDue {
    /// The record of the plan is due.
    Plan,
    /// A leg, a cut, or the end is due.
    Leg,
    /// A cut, or the end is due.
    Cut,
    /// Nothing is due, because the end came.
    Nothing,
}

/// What is wrong with a record of a plan's text.
#[derive(Clone, Copy)]
pub(crate) enum PlanTrouble {
    /// The record is not due, or a plan can't have one of its fields.
    Wrong(FaultPlace),
    /// The record is the 33rd leg, or the 33rd cut.
    TooMany,
}

/// How far the records of a plan's text have come.
#[derive(Clone, Copy)]
pub(crate) struct PlanWalk {
    /// The record that is due.
    pub(crate) due: PlanDue,
    /// The number of legs that came, or of cuts if cuts are due. It is not counted past the first that is too many.
    pub(crate) count: u8,
}

impl PlanWalk {
    /// The walk before the first record.
    pub(crate) fn new() -> Self
        ensures due { result.due ≡ PlanDue.Plan }
        ensures passed { HasPassed [] result }
    {
        PlanWalk {
            due: PlanDue::Plan,
            count: 0,
        }
    }

    /// What is wrong with the next record. The walk then goes on after it, by its first word.
    pub(crate) fn next(&mut self, row: &ByteRecord, roster: &Roster) -> Option<PlanTrouble>
        ensures wrong { (at : FaultPlace) → result ≡ Some (PlanTrouble.Wrong at)
            → due_place self.old.due roster.now (fields_of row.now) ≡ Some at }
        ensures right { result ≡ None → due_place self.old.due roster.now (fields_of row.now) ≡ None }
        ensures trouble { (before : List Record) → HasPassed before self.old
            → result ≡ trouble_after roster.now before (fields_of row.now) }
        ensures passed { (before : List Record) → HasPassed before self.old
            → HasPassed (before ++ fields_of row.now ∷ []) self.new }
    {
        let wrong = due_place(self.due, row, roster);
        *self = self.after(text_at(row, 0));
        match wrong {
            Some(place) => Some(PlanTrouble::Wrong(place)),
            None if self.count > MOST => Some(PlanTrouble::TooMany),
            None => None,
        }
    }

    /// The walk after one more record, which begins with the given word.
    fn after(self, word: &[u8]) -> Self
        ensures due { result.due ≡ due_next self.due word.now }
        ensures count { result.count ≡ min 33 (count_next self.due self.count word.now) }
    {
        let (due, count) = match self.due {
            PlanDue::Plan => (PlanDue::Leg, 0),
            PlanDue::Leg => match word {
                b"END" => (PlanDue::Nothing, 0),
                b"CUT" => (PlanDue::Cut, 1),
                _ => (PlanDue::Leg, one_more(self.count)),
            },
            PlanDue::Cut => match word {
                b"END" => (PlanDue::Nothing, 0),
                _ => (PlanDue::Cut, one_more(self.count)),
            },
            PlanDue::Nothing => (PlanDue::Nothing, 0),
        };
        PlanWalk { due, count }
    }
}

/// A count of legs or cuts after one more, up to the first count that is too many.
fn one_more(count: u8) -> u8
    ensures { result ≡ min 33 (count + 1) }
{
    if count < MOST { count + 1 } else { MOST + 1 }
}

/// The place at which a record of a plan is wrong, given which records are due; none if it is not wrong.
fn due_place(due: PlanDue, row: &ByteRecord, roster: &Roster) -> Option<FaultPlace>
    ensures { result ≡ due_place due roster.now (fields_of row.now) }
{
    match record_due(due, text_at(row, 0)) {
        Some(sort) => wrong_place(sort, row, roster),
        None => Some(FaultPlace::Field(0)),
    }
}

/// The sort of record as which the next one is read, by what is due and by its first word; none after the end.
pub(crate) fn record_due(due: PlanDue, word: &[u8]) -> Option<PlanRecord>
    ensures { result ≡ record_due due word.now }
{
    match due {
        PlanDue::Plan => Some(PlanRecord::Plan),
        PlanDue::Leg => Some(match word {
            b"END" => PlanRecord::End,
            b"CUT" => PlanRecord::Cut,
            _ => PlanRecord::Leg,
        }),
        PlanDue::Cut => Some(match word {
            b"END" => PlanRecord::End,
            _ => PlanRecord::Cut,
        }),
        PlanDue::Nothing => None,
    }
}
