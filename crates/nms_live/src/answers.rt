//! The answers of a desk (specs/Held).
ghost use Rattle.std.specs.Prelude.{◌≡◌, ◌<◌, ◌≤◌, ◌++◌, ◌∷◌, [], List, length, IfOk, OnErr, OnOk};
ghost use Rattle.nms_board.specs.declared.TheConstants.{MOST_ROWS};
ghost use Rattle.nms_live.specs.Held.{IsSpanOf, items_of};
ghost use Rattle.nms_live.specs.Planning.{answer_to};

use arrayvec::ArrayVec;
use nms_board::MOST_ROWS;
use nms_quote::{Answer, Certificate, Cut, CutKind, DeskOrder, Leg, Order, Plan};
use nms_sweep::Planner;
use nms_units::Money;
use std::alloc::{AllocError, Global};
use std::collections::VecDeque;
use std::marker::Model;

/// The places that the legs or the cuts of one answer have in the list of all answers' legs or cuts.
#[derive(Clone, Copy)]
pub struct Span {
    pub(crate) start: usize,
    pub(crate) end: usize,
}

/// An answer without its legs and cuts.
#[derive(Clone, Copy)]
pub struct Head {
    pub(crate) desk: u8,
    pub(crate) number: usize,
    pub(crate) version: u64,
    pub(crate) order: Order,
    pub(crate) filled: u32,
    pub(crate) cost: Money,
    pub(crate) legs: Span,
    pub(crate) cuts: Span,
}

/// A list of answers in order. It takes memory only for the legs and cuts that each answer has, and not for the most that it
/// could have.
pub struct Answers {
    heads: VecDeque<Head>,
    legs: Vec<Leg>,
    cuts: Vec<Cut>,
}

/// A list of answers has its own `Drop`. So a function that holds such a list has one call at each exit, and not one for each
/// part (docs/GATE.md).
impl Drop for Answers {
    fn drop(self) {
        let Answers {
            heads: _,
            legs: _,
            cuts: _,
        } = self;
    }
}

impl Model for Answers {
    ghost use Rattle.std.specs.Prelude.{map};
    ghost use Rattle.std.specs.List.{AllByRecursion};
    ghost use Rattle.nms_live.specs.Held.{Held, IsHeadOf, answer_of};

    ghost Value = { Held };

    ghost view = { λ a. record { items = map (answer_of a.legs.items a.cuts.items) a.heads.items } };

    ghost invariant = { λ a. AllByRecursion (IsHeadOf a.legs.items a.cuts.items) a.heads.items };
}

impl Answers {
    /// An empty list of answers. It takes no memory.
    pub(crate) fn none(alloc: Global) -> Self
        ensures { result.items ≡ [] }
    {
        Answers {
            heads: VecDeque::new(alloc),
            legs: Vec::new(alloc),
            cuts: Vec::new(alloc),
        }
    }

    /// Adds an answer at the end of the list: the plan that the desk made last, with the order and its number.
    pub(crate) fn push(
        &mut self,
        order: &(usize, DeskOrder),
        planner: &Planner,
    ) -> Result<(), AllocError>
        ensures ok { OnOk result (self.new.items ≡ self.old.items ++ answer_to order.now planner.now ∷ []) }
        ensures err { OnErr result (self.new.items ≡ self.old.items) }
    {
        let plan = planner.plan();
        let legs = put_behind(&mut self.legs, plan.legs.as_slice())?;
        let cuts = put_behind(&mut self.cuts, planner.certificate().as_slice())?;
        let head = Head {
            desk: order.1.desk,
            number: order.0,
            version: plan.version,
            order: plan.order,
            filled: plan.filled,
            cost: plan.cost,
            legs,
            cuts,
        };
        match self.heads.push_back(head) {
            Ok(()) => Ok(()),
            Err(_) => Err(AllocError),
        }
    }

    /// Removes the first answer from the list, and returns it.
    pub(crate) fn take_first(&mut self) -> Answer
        requires { 0 < length self.old.items }
        ensures { self.old.items ≡ result ∷ self.new.items }
    {
        let Some(head) = self.heads.pop_front() else {
            unreachable!()
        };
        Answer {
            desk: head.desk,
            number: head.number,
            plan: Plan {
                version: head.version,
                order: head.order,
                legs: legs_at(&self.legs, head.legs),
                filled: head.filled,
                cost: head.cost,
            },
            certificate: cuts_at(&self.cuts, head.cuts),
        }
    }
}

/// Adds items at the end of a list, and returns the places that they have there. Out of memory leaves the earlier items as they
/// were.
fn put_behind<T: Copy>(all: &mut Vec<T>, items: &[T]) -> Result<Span, AllocError>
    requires few { length items.now ≤ MOST_ROWS }
    ensures span { IfOk result (IsSpanOf all.new.items) }
    ensures there { IfOk result (λ span. items_of all.new.items span ≡ items.now) }
    ensures kept { (more : List T) × (all.new.items ≡ all.old.items ++ more) }
{
    let start = all.len();
    all.extend_from_slice(items)?;
    Ok(Span {
        start,
        end: all.len(),
    })
}

/// The legs at the given places of a list of legs.
fn legs_at(all: &[Leg], span: Span) -> ArrayVec<Leg, MOST_ROWS>
    requires { IsSpanOf all.now span }
    ensures { result.items ≡ items_of all.now span }
{
    let mut legs = ArrayVec::new_in(());
    let Ok(()) = legs.try_extend_from_slice(&all[span.start..span.end]) else {
        unreachable!()
    };
    legs
}

/// The cuts at the given places of a list of cuts.
fn cuts_at(all: &[Cut], span: Span) -> Certificate
    requires { IsSpanOf all.now span }
    ensures { result.items ≡ items_of all.now span }
{
    // The prover has to see the type of a cut before a cut is put, so the code mentions it.
    let _seen: Option<CutKind> = None;
    let mut cuts = ArrayVec::new_in(());
    let Ok(()) = cuts.try_extend_from_slice(&all[span.start..span.end]) else {
        unreachable!()
    };
    cuts
}
