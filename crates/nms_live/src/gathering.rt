//! Putting all answers into the order of the orders (specs/Answering).
ghost use Rattle.std.specs.Prelude.{◌≡◌, ◌≢◌, ℕ, ◌<◌, ◌∷◌, All, length, slice_index_or, IfErr, IfOk};
ghost use Rattle.nms_live.specs.Answering.{IsAnswered};
ghost use Rattle.nms_live.specs.Faults.{IsNoLine};
ghost use Rattle.nms_live.specs.Rows.{AreRows};
ghost use Rattle.nms_live.specs.declared.closing.DeskRow.{DeskRow};

use crate::closing::DeskRow;
use crate::live_fault::LiveFault;
use nms_fees::Setup;
use nms_quote::{Answer, Change, DeskOrder};
use std::alloc::Global;

/// All answers and closing answers, in the order of the orders.
#[derive(Drop)]
pub struct Gathered {
    pub(crate) answers: Vec<Answer>,
    pub(crate) closing: Vec<Answer>,
}

/// Takes, for each order, the next answer and closing answer of its desk. The answers were made over the given setup, tape and
/// published lengths.
pub(crate) fn gather(
    alloc: Global,
    setup: &Setup,
    orders: &[DeskOrder],
    tape: &[Change],
    published: &[u64],
    mut rows: Vec<DeskRow>,
) -> Result<Gathered, LiveFault>
    requires rows { AreRows setup.now orders.now tape.now published.now rows.items }
    requires desks { All (λ order. order.desk < length rows.items) orders.now }
    ensures answered { IfOk result (λ all. IsAnswered setup.now orders.now tape.now published.now all.answers.items all.closing.items) }
    ensures fault { IfErr result IsNoLine }
{
    // There is room first, because growth, and a push that can fail, would copy each answer again.
    let Ok(mut answers) = Vec::with_capacity(alloc, orders.len()) else {
        return Err(LiveFault::NoMemory);
    };
    let Ok(mut closing) = Vec::with_capacity(alloc, orders.len()) else {
        return Err(LiveFault::NoMemory);
    };
    for wanted in orders {
        let (answer, close) = next_of(&mut rows, wanted);
        answers.push_reserved(answer);
        closing.push_reserved(close);
    }
    Ok(Gathered { answers, closing })
}

/// The next answer and closing answer of an order's desk.
fn next_of(rows: &mut Vec<DeskRow>, wanted: &DeskOrder) -> (Answer, Answer)
    requires place { wanted.now.desk < length rows.old.items }
    requires some { (d : DeskRow) → 0 < length (slice_index_or rows.old.items wanted.now.desk d).answers.items }
    requires closing { (d : DeskRow) → 0 < length (slice_index_or rows.old.items wanted.now.desk d).closing.items }
    ensures len { length rows.new.items ≡ length rows.old.items }
    ensures others { (k : ℕ) (d : DeskRow) → k < length rows.old.items → k ≢ wanted.now.desk → slice_index_or rows.new.items k d ≡ slice_index_or rows.old.items k d }
    ensures answer { (d : DeskRow) → (slice_index_or rows.old.items wanted.now.desk d).answers.items ≡ result.0 ∷ (slice_index_or rows.new.items wanted.now.desk d).answers.items }
    ensures closing { (d : DeskRow) → (slice_index_or rows.old.items wanted.now.desk d).closing.items ≡ result.1 ∷ (slice_index_or rows.new.items wanted.now.desk d).closing.items }
{
    let row = &mut rows[usize::from(wanted.desk)];
    take_next(row)
}

/// The next answer and closing answer of a desk.
fn take_next(row: &mut DeskRow) -> (Answer, Answer)
    requires some { 0 < length row.old.answers.items }
    requires closing { 0 < length row.old.closing.items }
    ensures answer { row.old.answers.items ≡ result.0 ∷ row.new.answers.items }
    ensures closing { row.old.closing.items ≡ result.1 ∷ row.new.closing.items }
{
    let answer = row.answers.take_first();
    let close = row.closing.take_first();
    (answer, close)
}
