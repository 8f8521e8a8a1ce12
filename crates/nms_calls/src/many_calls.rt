//! Many looks or plans in one call: `specs/Batches`.
ghost use Rattle.std.specs.Prelude.{◌≡◌, ◌+◌, IfOk, OnErr, OnOk, take};
ghost use Rattle.std.specs.Result.{result_err};
ghost use Rattle.nms_calls.specs.Batches.{AreAnswers, AreFollowed, followed_fault, many, many_followed};
ghost use Rattle.nms_calls.specs.Opened.{IsApplied, order_fault, sizes_on, sym_fault, version};
ghost use Rattle.nms_calls.specs.OrderSaid.{order_said};
ghost use Rattle.nms_calls.specs.PlanNumbers.{IsBestPlan};
ghost use Rattle.nms_calls.specs.RowNumbers.{AreBest};

use crate::call_fault::CallFault;
use crate::change_numbers::NmsChange;
use crate::change_reading::{change_of, sym_of};
use crate::open_board::OpenBoard;
use crate::order_numbers::NmsOrder;
use crate::plan_numbers::NmsPlan;
use crate::row_numbers::NmsBest;
use nms_quote::SideQuote;
use nms_units::Lot;

impl OpenBoard {
    /// Writes the best bid and the best offer of each symbol, up to the first symbol that is refused, and how many were written.
    pub fn best_all(
        &self,
        syms: &[u16],
        out: &mut [NmsBest],
        done: &mut usize,
    ) -> Result<(), CallFault>
        ensures answer { result_err result ≡ (many (sym_fault self.now) syms.now out.old).fault }
        ensures done { done.new ≡ (many (sym_fault self.now) syms.now out.old).applied }
        ensures best { AreAnswers (AreBest self.now) syms.now out.new done.new }
    {
        *done = 0;
        if out.len() < syms.len() {
            return Err(CallFault::NoRoom);
        }
        let mut place = 0;
        for sym in syms {
            if let Err(fault) = self.best(*sym, &mut out[place]) {
                *done = place;
                return Err(fault);
            }
            place += 1;
        }
        *done = place;
        Ok(())
    }

    /// Plans each order, up to the first that is refused, and writes how many were planned. All plans are on the board as it is.
    pub fn plan_all(
        &self,
        orders: &[NmsOrder],
        out: &mut [NmsPlan],
        done: &mut usize,
    ) -> Result<(), CallFault>
        ensures answer { result_err result ≡ (many (order_fault self.now) orders.now out.old).fault }
        ensures done { done.new ≡ (many (order_fault self.now) orders.now out.old).applied }
        ensures best { AreAnswers (λ numbers plan. IfOk (order_said (sizes_on self.now) numbers) (λ order. IsBestPlan self.now order plan)) orders.now out.new done.new }
    {
        *done = 0;
        if out.len() < orders.len() {
            return Err(CallFault::NoRoom);
        }
        let mut place = 0;
        for order in orders {
            if let Err(fault) = self.plan(order, &mut out[place]) {
                *done = place;
                return Err(fault);
            }
            place += 1;
        }
        *done = place;
        Ok(())
    }

    /// Applies changes in order, up to the first that is refused. After each it writes the best bid and the best offer of the
    /// symbol that its numbers name, also after a withdrawal. Writes how many were applied.
    pub fn apply_best(
        &mut self,
        changes: &[NmsChange],
        out: &mut [NmsBest],
        done: &mut usize,
    ) -> Result<(), CallFault>
        ensures answer { result_err result ≡ (many_followed self.old changes.now out.old).fault }
        ensures done { done.new ≡ (many_followed self.old changes.now out.old).applied }
        ensures left { AreFollowed self.old (take done.new changes.now) (take done.new out.new) self.new }
        ensures version { version self.new ≡ version self.old + done.new }
    {
        *done = 0;
        if out.len() < changes.len() {
            return Err(CallFault::NoRoom);
        }
        let mut place = 0;
        for change in changes {
            if let Err(fault) = self.follow(change, &mut out[place]) {
                *done = place;
                return Err(fault);
            }
            place += 1;
        }
        *done = place;
        Ok(())
    }

    /// Applies one change, and writes the best rows of the symbol that its numbers name.
    fn follow(&mut self, numbers: &NmsChange, out: &mut NmsBest) -> Result<(), CallFault>
        ensures answer { result_err result ≡ followed_fault self.old.settings (version self.old) numbers.now }
        ensures applied { OnOk result (IsApplied numbers.now self.old self.new) }
        ensures best { OnOk result (AreBest self.new numbers.now.sym out.new) }
        ensures settings { OnOk result (self.new.settings ≡ self.old.settings) }
        ensures version { OnOk result (version self.new ≡ version self.old + 1) }
        ensures unchanged { OnErr result ((self.new ≡ self.old) × (out.new ≡ out.old)) }
    {
        let change = change_of(self.setup.roster(), numbers)?;
        sym_of(self.setup.roster(), numbers.sym)?;
        // The prover has to see the types of a change before the change moves, so the code mentions them.
        let _seen: (Option<SideQuote>, Option<Lot>) = (None, None);
        self.apply_change(change)?;
        self.best(numbers.sym, out)
    }
}
