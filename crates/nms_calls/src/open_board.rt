//! What an open handle holds, and the calls on it: `specs/Opened`.
ghost use Rattle.std.specs.Prelude.{◌≡◌, ◌≢◌, ◌==◌, IfOk, IfErr, OnOk, OnErr, Ok, true};
ghost use Rattle.std.specs.Result.{result_err};
ghost use Rattle.nms_quote.specs.Roster.{holds};
ghost use Rattle.nms_calls.specs.Findings.{confirm_fault, doubt_written, finding};
ghost use Rattle.nms_calls.specs.OrderSaid.{order_said};
ghost use Rattle.nms_calls.specs.PlanNumbers.{IsBestPlan};
ghost use Rattle.nms_calls.specs.RowNumbers.{AreBest};

use crate::MOST_PLAN_TEXT;
use crate::call_fault::CallFault;
use crate::change_numbers::NmsChange;
use crate::change_reading::{change_of, sym_of};
use crate::doubt_numbers::NmsDoubt;
use crate::order_numbers::NmsOrder;
use crate::order_reading::order_of;
use crate::plan_numbers::NmsPlan;
use crate::plan_reading::{no_plan, read_into};
use crate::plan_writing::put_outcome;
use crate::row_numbers::{NmsBest, NmsRow, market_number};
use arrayvec::ArrayVec;
use nms_cert::confirm_on;
use nms_fees::{Setup, SetupFault, read_setup_bytes};
use nms_lines::ByteRecord;
use nms_nbbo::{best_on, market_between};
use nms_opening::{MOST_BEFORE, RollingBoard};
use nms_quote::{Change, Side, SideQuote};
use nms_sweep::plan_on;
use nms_units::Lot;
use std::alloc::Global;
use std::marker::Model;

/// A board with its setup, and all the room that its calls need, so that none of them takes memory.
#[derive(Drop)]
pub struct OpenBoard {
    pub(crate) setup: Setup,
    pub(crate) rolling: RollingBoard,
    /// The fields of the record being read. Each field takes at least one byte of the text, a comma or the end.
    pub(crate) row: ByteRecord,
    /// The text of the plan being written.
    pub(crate) text: Vec<u8>,
}

impl Model for OpenBoard {
    ghost use Rattle.nms_calls.specs.Opened.{IsHeld, Opened};

    ghost Value = { Opened };

    ghost view = { λ o. record { settings = o.setup; board = o.rolling.board; before = o.rolling.before } };

    ghost invariant = { λ o. IsHeld (record { settings = o.setup; board = o.rolling.board; before = o.rolling.before }) };
}

impl OpenBoard {
    ghost use Rattle.nms_fees.specs.Setup.{IsRefused};
    ghost use Rattle.nms_calls.specs.Opened.{Grew, GrewBy, HasApplied, HasAppliedSaid, IsNew, apply_fault, order_fault, room_fault, sizes_on, sym_fault, version};

    /// Opens an empty board from the text of a setup. A text that is not UTF-8 is no TOML document. `NoMemory` may replace any
    /// other answer.
    pub fn new(alloc: Global, text: &[u8]) -> Result<Self, SetupFault>
        ensures new { IfOk result (IsNew text.now) }
        ensures refused { IfErr result (λ fault. fault ≢ SetupFault.NoMemory → IsRefused text.now fault) }
    {
        let setup = read_setup_bytes(alloc, text)?;
        let Ok(rolling) = RollingBoard::new(alloc, setup.roster()) else {
            return Err(SetupFault::NoMemory);
        };
        rolling.board().stands_for_a_tape();
        let (Ok(row), Ok(text)) = (
            ByteRecord::with_capacity(alloc, MOST_PLAN_TEXT, MOST_PLAN_TEXT + 1),
            Vec::with_capacity(alloc, MOST_PLAN_TEXT),
        ) else {
            return Err(SetupFault::NoMemory);
        };
        Ok(OpenBoard {
            setup,
            rolling,
            row,
            text,
        })
    }

    /// Applies the change given by its numbers.
    #[inline(always)]
    pub fn apply(&mut self, numbers: &NmsChange) -> Result<(), CallFault>
        ensures answer { result_err result ≡ apply_fault self.old numbers.now }
        ensures applied { OnOk result (HasAppliedSaid numbers.now self.old self.new) }
        ensures unchanged { OnErr result (self.new ≡ self.old) }
        ensures stands { OnOk result (Grew numbers.now self.old self.new) }
    {
        let change = change_of(self.setup.roster(), numbers)?;
        // The prover looks up the types of a change's fields only if it has met them, so this line names them.
        let _seen: (Option<SideQuote>, Option<Lot>) = (None, None);
        self.apply_change(change)
    }

    /// Applies a change of the setup's roster.
    #[inline(always)]
    pub(crate) fn apply_change(&mut self, change: Change) -> Result<(), CallFault>
        requires { holds (sizes_on self.old) change ≡ true }
        ensures answer { result_err result ≡ room_fault (version self.old) (Ok change) }
        ensures applied { OnOk result (HasApplied self.old self.new change) }
        ensures unchanged { OnErr result (self.new ≡ self.old) }
        ensures stands { OnOk result (GrewBy change self.old self.new) }
    {
        if self.rolling.version() >= MOST_BEFORE {
            return Err(CallFault::Full);
        }
        // The prover looks up the types of a change's fields only if it has met them, so this line names them.
        let _seen: (Option<SideQuote>, Option<Lot>) = (None, None);
        self.rolling.apply(change);
        Ok(())
    }

    /// Writes the best bid and the best offer of a symbol.
    #[inline(always)]
    pub fn best(&self, place: u16, out: &mut NmsBest) -> Result<(), CallFault>
        ensures answer { result_err result ≡ sym_fault self.now place }
        ensures best { OnOk result (AreBest self.now place out.new) }
        ensures unwritten { OnErr result (out.new ≡ out.old) }
    {
        let sym = sym_of(self.setup.roster(), place)?;
        // Each row is written at once, so that only one of them is kept at a time.
        let board = self.rolling.board();
        let bid = best_on(board, Side::Bid, sym);
        out.bid = NmsRow::of(&bid);
        let offer = best_on(board, Side::Offer, sym);
        out.offer = NmsRow::of(&offer);
        out.version = self.rolling.version();
        out.market = market_number(market_between(bid, offer));
        out.spare = 0;
        Ok(())
    }

    /// Plans the order that numbers give, and writes the plan with its certificate. It works on its own stack.
    pub fn plan(&self, numbers: &NmsOrder, out: &mut NmsPlan) -> Result<(), CallFault>
        ensures answer { result_err result ≡ order_fault self.now numbers.now }
        ensures best { OnOk result (IfOk (order_said (sizes_on self.now) numbers.now) (λ order. IsBestPlan self.now order out.new)) }
        ensures unwritten { OnErr result (out.new ≡ out.old) }
    {
        let order = order_of(self.setup.roster(), numbers)?;
        let version = self.rolling.version();
        let outcome = plan_on(self.rolling.board(), &order, self.setup.fees(), out);
        put_outcome(outcome, out);
        // The board may have been opened again, and then counts fewer changes. So the plan receives the version that the caller
        // knows.
        out.version = version;
        Ok(())
    }

    /// Confirms that a plan, given by its numbers, is the best lawful one for an order, and writes the doubt if it is not.
    pub fn confirm(
        &self,
        numbers: &NmsOrder,
        plan: &NmsPlan,
        out: &mut NmsDoubt,
    ) -> Result<(), CallFault>
        ensures answer { result_err result ≡ confirm_fault self.now numbers.now plan.now }
        ensures written { out.new ≡ doubt_written out.old (finding self.now numbers.now plan.now) }
    {
        let order = order_of(self.setup.roster(), numbers)?;
        let mut read = no_plan(&order);
        let mut certificate = ArrayVec::new_in(());
        read_into(
            self.setup.roster(),
            &order,
            plan,
            &mut read,
            &mut certificate,
        )?;
        read.version = self.own_version(read.version);
        let board = self.rolling.board();
        match confirm_on(board, &order, self.setup.fees(), &read, &certificate) {
            Ok(()) => {
                *out = NmsDoubt::none();
                Ok(())
            }
            Err(doubt) => {
                *out = NmsDoubt::of(doubt);
                Err(CallFault::Doubted)
            }
        }
    }

    /// A plan's version as the current board counts changes. For a plan of another version, it is a number that no board reaches.
    fn own_version(&self, planned: u64) -> u64
        ensures { (result == self.now.board.applied) ≡ (planned == version self.now) }
    {
        if planned == self.rolling.version() {
            self.rolling.board().applied()
        } else {
            u64::MAX
        }
    }
}
