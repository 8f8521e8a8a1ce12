//! Answering one request of a known kind on what a desk sees (specs/Told).
ghost use Rattle.std.specs.Prelude.{◌≡◌, ◌<◌, length, IfOk, OnErr, OnOk};
ghost use Rattle.nms_quote.specs.Roster.{sizes_of};
ghost use Rattle.nms_quote.specs.Tape.{Tape};
ghost use Rattle.nms_board.specs.View.{view_of};
ghost use Rattle.nms_answers.specs.Told.{AppendsOn, KeepsKnown, Looks, TellsBest, TellsPlan, TellsThrough};

use crate::answer_fault::AnswerFault;
use nms_board::View;
use nms_fees::Setup;
use nms_lines::append_plan;
use nms_nbbo::best;
use nms_quote::{Order, Side, Sym};
use nms_scripts::tell_through;
use nms_sweep::plan;
use nms_text::tell_best;
use nms_units::Price;
use nms_versions::Desk;

/// Answers a record `N`: the desk looks, and the best bid and the best offer that it saw are appended (17 CFR 242.600).
/// `number` is the desk's number as the record names it.
///
/// `NoReading` leaves the desk and the text as they were. `NoMemory` may leave a part of the answer appended.
pub fn answer_best(
    desk: &mut Desk,
    setup: &Setup,
    number: u8,
    sym: Sym,
    out: &mut Vec<u8>,
) -> Result<(), AnswerFault>
    requires sizes { desk.old.sizes ≡ sizes_of setup.now.roster }
    requires sym { sym < length setup.now.roster.syms }
    ensures told { OnOk result (AppendsOn (TellsBest setup.now number sym) desk.old desk.new out.old.items out.new.items) }
    ensures knows { KeepsKnown desk.old desk.new }
{
    let view = look(desk, sym)?;
    let bid = best(&view, Side::Bid);
    let offer = best(&view, Side::Offer);
    match tell_best(
        out,
        setup.roster(),
        number,
        sym,
        view.version(),
        &bid,
        &offer,
    ) {
        Ok(()) => Ok(()),
        Err(_) => Err(AnswerFault::NoMemory),
    }
}

/// Answers a record `E` (17 CFR 242.611). The desk looks, and appends the protected quotations that it saw and that a trade at
/// the price trades through. `price` is in 1/10,000 dollar. `NoReading` leaves the desk and the text as they were. `NoMemory`
/// may leave a part of the answer appended.
pub fn answer_through(
    desk: &mut Desk,
    setup: &Setup,
    number: u8,
    sym: Sym,
    price: Price,
    out: &mut Vec<u8>,
) -> Result<(), AnswerFault>
    requires sizes { desk.old.sizes ≡ sizes_of setup.now.roster }
    requires sym { sym < length setup.now.roster.syms }
    ensures told { OnOk result (AppendsOn (TellsThrough setup.now number sym price) desk.old desk.new out.old.items out.new.items) }
    ensures knows { KeepsKnown desk.old desk.new }
{
    let view = look(desk, sym)?;
    match tell_through(out, setup.roster(), number, &view, price) {
        Ok(()) => Ok(()),
        Err(_) => Err(AnswerFault::NoMemory),
    }
}

/// Answers a record `O`: the desk looks, and plans the order on what it saw. The plan is appended with its certificate (17 CFR
/// 242.600, "intermarket sweep order"; 242.611(b)(5) and (6)). `NoReading` leaves the desk and the text as they were.
/// `NoMemory` may leave a part of the answer appended.
pub fn answer_order(
    desk: &mut Desk,
    setup: &Setup,
    number: u8,
    order: &Order,
    out: &mut Vec<u8>,
) -> Result<(), AnswerFault>
    requires sizes { desk.old.sizes ≡ sizes_of setup.now.roster }
    ensures told { OnOk result (AppendsOn (TellsPlan setup.now number order.now) desk.old desk.new out.old.items out.new.items) }
    ensures knows { KeepsKnown desk.old desk.new }
{
    let view = look(desk, order.sym)?;
    let (plan, certificate) = plan(&view, order, setup.fees());
    match append_plan(out, setup.roster(), &plan, &certificate) {
        Ok(()) => Ok(()),
        Err(_) => Err(AnswerFault::NoMemory),
    }
}

/// Looks at what is published. `NoReading` leaves the desk as it was.
fn look(desk: &mut Desk, sym: Sym) -> Result<View, AnswerFault>
    ensures seen { IfOk result (λ view. (version : Tape) × Looks desk.old desk.new version × (view ≡ view_of desk.old.sizes version sym)) }
    ensures unchanged { OnErr result (desk.new ≡ desk.old) }
    ensures knows { KeepsKnown desk.old desk.new }
{
    match desk.look(sym) {
        Ok(view) => Ok(view),
        Err(_) => Err(AnswerFault::NoReading),
    }
}
