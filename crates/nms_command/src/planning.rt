//! The subcommand `plan`: an order planned on the changes of a file.
ghost use Rattle.std.specs.Prelude.{◌≡◌, ◌<◌, IfErr, IfOk, IfSome, Some, length};
ghost use Rattle.nms_lines.specs.Named.{AreBelow};
ghost use Rattle.nms_words.specs.CommandLine.{shown};
ghost use Rattle.nms_command.specs.Failed.{CutsShort};
ghost use Rattle.nms_command.specs.Served.{Plans, asked_order};

use crate::command_fault::CommandFault;
use crate::ending::Ending;
use crate::files::open_file;
use nms_fees::Setup;
use nms_file_answers::plan_changes;
use nms_files::order_of;
use nms_quote::Order;
use nms_words::Request;
use std::io::Write;
use std::rt::Files;

/// Writes the plan of the order that the arguments give, on all the changes of a file, with its certificate.
pub(crate) fn serve_plan<T: Files + AllocGlobal, W: Write>(
    rt: &T,
    setup: &Setup,
    request: &Request,
    answers: &mut W,
) -> Result<Ending, CommandFault>
    ensures served { IfOk result (λ ends. (ends ≡ Ending.Done) × Plans setup.now (shown request.now) (W.contents answers.old) (W.contents answers.new)) }
    ensures cut { IfErr result (CutsShort (λ whole ends. (ends ≡ Ending.Done) × Plans setup.now (shown request.now) (W.contents answers.old) whole) (W.contents answers.old) (W.contents answers.new)) }
{
    let Some(order) = order_asked(setup, request) else {
        return Err(CommandFault::Usage);
    };
    let Some(changes) = request.words.first() else {
        return Err(CommandFault::Usage);
    };
    let file = match open_file(rt, changes.as_str()) {
        Ok(file) => file,
        Err(fault) => return Err(fault),
    };
    match plan_changes(rt.alloc(), setup, file, &order, answers) {
        Ok(()) => Ok(Ending::Done),
        Err(fault) => Err(CommandFault::Plan(fault)),
    }
}

/// The order that a request asks for, by its options and its arguments after the first. `None` if they give no order.
fn order_asked(setup: &Setup, request: &Request) -> Option<Order>
    ensures asked { IfSome result (λ order. asked_order setup.now (shown request.now) ≡ Some order) }
    ensures there { IfSome result (λ order. order.sym < length setup.now.roster.syms) }
    ensures named { IfSome result (λ order. AreBelow (length setup.now.roster.parts) order.self_help) }
{
    let [_, side, sym, shares, limit] = request.words.as_slice() else {
        return None;
    };
    let (side, sym, shares, limit) = (side.as_str(), sym.as_str(), shares.as_str(), limit.as_str());
    let names = request.self_help.as_ref().map(String::as_str);
    order_of(
        setup.roster(),
        side,
        sym,
        shares,
        limit,
        request.manual,
        names,
    )
}
