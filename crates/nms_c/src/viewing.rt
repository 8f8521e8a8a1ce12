//! Opening and closing terms, and calls on a view that the caller holds. Such a call only reads the terms, or uses none. So any
//! number of them may run at once.
ghost use Rattle.std.specs.Prelude.{◌≡◌, ◌≢◌, IfErr, IfOk, None, Option, Some};
ghost use Rattle.nms_calls.specs.Codes.{answer_of, setup_code};
ghost use Rattle.nms_calls.specs.ViewCalls.{IsChecked, IsPlanned, IsThrough};
ghost use Rattle.nms_calls.specs.ViewReduced.{IsReduced};
ghost use Rattle.nms_calls.specs.declared.call_fault.CallFault.{CallFault as Why};
ghost use Rattle.nms_c.specs.Behind.{Behind};
ghost use Rattle.nms_c.specs.TermsHeld.{terms_mark};
ghost use Rattle.nms_fees.specs.Setup.{IsRefused, IsSetupOf};
ghost use Rattle.nms_fees.specs.declared.setup_fault.SetupFault.{SetupFault as Fault};

use crate::taking::{CLOSED, OPEN_ALREADY};
use crate::terms::{NmsTerms, TERMS_OPEN};
use crate::terms_leasing::{give_share, take_share};
use crate::terms_look::NmsTermsLook;
use core::mem::replace_with;
use nms_calls::{
    CallFault, NmsDoubt, NmsOrder, NmsPlan, NmsThrough, NmsView, answer, confirm_view, plan_view,
    reduce_view, through_view,
};
use nms_fees::{Setup, SetupFault, read_setup_bytes};
use std::alloc::Global;

/// Opens terms from the text of a setup.
#[unsafe(no_mangle)]
pub extern "C" fn nms_raw_terms_open(alloc: Global, setup: &[u8], terms: &mut NmsTerms) -> u32
    ensures already { terms.old.mark ≡ terms_mark → result ≡ 17 }
    ensures open { result ≡ 0 → terms.new.mark ≡ terms_mark }
    ensures new { result ≡ 0 → Behind terms.new.value (λ settings. IsSetupOf setup.now settings) }
    ensures refused { terms.old.mark ≢ terms_mark → result ≢ 0 → result ≢ 9
        → (fault : Fault) × (result ≡ setup_code fault) × IsRefused setup.now fault }
    ensures unchanged { result ≢ 0 → terms.new ≡ terms.old }
{
    if terms.mark() == TERMS_OPEN {
        return OPEN_ALREADY;
    }
    match boxed(alloc, setup) {
        Ok(kept) => {
            replace_with(terms, kept, put);
            0
        }
        Err(fault) => answer(Err(CallFault::Setup(fault))),
    }
}

/// A setup on the heap.
fn boxed(alloc: Global, text: &[u8]) -> Result<Box<Setup>, SetupFault>
    ensures new { IfOk result (λ kept. IsSetupOf text.now kept.value) }
    ensures refused { IfErr result (λ fault. fault ≢ SetupFault.NoMemory → IsRefused text.now fault) }
{
    let setup = read_setup_bytes(alloc, text)?;
    match Box::new(alloc, setup) {
        Ok(kept) => Ok(kept),
        Err(_) => Err(SetupFault::NoMemory),
    }
}

fn put(_closed: NmsTerms, kept: Box<Setup>) -> (NmsTerms, ())
    ensures { (result.0.mark ≡ terms_mark) × (result.0.value ≡ Some kept.value) }
{
    (NmsTerms::of(kept), ())
}

/// Closes terms.
#[unsafe(no_mangle)]
pub extern "C" fn nms_raw_terms_close(alloc: Global, terms: &mut NmsTerms) -> u32
    ensures closed { terms.new.mark ≢ terms_mark }
    ensures already { terms.old.mark ≢ terms_mark → (result ≡ 15) × (terms.new ≡ terms.old) }
    ensures done { terms.old.mark ≡ terms_mark → result ≡ 0 }
{
    if terms.mark() != TERMS_OPEN {
        return CLOSED;
    }
    drop(replace_with(terms, alloc, out_of));
    0
}

fn out_of(terms: NmsTerms, alloc: Global) -> (NmsTerms, Box<Setup>)
    requires { terms.mark ≡ terms_mark }
    ensures { (result.0.mark ≡ 0) × (result.0.value ≡ None) }
{
    let kept = terms.into_box();
    (NmsTerms::shut(alloc), kept)
}

/// Plans an order on a view.
#[unsafe(no_mangle)]
pub extern "C" fn nms_raw_plan_view(
    look: &mut NmsTermsLook,
    view: &NmsView,
    order: &NmsOrder,
    out: &mut NmsPlan,
) -> u32
    ensures closed { look.old.mark ≢ terms_mark → (result ≡ 15) × (look.new ≡ look.old) }
    ensures open { look.old.mark ≡ terms_mark → look.new.mark ≡ terms_mark }
    ensures planned { look.old.mark ≡ terms_mark → Behind look.old.value (λ settings. (told : Option Why) × (result ≡ answer_of told)
        × IsPlanned settings view.now order.now told out.new) }
    ensures same { look.new.value ≡ look.old.value }
    ensures share { look.old.mark ≡ terms_mark → (look.new.round ≡ look.old.round) × (look.new.count ≡ look.old.count) }
    ensures unwritten { result ≢ 0 → out.new ≡ out.old }
{
    let Some(lease) = take_share(look) else {
        return CLOSED;
    };
    let code = answer(plan_view(lease.get(), view, order, out));
    give_share(look, lease);
    code
}

/// Confirms a plan for an order on a view, or writes why it is doubted.
#[unsafe(no_mangle)]
pub extern "C" fn nms_raw_confirm_view(
    look: &mut NmsTermsLook,
    view: &NmsView,
    order: &NmsOrder,
    plan: &NmsPlan,
    out: &mut NmsDoubt,
) -> u32
    ensures closed { look.old.mark ≢ terms_mark → (result ≡ 15) × (look.new ≡ look.old) × (out.new ≡ out.old) }
    ensures open { look.old.mark ≡ terms_mark → look.new.mark ≡ terms_mark }
    ensures checked { look.old.mark ≡ terms_mark → Behind look.old.value (λ settings. (told : Option Why) × (result ≡ answer_of told)
        × IsChecked settings view.now order.now plan.now told out.old out.new) }
    ensures same { look.new.value ≡ look.old.value }
    ensures share { look.old.mark ≡ terms_mark → (look.new.round ≡ look.old.round) × (look.new.count ≡ look.old.count) }
{
    let Some(lease) = take_share(look) else {
        return CLOSED;
    };
    let code = answer(confirm_view(lease.get(), view, order, plan, out));
    give_share(look, lease);
    code
}

/// Writes the protected quotations of a view that a price in 1/1,000,000 dollar trades through.
#[unsafe(no_mangle)]
pub extern "C" fn nms_raw_through_view(view: &NmsView, millionths: u64, out: &mut NmsThrough) -> u32
    ensures through { (told : Option Why) × (result ≡ answer_of told) × IsThrough view.now millionths told out.new }
    ensures unwritten { result ≢ 0 → out.new ≡ out.old }
{
    answer(through_view(view, millionths, out))
}

/// Writes a view in which participant n has at most `most[n]` shares on a side.
#[unsafe(no_mangle)]
pub extern "C" fn nms_raw_reduce_view(
    view: &NmsView,
    side: u8,
    most: &[u32; 32],
    out: &mut NmsView,
) -> u32
    ensures reduced { (told : Option Why) × (result ≡ answer_of told) × IsReduced view.now side most.now told out.new }
    ensures unwritten { result ≢ 0 → out.new ≡ out.old }
{
    answer(reduce_view(view, side, most, out))
}
