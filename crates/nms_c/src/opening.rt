//! Versions, opening and closing a board, and the place at which a text is no setup.
ghost use Rattle.std.specs.Prelude.{◌≡◌, ◌≢◌, ◌⊎◌, IfErr, IfOk};
ghost use Rattle.nms_fees.specs.declared.setup_fault.SetupFault.{SetupFault as Fault};
ghost use Rattle.nms_calls.specs.Codes.{setup_code};
ghost use Rattle.nms_fees.specs.Setup.{IsRefused};
ghost use Rattle.nms_calls.specs.Opened.{IsNew};
ghost use Rattle.nms_calls.specs.SetupPlaces.{IsPlaceOf};
ghost use Rattle.nms_c.specs.Behind.{Behind};
ghost use Rattle.nms_c.specs.Held.{open_mark};

use crate::handle::{NmsBoard, OPEN};
use crate::taking::{CLOSED, OPEN_ALREADY, give, take};
use nms_calls::{CallFault, NmsPlace, OpenBoard, answer, put_setup_place};
use nms_fees::SetupFault;
use std::alloc::Global;

/// The version of the layout of the structures that the C header declares.
#[unsafe(no_mangle)]
pub extern "C" fn nms_abi() -> u32
    ensures { result ≡ 2 }
{
    2
}

/// Opens a board from the text of a setup.
#[unsafe(no_mangle)]
pub extern "C" fn nms_raw_open(alloc: Global, setup: &[u8], board: &mut NmsBoard) -> u32
    ensures already { board.old.mark ≡ open_mark → result ≡ 17 }
    ensures open { result ≡ 0 → board.new.mark ≡ open_mark }
    ensures new { result ≡ 0 → Behind board.new.value (IsNew setup.now) }
    ensures refused { board.old.mark ≢ open_mark → result ≢ 0 → result ≢ 9
        → (fault : Fault) × (result ≡ setup_code fault) × IsRefused setup.now fault }
    ensures unchanged { result ≢ 0 → board.new ≡ board.old }
{
    if board.mark() == OPEN {
        return OPEN_ALREADY;
    }
    match boxed(alloc, setup) {
        Ok(kept) => {
            give(board, kept);
            0
        }
        Err(fault) => answer(Err(CallFault::Setup(fault))),
    }
}

/// Writes where a text is no setup, and why.
#[unsafe(no_mangle)]
pub extern "C" fn nms_raw_setup_place(alloc: Global, setup: &[u8], place: &mut NmsPlace) -> u32
    ensures answer { (result ≡ 0) ⊎ (result ≡ 9) }
    ensures placed { result ≡ 0 → IsPlaceOf setup.now place.new }
    ensures unwritten { result ≢ 0 → place.new ≡ place.old }
{
    answer(put_setup_place(alloc, setup, place))
}

/// A new board on the heap.
fn boxed(alloc: Global, setup: &[u8]) -> Result<Box<OpenBoard>, SetupFault>
    ensures new { IfOk result (λ kept. IsNew setup.now kept.value) }
    ensures refused { IfErr result (λ fault. fault ≢ SetupFault.NoMemory → IsRefused setup.now fault) }
{
    let kept = OpenBoard::new(alloc, setup)?;
    match Box::new(alloc, kept) {
        Ok(kept) => Ok(kept),
        Err(_) => Err(SetupFault::NoMemory),
    }
}

/// Closes a board.
#[unsafe(no_mangle)]
pub extern "C" fn nms_raw_close(alloc: Global, board: &mut NmsBoard) -> u32
    ensures closed { board.new.mark ≢ open_mark }
    ensures already { board.old.mark ≢ open_mark → (result ≡ 15) × (board.new ≡ board.old) }
    ensures done { board.old.mark ≡ open_mark → result ≡ 0 }
{
    match take(alloc, board) {
        Some(kept) => {
            drop(kept);
            0
        }
        None => CLOSED,
    }
}
