//! How many changes, participants and symbols a board has, and the places of their names.
ghost use Rattle.std.specs.Prelude.{◌≡◌, ◌≢◌, Some};
ghost use Rattle.nms_quote.specs.Roster.{part_text, place_in, symbol_text};
ghost use Rattle.nms_calls.specs.Codes.{answer_of};
ghost use Rattle.nms_calls.specs.Named.{absent, counts_of, part_name_fault, sym_name_fault};
ghost use Rattle.nms_calls.specs.Written.{IsWritten};
ghost use Rattle.nms_calls.specs.declared.call_fault.CallFault.TheVariants as fault;
ghost use Rattle.nms_c.specs.Behind.{Behind};
ghost use Rattle.nms_c.specs.Held.{open_mark};

use crate::leasing::{give_share, take_share};
use crate::look::NmsLook;
use crate::taking::CLOSED;
use nms_calls::{NmsCounts, answer, find_part, find_sym, part_name, sym_name};

/// Writes how many changes were applied, how many more may be, and how many participants and symbols there are.
#[unsafe(no_mangle)]
pub extern "C" fn nms_raw_counts_of(look: &mut NmsLook, out: &mut NmsCounts) -> u32
    ensures closed { look.old.mark ≢ open_mark → (result ≡ 15) × (look.new ≡ look.old) × (out.new ≡ out.old) }
    ensures open { look.old.mark ≡ open_mark → look.new.mark ≡ open_mark }
    ensures counts { look.old.mark ≡ open_mark → Behind look.old.value (λ opened. (result ≡ 0) × (out.new ≡ counts_of opened)) }
    ensures same { look.new.value ≡ look.old.value }
    ensures share { look.old.mark ≡ open_mark → (look.new.round ≡ look.old.round) × (look.new.count ≡ look.old.count) }
{
    let Some(lease) = take_share(look) else {
        return CLOSED;
    };
    *out = lease.get().counts();
    give_share(look, lease);
    0
}

/// Writes the place of the participant with a name.
#[unsafe(no_mangle)]
pub extern "C" fn nms_raw_find_part(look: &mut NmsLook, name: &[u8], out: &mut u8) -> u32
    ensures closed { look.old.mark ≢ open_mark → (result ≡ 15) × (look.new ≡ look.old) }
    ensures open { look.old.mark ≡ open_mark → look.new.mark ≡ open_mark }
    ensures answer { look.old.mark ≡ open_mark → Behind look.old.value (λ opened. result ≡ answer_of (absent fault.NoParticipant (place_in opened.settings.roster.parts name.now))) }
    ensures found { result ≡ 0 → Behind look.old.value (λ opened. place_in opened.settings.roster.parts name.now ≡ Some out.new) }
    ensures same { look.new.value ≡ look.old.value }
    ensures share { look.old.mark ≡ open_mark → (look.new.round ≡ look.old.round) × (look.new.count ≡ look.old.count) }
    ensures unwritten { result ≢ 0 → out.new ≡ out.old }
{
    let Some(lease) = take_share(look) else {
        return CLOSED;
    };
    let code = answer(find_part(lease.get().setup(), name, out));
    give_share(look, lease);
    code
}

/// Writes the place of the symbol with a name.
#[unsafe(no_mangle)]
pub extern "C" fn nms_raw_find_sym(look: &mut NmsLook, name: &[u8], out: &mut u16) -> u32
    ensures closed { look.old.mark ≢ open_mark → (result ≡ 15) × (look.new ≡ look.old) }
    ensures open { look.old.mark ≡ open_mark → look.new.mark ≡ open_mark }
    ensures answer { look.old.mark ≡ open_mark → Behind look.old.value (λ opened. result ≡ answer_of (absent fault.NoSymbol (place_in opened.settings.roster.syms name.now))) }
    ensures found { result ≡ 0 → Behind look.old.value (λ opened. place_in opened.settings.roster.syms name.now ≡ Some out.new) }
    ensures same { look.new.value ≡ look.old.value }
    ensures share { look.old.mark ≡ open_mark → (look.new.round ≡ look.old.round) × (look.new.count ≡ look.old.count) }
    ensures unwritten { result ≢ 0 → out.new ≡ out.old }
{
    let Some(lease) = take_share(look) else {
        return CLOSED;
    };
    let code = answer(find_sym(lease.get().setup(), name, out));
    give_share(look, lease);
    code
}

/// Writes the name of a participant.
#[unsafe(no_mangle)]
pub extern "C" fn nms_raw_part_name(
    look: &mut NmsLook,
    place: u8,
    out: &mut [u8],
    bytes: &mut usize,
) -> u32
    ensures closed { look.old.mark ≢ open_mark → (result ≡ 15) × (look.new ≡ look.old) }
    ensures open { look.old.mark ≡ open_mark → look.new.mark ≡ open_mark }
    ensures answer { look.old.mark ≡ open_mark → Behind look.old.value (λ opened. result ≡ answer_of (part_name_fault opened.settings place out.old)) }
    ensures written { result ≡ 0 → Behind look.old.value (λ opened. IsWritten (part_text opened.settings.roster place) out.old out.new bytes.new) }
    ensures same { look.new.value ≡ look.old.value }
    ensures share { look.old.mark ≡ open_mark → (look.new.round ≡ look.old.round) × (look.new.count ≡ look.old.count) }
    ensures unwritten { result ≢ 0 → (out.new ≡ out.old) × (bytes.new ≡ bytes.old) }
{
    let Some(lease) = take_share(look) else {
        return CLOSED;
    };
    let code = answer(part_name(lease.get().setup(), place, out, bytes));
    give_share(look, lease);
    code
}

/// Writes the name of a symbol.
#[unsafe(no_mangle)]
pub extern "C" fn nms_raw_sym_name(
    look: &mut NmsLook,
    place: u16,
    out: &mut [u8],
    bytes: &mut usize,
) -> u32
    ensures closed { look.old.mark ≢ open_mark → (result ≡ 15) × (look.new ≡ look.old) }
    ensures open { look.old.mark ≡ open_mark → look.new.mark ≡ open_mark }
    ensures answer { look.old.mark ≡ open_mark → Behind look.old.value (λ opened. result ≡ answer_of (sym_name_fault opened.settings place out.old)) }
    ensures written { result ≡ 0 → Behind look.old.value (λ opened. IsWritten (symbol_text opened.settings.roster place) out.old out.new bytes.new) }
    ensures same { look.new.value ≡ look.old.value }
    ensures share { look.old.mark ≡ open_mark → (look.new.round ≡ look.old.round) × (look.new.count ≡ look.old.count) }
    ensures unwritten { result ≢ 0 → (out.new ≡ out.old) × (bytes.new ≡ bytes.old) }
{
    let Some(lease) = take_share(look) else {
        return CLOSED;
    };
    let code = answer(sym_name(lease.get().setup(), place, out, bytes));
    give_share(look, lease);
    code
}
