//! The names of a setup's participants and symbols, and their places on the roster. The calls read them from open terms.
ghost use Rattle.std.specs.Prelude.{◌≡◌, ◌≢◌, Some};
ghost use Rattle.nms_quote.specs.Roster.{part_text, place_in, symbol_text};
ghost use Rattle.nms_calls.specs.Codes.{answer_of};
ghost use Rattle.nms_calls.specs.Named.{absent, part_name_fault, sym_name_fault};
ghost use Rattle.nms_calls.specs.Written.{IsWritten};
ghost use Rattle.nms_calls.specs.declared.call_fault.CallFault.TheVariants as fault;
ghost use Rattle.nms_c.specs.Behind.{Behind};
ghost use Rattle.nms_c.specs.TermsHeld.{terms_mark};

use crate::taking::CLOSED;
use crate::terms_leasing::{give_share, take_share};
use crate::terms_look::NmsTermsLook;
use nms_calls::{answer, find_part, find_sym, part_name, sym_name};

/// Writes the place of the participant with a name.
#[unsafe(no_mangle)]
pub extern "C" fn nms_raw_terms_find_part(look: &mut NmsTermsLook, name: &[u8], out: &mut u8) -> u32
    ensures closed { look.old.mark ≢ terms_mark → (result ≡ 15) × (look.new ≡ look.old) }
    ensures open { look.old.mark ≡ terms_mark → look.new.mark ≡ terms_mark }
    ensures answer { look.old.mark ≡ terms_mark → Behind look.old.value (λ settings. result ≡ answer_of (absent fault.NoParticipant (place_in settings.roster.parts name.now))) }
    ensures found { result ≡ 0 → Behind look.old.value (λ settings. place_in settings.roster.parts name.now ≡ Some out.new) }
    ensures same { look.new.value ≡ look.old.value }
    ensures share { look.old.mark ≡ terms_mark → (look.new.round ≡ look.old.round) × (look.new.count ≡ look.old.count) }
    ensures unwritten { result ≢ 0 → out.new ≡ out.old }
{
    let Some(lease) = take_share(look) else {
        return CLOSED;
    };
    let code = answer(find_part(lease.get(), name, out));
    give_share(look, lease);
    code
}

/// Writes the place of the symbol with a name.
#[unsafe(no_mangle)]
pub extern "C" fn nms_raw_terms_find_sym(look: &mut NmsTermsLook, name: &[u8], out: &mut u16) -> u32
    ensures closed { look.old.mark ≢ terms_mark → (result ≡ 15) × (look.new ≡ look.old) }
    ensures open { look.old.mark ≡ terms_mark → look.new.mark ≡ terms_mark }
    ensures answer { look.old.mark ≡ terms_mark → Behind look.old.value (λ settings. result ≡ answer_of (absent fault.NoSymbol (place_in settings.roster.syms name.now))) }
    ensures found { result ≡ 0 → Behind look.old.value (λ settings. place_in settings.roster.syms name.now ≡ Some out.new) }
    ensures same { look.new.value ≡ look.old.value }
    ensures share { look.old.mark ≡ terms_mark → (look.new.round ≡ look.old.round) × (look.new.count ≡ look.old.count) }
    ensures unwritten { result ≢ 0 → out.new ≡ out.old }
{
    let Some(lease) = take_share(look) else {
        return CLOSED;
    };
    let code = answer(find_sym(lease.get(), name, out));
    give_share(look, lease);
    code
}

/// Writes the name of a participant.
#[unsafe(no_mangle)]
pub extern "C" fn nms_raw_terms_part_name(
    look: &mut NmsTermsLook,
    place: u8,
    out: &mut [u8],
    bytes: &mut usize,
) -> u32
    ensures closed { look.old.mark ≢ terms_mark → (result ≡ 15) × (look.new ≡ look.old) }
    ensures open { look.old.mark ≡ terms_mark → look.new.mark ≡ terms_mark }
    ensures answer { look.old.mark ≡ terms_mark → Behind look.old.value (λ settings. result ≡ answer_of (part_name_fault settings place out.old)) }
    ensures written { result ≡ 0 → Behind look.old.value (λ settings. IsWritten (part_text settings.roster place) out.old out.new bytes.new) }
    ensures same { look.new.value ≡ look.old.value }
    ensures share { look.old.mark ≡ terms_mark → (look.new.round ≡ look.old.round) × (look.new.count ≡ look.old.count) }
    ensures unwritten { result ≢ 0 → (out.new ≡ out.old) × (bytes.new ≡ bytes.old) }
{
    let Some(lease) = take_share(look) else {
        return CLOSED;
    };
    let code = answer(part_name(lease.get(), place, out, bytes));
    give_share(look, lease);
    code
}

/// Writes the name of a symbol.
#[unsafe(no_mangle)]
pub extern "C" fn nms_raw_terms_sym_name(
    look: &mut NmsTermsLook,
    place: u16,
    out: &mut [u8],
    bytes: &mut usize,
) -> u32
    ensures closed { look.old.mark ≢ terms_mark → (result ≡ 15) × (look.new ≡ look.old) }
    ensures open { look.old.mark ≡ terms_mark → look.new.mark ≡ terms_mark }
    ensures answer { look.old.mark ≡ terms_mark → Behind look.old.value (λ settings. result ≡ answer_of (sym_name_fault settings place out.old)) }
    ensures written { result ≡ 0 → Behind look.old.value (λ settings. IsWritten (symbol_text settings.roster place) out.old out.new bytes.new) }
    ensures same { look.new.value ≡ look.old.value }
    ensures share { look.old.mark ≡ terms_mark → (look.new.round ≡ look.old.round) × (look.new.count ≡ look.old.count) }
    ensures unwritten { result ≢ 0 → (out.new ≡ out.old) × (bytes.new ≡ bytes.old) }
{
    let Some(lease) = take_share(look) else {
        return CLOSED;
    };
    let code = answer(sym_name(lease.get(), place, out, bytes));
    give_share(look, lease);
    code
}
