//! Looks at a symbol of a board. Each has a share of the right to read it.
ghost use Rattle.std.specs.Prelude.{◌≡◌, ◌≢◌, IfOk};
ghost use Rattle.nms_board.specs.Shown.{rows_held};
ghost use Rattle.nms_calls.specs.ChangeNumbers.{IsOpening};
ghost use Rattle.nms_calls.specs.Codes.{answer_of};
ghost use Rattle.nms_calls.specs.Looked.{cost_on, market_side_said, ranked_said, side_looked_at, through_fault};
ghost use Rattle.nms_calls.specs.Opened.{error_of, sizes_on, sym_fault};
ghost use Rattle.nms_calls.specs.RowNumbers.{AreBest, AreRanked, AreThrough, IsView, some_row};
ghost use Rattle.nms_c.specs.Behind.{Behind};
ghost use Rattle.nms_c.specs.Held.{open_mark};

use crate::leasing::{give_share, take_share};
use crate::look::NmsLook;
use crate::taking::CLOSED;
use nms_calls::{NmsBest, NmsOpening, NmsRow, NmsRows, NmsThrough, NmsView, answer};

/// Writes the best bid, the best offer and the state of the market of a symbol. Any number of looks at a board may be under way
/// at once.
#[unsafe(no_mangle)]
pub extern "C" fn nms_raw_best_of(look: &mut NmsLook, sym: u16, out: &mut NmsBest) -> u32
    ensures closed { look.old.mark ≢ open_mark → (result ≡ 15) × (look.new ≡ look.old) }
    ensures open { look.old.mark ≡ open_mark → look.new.mark ≡ open_mark }
    ensures answer { look.old.mark ≡ open_mark → Behind look.old.value (λ opened. result ≡ answer_of (sym_fault opened sym)) }
    ensures best { result ≡ 0 → Behind look.old.value (λ opened. AreBest opened sym out.new) }
    ensures same { look.new.value ≡ look.old.value }
    ensures share { look.old.mark ≡ open_mark → (look.new.round ≡ look.old.round) × (look.new.count ≡ look.old.count) }
    ensures unwritten { result ≢ 0 → out.new ≡ out.old }
{
    let Some(lease) = take_share(look) else {
        return CLOSED;
    };
    let code = answer(lease.get().best(sym, out));
    give_share(look, lease);
    code
}

/// Writes the row at a place of a side's rank order.
#[unsafe(no_mangle)]
pub extern "C" fn nms_raw_ranked(
    look: &mut NmsLook,
    sym: u16,
    side: u8,
    place: u8,
    out: &mut NmsRow,
) -> u32
    ensures closed { look.old.mark ≢ open_mark → (result ≡ 15) × (look.new ≡ look.old) }
    ensures open { look.old.mark ≡ open_mark → look.new.mark ≡ open_mark }
    ensures answer { look.old.mark ≡ open_mark → Behind look.old.value (λ opened. result ≡ answer_of (error_of (ranked_said opened sym side place))) }
    ensures row { result ≡ 0 → Behind look.old.value (λ opened. IfOk (ranked_said opened sym side place) (λ row. out.new ≡ some_row row)) }
    ensures same { look.new.value ≡ look.old.value }
    ensures share { look.old.mark ≡ open_mark → (look.new.round ≡ look.old.round) × (look.new.count ≡ look.old.count) }
    ensures unwritten { result ≢ 0 → out.new ≡ out.old }
{
    let Some(lease) = take_share(look) else {
        return CLOSED;
    };
    let code = answer(lease.get().ranked(sym, side, place, out));
    give_share(look, lease);
    code
}

/// Writes the rows of a side in rank order, with their total size.
#[unsafe(no_mangle)]
pub extern "C" fn nms_raw_rows_of(look: &mut NmsLook, sym: u16, side: u8, out: &mut NmsRows) -> u32
    ensures closed { look.old.mark ≢ open_mark → (result ≡ 15) × (look.new ≡ look.old) }
    ensures open { look.old.mark ≡ open_mark → look.new.mark ≡ open_mark }
    ensures answer { look.old.mark ≡ open_mark → Behind look.old.value (λ opened. result ≡ answer_of (error_of (side_looked_at opened sym (market_side_said side)))) }
    ensures rows { result ≡ 0 → Behind look.old.value (λ opened. IfOk (side_looked_at opened sym (market_side_said side))
        (λ side. AreRanked side (rows_held opened.board sym side) out.new)) }
    ensures same { look.new.value ≡ look.old.value }
    ensures share { look.old.mark ≡ open_mark → (look.new.round ≡ look.old.round) × (look.new.count ≡ look.old.count) }
    ensures unwritten { result ≢ 0 → out.new ≡ out.old }
{
    let Some(lease) = take_share(look) else {
        return CLOSED;
    };
    let code = answer(lease.get().rows(sym, side, out));
    give_share(look, lease);
    code
}

/// Writes both sides of a symbol, with the state of its market.
#[unsafe(no_mangle)]
pub extern "C" fn nms_raw_view_of(look: &mut NmsLook, sym: u16, out: &mut NmsView) -> u32
    ensures closed { look.old.mark ≢ open_mark → (result ≡ 15) × (look.new ≡ look.old) }
    ensures open { look.old.mark ≡ open_mark → look.new.mark ≡ open_mark }
    ensures answer { look.old.mark ≡ open_mark → Behind look.old.value (λ opened. result ≡ answer_of (sym_fault opened sym)) }
    ensures view { result ≡ 0 → Behind look.old.value (λ opened. IsView opened sym out.new) }
    ensures same { look.new.value ≡ look.old.value }
    ensures share { look.old.mark ≡ open_mark → (look.new.round ≡ look.old.round) × (look.new.count ≡ look.old.count) }
    ensures unwritten { result ≢ 0 → out.new ≡ out.old }
{
    let Some(lease) = take_share(look) else {
        return CLOSED;
    };
    let code = answer(lease.get().view(sym, out));
    give_share(look, lease);
    code
}

/// Writes the protected quotations that a price in 1/1,000,000 dollar trades through.
#[unsafe(no_mangle)]
pub extern "C" fn nms_raw_traded_through(
    look: &mut NmsLook,
    sym: u16,
    millionths: u64,
    out: &mut NmsThrough,
) -> u32
    ensures closed { look.old.mark ≢ open_mark → (result ≡ 15) × (look.new ≡ look.old) }
    ensures open { look.old.mark ≡ open_mark → look.new.mark ≡ open_mark }
    ensures answer { look.old.mark ≡ open_mark → Behind look.old.value (λ opened. result ≡ answer_of (through_fault opened sym millionths)) }
    ensures through { result ≡ 0 → Behind look.old.value (λ opened. AreThrough opened sym millionths out.new) }
    ensures same { look.new.value ≡ look.old.value }
    ensures share { look.old.mark ≡ open_mark → (look.new.round ≡ look.old.round) × (look.new.count ≡ look.old.count) }
    ensures unwritten { result ≢ 0 → out.new ≡ out.old }
{
    let Some(lease) = take_share(look) else {
        return CLOSED;
    };
    let code = answer(lease.get().through(sym, millionths, out));
    give_share(look, lease);
    code
}

/// Writes what one share costs with a participant's fee, in nanodollars.
#[unsafe(no_mangle)]
pub extern "C" fn nms_raw_unit_cost(
    look: &mut NmsLook,
    part: u8,
    side: u8,
    price: u64,
    out: &mut i64,
) -> u32
    ensures closed { look.old.mark ≢ open_mark → (result ≡ 15) × (look.new ≡ look.old) }
    ensures open { look.old.mark ≡ open_mark → look.new.mark ≡ open_mark }
    ensures answer { look.old.mark ≡ open_mark → Behind look.old.value (λ opened. result ≡ answer_of (error_of (cost_on opened part side price))) }
    ensures cost { result ≡ 0 → Behind look.old.value (λ opened. IfOk (cost_on opened part side price) (λ cost. out.new ≡ cost)) }
    ensures same { look.new.value ≡ look.old.value }
    ensures share { look.old.mark ≡ open_mark → (look.new.round ≡ look.old.round) × (look.new.count ≡ look.old.count) }
    ensures unwritten { result ≢ 0 → out.new ≡ out.old }
{
    let Some(lease) = take_share(look) else {
        return CLOSED;
    };
    let code = answer(lease.get().unit_cost(part, side, price, out));
    give_share(look, lease);
    code
}

/// Writes the opening changes of a symbol.
#[unsafe(no_mangle)]
pub extern "C" fn nms_raw_opening_of(look: &mut NmsLook, sym: u16, out: &mut NmsOpening) -> u32
    ensures closed { look.old.mark ≢ open_mark → (result ≡ 15) × (look.new ≡ look.old) }
    ensures open { look.old.mark ≡ open_mark → look.new.mark ≡ open_mark }
    ensures answer { look.old.mark ≡ open_mark → Behind look.old.value (λ opened. result ≡ answer_of (sym_fault opened sym)) }
    ensures opening { result ≡ 0 → Behind look.old.value (λ opened. IsOpening (sizes_on opened) opened.board sym out.new) }
    ensures same { look.new.value ≡ look.old.value }
    ensures share { look.old.mark ≡ open_mark → (look.new.round ≡ look.old.round) × (look.new.count ≡ look.old.count) }
    ensures unwritten { result ≢ 0 → out.new ≡ out.old }
{
    let Some(lease) = take_share(look) else {
        return CLOSED;
    };
    let code = answer(lease.get().opening(sym, out));
    give_share(look, lease);
    code
}
