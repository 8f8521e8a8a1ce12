//! What a board holds, and the numbers of a setup's names: `specs/Named`.
ghost use Rattle.std.specs.Prelude.{◌≡◌, Some, OnErr, OnOk};
ghost use Rattle.std.specs.Result.{result_err};
ghost use Rattle.nms_quote.specs.Roster.{part_text, place_in, symbol_text};
ghost use Rattle.nms_calls.specs.Named.{absent, counts_of, part_name_fault, sym_name_fault};
ghost use Rattle.nms_calls.specs.Written.{IsWritten};

use crate::call_fault::CallFault;
use crate::change_reading::{part_of, sym_of};
use crate::open_board::OpenBoard;
use crate::text_writing::put_text;
use nms_fees::Setup;
use nms_opening::MOST_BEFORE;

/// How many changes, participants and symbols a board has.
#[repr(C)]
#[derive(Clone, Copy)]
pub struct NmsCounts {
    /// How many changes were applied.
    pub applied: u64,
    /// How many more changes may be applied. With those applied before they are 2^63. The setup's limit of the tape does not
    /// count here.
    pub room: u64,
    /// How many participants the roster has.
    pub parts: u32,
    /// How many symbols the roster has.
    pub syms: u32,
}

impl OpenBoard {
    /// How many changes were applied, how many more may be, and how many participants and symbols there are.
    pub fn counts(&self) -> NmsCounts
        ensures { result ≡ counts_of self.now }
    {
        let applied = self.rolling.version();
        NmsCounts {
            applied,
            room: MOST_BEFORE - applied,
            parts: self.setup.roster().parts() as u32,
            syms: self.setup.roster().syms() as u32,
        }
    }

    /// The setup from which the board was opened.
    pub fn setup(&self) -> &Setup
        ensures { result.now ≡ self.now.settings }
    {
        &self.setup
    }
}

/// Writes the place of the participant with a name.
pub fn find_part(setup: &Setup, name: &[u8], out: &mut u8) -> Result<(), CallFault>
    ensures answer { result_err result ≡ absent CallFault.NoParticipant (place_in setup.now.roster.parts name.now) }
    ensures found { OnOk result (place_in setup.now.roster.parts name.now ≡ Some out.new) }
    ensures unwritten { OnErr result (out.new ≡ out.old) }
{
    match setup.roster().find_part(name) {
        Some(part) => {
            *out = part.get();
            Ok(())
        }
        None => Err(CallFault::NoParticipant),
    }
}

/// Writes the place of the symbol with a name.
pub fn find_sym(setup: &Setup, name: &[u8], out: &mut u16) -> Result<(), CallFault>
    ensures answer { result_err result ≡ absent CallFault.NoSymbol (place_in setup.now.roster.syms name.now) }
    ensures found { OnOk result (place_in setup.now.roster.syms name.now ≡ Some out.new) }
    ensures unwritten { OnErr result (out.new ≡ out.old) }
{
    match setup.roster().find_sym(name) {
        Some(sym) => {
            *out = sym.get();
            Ok(())
        }
        None => Err(CallFault::NoSymbol),
    }
}

/// Writes the name of a participant.
pub fn part_name(
    setup: &Setup,
    place: u8,
    out: &mut [u8],
    bytes: &mut usize,
) -> Result<(), CallFault>
    ensures answer { result_err result ≡ part_name_fault setup.now place out.old }
    ensures written { OnOk result (IsWritten (part_text setup.now.roster place) out.old out.new bytes.new) }
    ensures unwritten { OnErr result ((out.new ≡ out.old) × (bytes.new ≡ bytes.old)) }
{
    let part = part_of(setup.roster(), place)?;
    put_text(setup.roster().part_name(part).as_bytes(), out, bytes)
}

/// Writes the name of a symbol.
pub fn sym_name(
    setup: &Setup,
    place: u16,
    out: &mut [u8],
    bytes: &mut usize,
) -> Result<(), CallFault>
    ensures answer { result_err result ≡ sym_name_fault setup.now place out.old }
    ensures written { OnOk result (IsWritten (symbol_text setup.now.roster place) out.old out.new bytes.new) }
    ensures unwritten { OnErr result ((out.new ≡ out.old) × (bytes.new ≡ bytes.old)) }
{
    let sym = sym_of(setup.roster(), place)?;
    put_text(setup.roster().sym_name(sym).as_bytes(), out, bytes)
}
