//! What a run has left of an epoch, at whatever moment it ended: its board, and where its files are cut (specs/Resuming).
ghost use Rattle.std.specs.Prelude.{ℕ, ◌≡◌, ◌==◌, ◌<◌, ◌≤◌, ◌++◌, All, List, IfOk, IfSome, MatchResult, Some, drop, false, true, length, option_map, position};
ghost use Rattle.nms_quote.specs.Roster.{sizes_of};
ghost use Rattle.nms_quote.specs.Tape.{Tape};
ghost use Rattle.nms_quote.specs.declared.change.Change.{Change};
ghost use Rattle.nms_change_text.specs.ChangeText.{changes_text};
ghost use Rattle.nms_change_text.specs.ReadBack.{FitsRecord};
ghost use Rattle.nms_files.specs.ChangeFile.{IsFileTape, is_of_line};
ghost use Rattle.nms_serving.specs.Resuming.{AreListed, GoesOn, IsLeft, IsOfRecords, after_lines, board_of, lengths_text, lines_begun, most_behind};

use crate::MOST_BATCH;
use crate::resume_fault::ResumeFault;
use nms_board::Boards;
use nms_change_text::changes_read_as_written;
use nms_fees::Setup;
use nms_files::{ChangesFault, read_changes};
use nms_lines::{a_text_has_one_list_of_records, part_names_are_formed, symbol_names_are_formed};
use nms_quote::Roster;
use nms_units::{digits_read_as_printed, parse_digits};
use std::alloc::Global;

/// The most digits of a length: those of `MOST_CHANGES`.
const MOST_DIGITS: usize = 8;

/// The board of the changes that an epoch published, and the places at which its files are cut to have only these.
#[derive(Drop)]
pub struct LeftBoard {
    /// The board, from which the next epoch begins.
    pub board: Boards,
    /// How many changes were published.
    pub published: u64,
    /// How many bytes of the tape's file record them.
    pub tape_end: usize,
    /// How many bytes of the lengths' file are complete lines.
    pub lengths_end: usize,
    /// How many changes begin after the place at which the tape's file is cut. They were not published.
    pub cut: u64,
}

/// The lengths that were published, as their file lists them.
#[derive(Clone, Copy)]
struct Listed {
    /// The last of them; 0 if there is none.
    length: u64,
    /// How many bytes of the file list these lengths.
    end: usize,
}

/// Reads what is left of an epoch: the bytes of its tape's file, and those of its lengths' file. If the end of a process left
/// them, whenever it came, the board is that of what was published last. Such files are refused only if out of memory.
///
/// Files that have more after the last length than a run leaves are refused, and so are lengths beyond the tape.
pub fn left_board(
    alloc: Global,
    setup: &Setup,
    text: &[u8],
    listed: &[u8],
) -> Result<LeftBoard, ResumeFault>
    ensures goes_on { (tape : Tape) (lengths : List ℕ) (published : ℕ) → IsLeft setup.now tape lengths published text.now listed.now
        → MatchResult result (GoesOn setup.now tape lengths published) (λ fault. fault ≡ ResumeFault.NoMemory) }
    ensures reads { IfOk result (IsOfRecords setup.now text.now) }
    ensures sizes { IfOk result (λ left. left.board.sizes ≡ sizes_of setup.now.roster) }
    ensures within { IfOk result (λ left. (left.tape_end ≤ length text.now) × (left.lengths_end ≤ length listed.now)) }
{
    each_change_is_a_line(setup.roster());
    let _limit = setup.tape_limit();
    let Some(lengths) = listed_lengths(listed) else {
        return Err(ResumeFault::BadLengths);
    };
    let Some(behind) = after_lines(text, lengths.length) else {
        return Err(ResumeFault::ShortTape);
    };
    let cut = lines_begun(behind);
    if cut > most_behind(setup, lengths.length) {
        return Err(ResumeFault::TooMuch);
    }
    let tape_end = text.len() - behind.len();
    match board_of(alloc, setup, &text[..tape_end], lengths.length) {
        Ok(board) => Ok(LeftBoard {
            board,
            published: lengths.length,
            tape_end,
            lengths_end: lengths.end,
            cut,
        }),
        Err(fault) => Err(fault),
    }
}

/// Reads the lengths that a file lists, one in each line and each greater than the one before. An incomplete last line is left
/// out. `None` if a complete line is no such length.
fn listed_lengths(listed: &[u8]) -> Option<Listed>
    ensures found { (lengths : List ℕ) (published : ℕ) (torn : List ℕ) → AreListed lengths published torn listed.now
        → result ≡ Some (record { length = published; end = length (lengths_text lengths) }) }
    ensures within { IfSome result (λ found. found.end ≤ length listed.now) }
{
    digits_read_as_printed();
    let mut rest = listed;
    let mut length = 0;
    while let Some(end) = line_end(rest) {
        let next = parse_digits(&rest[..end], MOST_DIGITS)?;
        if next <= length {
            return None;
        }
        length = next;
        rest = rest_after(rest, end + 1);
    }
    if rest.len() > MOST_DIGITS {
        return None;
    }
    Some(Listed {
        length,
        end: listed.len() - rest.len(),
    })
}

/// What a text has after the given number of bytes.
fn rest_after(text: &[u8], count: usize) -> &[u8]
    requires within { count ≤ length text.now }
    ensures { result.now ≡ drop count text.now }
{
    &text[count..]
}

/// The place of the first line feed.
fn line_end(text: &[u8]) -> Option<usize>
    ensures place { result ≡ position (λ byte. byte == 10) text.now }
    ensures within { IfSome result (λ end. end < length text.now) }
{
    text.iter().position(|byte| *byte == b'\n')
}

/// What is left of a text after the given number of lines. `None` if it has fewer.
fn after_lines(text: &[u8], lines: u64) -> Option<&[u8]>
    ensures rest { option_map (λ rest. rest.now) result ≡ after_lines lines text.now }
    ensures within { IfSome result (λ rest. length rest.now ≤ length text.now) }
{
    let mut rest = text;
    let mut left = lines;
    while left > 0 {
        let Some((byte, more)) = rest.split_first() else {
            return None;
        };
        if *byte == b'\n' {
            left -= 1;
        }
        rest = more;
    }
    Some(rest)
}

/// How many lines begin in a text that begins with a line.
fn lines_begun(text: &[u8]) -> u64
    ensures { result ≡ lines_begun true text.now }
{
    let mut count = 0;
    let mut begins = true;
    for byte in text {
        count += u64::from(begins);
        begins = *byte == b'\n';
    }
    count
}

/// A fact for the prover: the text of a list of changes has one line for each change. The call has no effect.
fn each_change_is_a_line(roster: &Roster)
    ensures behind { (changes : List Change) (rest : List ℕ) → after_lines (length changes) (changes_text roster.now changes ++ rest) ≡ Some rest }
    ensures begun { (changes : List Change) → lines_begun true (changes_text roster.now changes) ≡ length changes }
{
    part_names_are_formed(roster);
    symbol_names_are_formed(roster);
}

/// The most changes that a run may have written but not yet published, after it has published the given number of changes.
fn most_behind(setup: &Setup, published: u64) -> u64
    ensures { result ≡ most_behind setup.now.roster published }
{
    if published > 0 {
        return MOST_BATCH;
    }
    let (parts, syms) = (setup.roster().parts() as u64, setup.roster().syms() as u64);
    MOST_BATCH.max(syms * (2 * parts + 1))
}

/// The board of a text that has the given number of records.
fn board_of(alloc: Global, setup: &Setup, text: &[u8], records: u64) -> Result<Boards, ResumeFault>
    ensures taken { (tape : Tape) → All (FitsRecord setup.now.roster) tape → length tape ≤ setup.now.tape_limit
        → text.now ≡ changes_text setup.now.roster tape → records ≡ length tape
        → MatchResult result (λ board. board ≡ board_of setup.now tape) (λ fault. fault ≡ ResumeFault.NoMemory) }
    ensures read { IfOk result (λ board. (tape : Tape) × IsFileTape setup.now (Some text.now) tape × (records ≡ length tape) × (board ≡ board_of setup.now tape)) }
    ensures sizes { IfOk result (λ board. board.sizes ≡ sizes_of setup.now.roster) }
{
    changes_read_as_written(setup.roster());
    a_text_has_one_list_of_records();
    let changes = match read_changes(alloc, setup, text) {
        Ok(changes) => changes,
        Err(fault) => return Err(unread(fault)),
    };
    if changes.len() as u64 != records {
        return Err(ResumeFault::NotLines);
    }
    let Ok(mut board) = Boards::new(alloc, setup.roster()) else {
        return Err(ResumeFault::NoMemory);
    };
    board.apply_all(&changes);
    Ok(board)
}

/// The reason why the changes in a text could not be read. The text is in memory, so that only a lack of memory can break off
/// the reading.
fn unread(fault: ChangesFault) -> ResumeFault
    ensures { is_of_line fault ≡ false → result ≡ ResumeFault.NoMemory }
{
    match fault {
        ChangesFault::Record(_) => ResumeFault::NoMemory,
        ChangesFault::Line(_) | ChangesFault::TapeFull => ResumeFault::Refused(fault),
    }
}
