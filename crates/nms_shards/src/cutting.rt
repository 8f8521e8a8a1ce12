//! The state kept from row to row while a market's rows are cut: the current symbol, and the shard being written.
ghost use Rattle.std.specs.Prelude.{◌≡◌, ◌<◌, ◌≤◌, ◌+◌, ◌/◌, IfOk, IsTrue, OnOk, length, true};
ghost use Rattle.nms_quote.specs.Roster.{sizes_of};
ghost use Rattle.nms_quote.specs.declared.TheConstants.{MOST_SYMBOLS};
ghost use Rattle.nms_shards.specs.Shard.{opened_with};
ghost use Rattle.nms_shards.specs.declared.TheConstants.{LEAST_LIMIT};

use crate::begun::Begun;
use crate::rosters::{bare_roster, lot_lent, own_roster};
use csv::ByteRecord;
use nms_board::Boards;
use nms_fees::Setup;
use nms_import::{
    Cause, Columns, Entry, ImportFault, KeptSides, Meanings, Sides, entry_with, left_with,
    side_said, step_of, symbol_in,
};
use nms_lines::name_of_sym;
use nms_opening::{OpeningChanges, opening_of, reopened};
use nms_quote::{Change, MOST_SYMBOLS, Roster, Sym, is_symbol_name};
use nms_units::Lot;
use std::alloc::Global;
use std::marker::Model;
use std::mem;

/// A symbol of a shard.
#[derive(Drop)]
pub struct Listed {
    /// The symbol's name.
    pub name: String,
    /// The symbol's round lot.
    pub lot: Lot,
    /// The version after the symbol's first change in the shard.
    pub first: u64,
    /// The version after the symbol's last change in the shard.
    pub last: u64,
    /// If the shard goes on with the symbol: the time of the symbol's first change after the cut at the shard's beginning. The
    /// digits of the time are HHMMSSnnnnnnnnn.
    pub from: Option<u64>,
    /// If the next shard goes on with the symbol: the time of the symbol's first change there, as digits HHMMSSnnnnnnnnn.
    pub until: Option<u64>,
}

/// What a row of a market makes.
#[derive(Clone, Copy)]
pub(crate) enum Said {
    /// One more change of the current symbol, with the cause if the row was refused.
    More(Entry, Option<Cause>),
    /// The first change of another symbol, with the cause if the row was refused.
    Begins(Entry, Option<Cause>),
    /// A change of a symbol that has ended, so that the row is refused.
    Returned,
    /// No change, with the cause why there is none.
    Nothing(Cause),
}

/// The state that is kept from row to row while a market's rows are cut into shards.
#[derive(Drop)]
pub struct Cutting {
    alloc: Global,
    limit: u64,
    begun: Begun,
    bare: Roster,
    own: Roster,
    next: Roster,
    board: Boards,
    listed: Vec<Listed>,
    count: u64,
    opened: u64,
    time: u64,
    number: u64,
    cut: Option<u64>,
    /// What each participant shows of the current symbol, as rows of one side have said.
    kept: KeptSides,
    /// What the participant of the last row shows of the symbol, once the row's change is taken.
    sides: Sides,
    scratch: Vec<u8>,
}

impl Model for Cutting {
    ghost use Rattle.std.specs.Prelude.{◌≤◌, length};
    ghost use Rattle.std.specs.Prelude.{◌≡◌};
    ghost use Rattle.nms_quote.specs.Roster.{sizes_of};
    ghost use Rattle.nms_quote.specs.declared.TheConstants.{MOST_CHANGES, MOST_SYMBOLS};
    ghost use Rattle.nms_shards.specs.Shard.{Filled};
    ghost use Rattle.nms_shards.specs.declared.TheConstants.{LEAST_LIMIT};

    ghost Value = { Filled };

    ghost view = { λ c. record { changes = c.count; opened = c.opened; limit = c.limit; symbols = length c.listed.items } };

    ghost invariant = { λ c. (c.opened ≤ c.count) × (c.count ≤ c.limit) × (length c.listed.items ≤ MOST_SYMBOLS)
        × (LEAST_LIMIT ≤ c.limit) × (c.limit ≤ MOST_CHANGES) × (c.board.sizes ≡ sizes_of c.own) };
}

impl Cutting {
    /// The state before the first row. The setup gives participants, feeds, fees and round lots, and the limit of changes.
    pub fn new(alloc: Global, lent: &Setup) -> Result<Cutting, ImportFault>
        requires room { LEAST_LIMIT ≤ lent.now.tape_limit }
        ensures filled { IfOk result (λ cutting. cutting ≡ record { changes = 0; opened = 0; limit = lent.now.tape_limit; symbols = 0 }) }
    {
        let (bare, next) = bare_rosters(alloc, lent.roster())?;
        match bare_board(alloc, lent.roster()) {
            Ok((own, board)) => Ok(Cutting {
                alloc,
                limit: lent.tape_limit(),
                begun: Begun::new(alloc),
                bare,
                own,
                next,
                board,
                listed: Vec::new(alloc),
                count: 0,
                opened: 0,
                time: 0,
                number: 0,
                cut: None,
                kept: KeptSides::new(alloc),
                sides: Sides::none(),
                scratch: Vec::new(alloc),
            }),
            Err(fault) => Err(fault),
        }
    }

    /// The symbols of the shard, in order.
    pub fn listed(&self) -> &[Listed]
        ensures { length result.now ≡ self.now.symbols }
    {
        &self.listed
    }

    /// A law: a shard has no more changes than its setup's tape takes, and no more symbols than a roster.
    pub fn fits(&self)
        ensures changes { self.now.changes ≤ self.now.limit }
        ensures symbols { self.now.symbols ≤ MOST_SYMBOLS }
    {
        // Reading a field gives the prover the facts that hold of each cutting.
        let _count = self.count;
    }

    /// How many opening changes the shard begins with.
    pub fn opened(&self) -> u64
        ensures count { result ≡ self.now.opened }
        ensures within { result ≤ self.now.changes }
    {
        self.opened
    }

    /// The allocator of the cutting.
    pub(crate) fn alloc(&self) -> Global {
        self.alloc
    }

    /// The roster of the current symbol.
    pub(crate) fn own(&self) -> &Roster {
        &self.own
    }

    /// What a row makes. The shard stays as it is.
    pub(crate) fn read(
        &mut self,
        columns: &Columns,
        meanings: &Meanings,
        lent: &Roster,
        row: &ByteRecord,
    ) -> Result<Said, ImportFault>
        ensures stays { self.new ≡ self.old }
    {
        self.sides = Sides::none();
        let text = columns.symbol.text(row);
        match symbol_in(meanings, &self.own, text, &mut self.scratch)? {
            Some(sym) => {
                match entry_with(columns, meanings, &self.own, row, Some(sym)) {
                    Ok(entry) => self.said_of(columns, meanings, row, entry, false),
                    Err(cause) => Ok(self.left_more(columns, meanings, row, cause, sym)),
                }
            }
            None => self.read_other(columns, meanings, lent, row),
        }
    }

    /// What a row makes whose texts were read without a fault. It is a row of the current symbol, or the first of another one.
    /// A row of one side gives the quotation of both sides.
    fn said_of(
        &mut self,
        columns: &Columns,
        meanings: &Meanings,
        row: &ByteRecord,
        entry: Entry,
        begins: bool,
    ) -> Result<Said, ImportFault>
        ensures stays { self.new ≡ self.old }
    {
        let Some(said) = side_said(columns, meanings, row, &entry) else {
            return Ok(given(begins, entry, None));
        };
        self.kept.make_room(1)?;
        let shown = if begins {
            Sides::none()
        } else {
            self.kept.get(said.part, said.sym)
        };
        let step = step_of(meanings.half, meanings.withdraws, &shown, &said);
        self.sides = step.sides;
        Ok(match (step.made, step.left) {
            (Ok(entry), _) => given(begins, entry, None),
            (Err(cause), Some(left)) => given(begins, left, Some(cause)),
            (Err(cause), None) => Said::Nothing(cause),
        })
    }

    /// What a row of another symbol than the current one makes. The name of its symbol is in `scratch`.
    fn read_other(
        &mut self,
        columns: &Columns,
        meanings: &Meanings,
        lent: &Roster,
        row: &ByteRecord,
    ) -> Result<Said, ImportFault>
        ensures stays { self.new ≡ self.old }
    {
        if !is_symbol_name(&self.scratch) {
            // A row whose symbol has a wrong form makes no change, and withdraws nothing if it is refused.
            return match entry_with(columns, meanings, &self.bare, row, None) {
                Ok(_) => Ok(Said::Returned),
                Err(cause) => Ok(Said::Nothing(cause)),
            };
        }
        self.next = own_roster(self.alloc, lent, &self.scratch)?;
        let sym = self.next.find_sym(&self.scratch);
        let is_over = self.begun.contains(name_of_sym(&self.next, first_sym()));
        match entry_with(columns, meanings, &self.next, row, sym) {
            Ok(_) if is_over => Ok(Said::Returned),
            Err(cause) if is_over => Ok(Said::Nothing(cause)),
            Ok(entry) => self.said_of(columns, meanings, row, entry, true),
            Err(cause) => Ok(self.left_first(columns, meanings, row, cause)),
        }
    }

    /// What a refused or skipped row of the current symbol makes.
    fn left_more(
        &self,
        columns: &Columns,
        meanings: &Meanings,
        row: &ByteRecord,
        cause: Cause,
        sym: Sym,
    ) -> Said {
        match left_with(
            columns,
            meanings,
            &self.own,
            row,
            cause,
            Some(sym),
            self.time,
        ) {
            Some(left) => Said::More(left, Some(cause)),
            None => Said::Nothing(cause),
        }
    }

    /// What a refused or skipped row of a symbol that has not begun makes.
    fn left_first(
        &self,
        columns: &Columns,
        meanings: &Meanings,
        row: &ByteRecord,
        cause: Cause,
    ) -> Said {
        let sym = self.next.find_sym(&self.scratch);
        match left_with(columns, meanings, &self.next, row, cause, sym, self.time) {
            Some(left) => Said::Begins(left, Some(cause)),
            None => Said::Nothing(cause),
        }
    }

    /// Whether the shard has room for one more change of the current symbol.
    pub(crate) fn has_room(&self, change: &Change) -> bool
        ensures { IsTrue result → self.now.changes < self.now.limit }
    {
        self.count < self.limit && self.board.takes(change)
    }

    /// Whether the shard takes one more symbol. It does if it has fewer than 1,000, and changes for less than half of its tape.
    pub(crate) fn takes_symbol(&self) -> bool
        ensures { IsTrue result → (self.now.changes < self.now.limit / 2) × (self.now.symbols < MOST_SYMBOLS) }
    {
        self.listed.len() < usize::from(MOST_SYMBOLS) && self.count < self.limit / 2
    }

    /// Notes that the next shard goes on with the current symbol, whose next change has the given time. Without a time, the
    /// next shard begins with another symbol.
    pub(crate) fn split(&mut self, cut: Option<u64>)
        ensures stays { self.new ≡ self.old }
    {
        self.cut = cut;
        set_until(&mut self.listed, cut);
    }

    /// Begins another symbol: the symbol of the row that was read last.
    pub(crate) fn begin_symbol(&mut self, lent: &Roster) -> Result<(), ImportFault>
        requires room { self.old.symbols < MOST_SYMBOLS }
        ensures changes { OnOk result (self.new.changes ≡ self.old.changes) }
        ensures opened { OnOk result (self.new.opened ≡ self.old.opened) }
        ensures limit { OnOk result (self.new.limit ≡ self.old.limit) }
    {
        if !self.begun.add(name_of_sym(&self.next, first_sym())) {
            return Err(ImportFault::NoMemory);
        }
        self.kept.clear()?;
        let board = new_board(self.alloc, &self.next)?;
        mem::swap(&mut self.own, &mut self.next);
        self.board = board;
        let listed = listed_symbol(
            self.alloc,
            &self.own,
            lent,
            self.count + 1,
            self.count,
            None,
        )?;
        match self.listed.push(listed) {
            Ok(()) => Ok(()),
            Err(_) => Err(ImportFault::NoMemory),
        }
    }

    /// Counts a change of the current symbol, and puts it on the symbol's board. `number` is the number of its row among the
    /// rows of all files, from 1.
    pub(crate) fn count(&mut self, number: u64, entry: &Entry)
        requires room { self.old.changes < self.old.limit }
        ensures changes { self.new.changes ≡ self.old.changes + 1 }
        ensures opened { self.new.opened ≡ self.old.opened }
        ensures limit { self.new.limit ≡ self.old.limit }
    {
        self.count += 1;
        self.time = entry.time;
        self.number = number;
        if let Change::Quote { part, .. } = entry.change {
            self.kept.put(part, first_sym(), self.sides);
        }
        if self.board.takes(&entry.change) {
            self.board.apply(entry.change);
        }
        set_last(&mut self.listed, self.count);
    }

    /// Begins the next shard, and returns the opening changes of the symbol that goes on, if one does.
    pub(crate) fn begin_shard(
        &mut self,
        lent: &Roster,
    ) -> Result<Option<OpeningChanges>, ImportFault>
        ensures changes { IfOk result (λ opening. self.new.changes ≡ opened_with opening) }
        ensures opened { IfOk result (λ opening. self.new.opened ≡ opened_with opening) }
        ensures limit { OnOk result (self.new.limit ≡ self.old.limit) }
    {
        self.listed.clear();
        self.count = 0;
        self.opened = 0;
        let from = self.cut;
        self.cut = None;
        if from.is_none() || !self.board.has_sym(first_sym()) {
            return Ok(None);
        }
        let opening = opening_of(&self.board, first_sym());
        let changes = opening.as_slice().len() as u64;
        self.board = reopen(self.alloc, &self.own, &self.board)?;
        let listed = listed_symbol(self.alloc, &self.own, lent, 1, changes, from)?;
        match self.listed.push(listed) {
            Ok(()) => {}
            Err(_) => return Err(ImportFault::NoMemory),
        }
        self.count = changes;
        self.opened = changes;
        Ok(Some(opening))
    }

    /// The number of the row that made the last change, and the time of that change.
    pub(crate) fn last_change(&self) -> (u64, u64) {
        (self.number, self.time)
    }
}

/// What a row makes that gives a change: the first change of another symbol if `begins` is set, else one more of the current
/// symbol.
fn given(begins: bool, entry: Entry, cause: Option<Cause>) -> Said {
    if begins {
        Said::Begins(entry, cause)
    } else {
        Said::More(entry, cause)
    }
}

/// Two rosters with the participants of another one, and no symbol.
fn bare_rosters(alloc: Global, lent: &Roster) -> Result<(Roster, Roster), ImportFault> {
    let one = bare_roster(alloc, lent)?;
    match bare_roster(alloc, lent) {
        Ok(other) => Ok((one, other)),
        Err(fault) => Err(fault),
    }
}

/// A roster with the participants of another one and no symbol, and the board of that roster.
fn bare_board(alloc: Global, lent: &Roster) -> Result<(Roster, Boards), ImportFault>
    ensures { IfOk result (λ made. made.1.sizes ≡ sizes_of made.0) }
{
    let own = bare_roster(alloc, lent)?;
    match new_board(alloc, &own) {
        Ok(board) => Ok((own, board)),
        Err(fault) => Err(fault),
    }
}

/// A board of a roster, with nothing on it.
fn new_board(alloc: Global, roster: &Roster) -> Result<Boards, ImportFault>
    ensures { IfOk result (λ board. board.sizes ≡ sizes_of roster.now) }
{
    match Boards::new(alloc, roster) {
        Ok(board) => Ok(board),
        Err(_) => Err(ImportFault::NoMemory),
    }
}

/// A board that shows the same as the given one, and has taken only the opening changes.
fn reopen(alloc: Global, roster: &Roster, board: &Boards) -> Result<Boards, ImportFault>
    requires roster { board.now.sizes ≡ sizes_of roster.now }
    requires listed { 0 < length board.now.sizes.lots }
    ensures { IfOk result (λ new. new.sizes ≡ sizes_of roster.now) }
{
    match reopened(alloc, roster, board) {
        Ok(board) => Ok(board),
        Err(_) => Err(ImportFault::NoMemory),
    }
}

/// The place of the only symbol of a roster, which is the first place.
fn first_sym() -> Sym
    ensures { result ≡ 0 }
{
    Sym::new(0).unwrap()
}

/// The only symbol of a roster, with its first and last version in the shard, and the time of its first change after a cut.
fn listed_symbol(
    alloc: Global,
    own: &Roster,
    lent: &Roster,
    first: u64,
    last: u64,
    from: Option<u64>,
) -> Result<Listed, ImportFault> {
    let name = name_of_sym(own, first_sym());
    let lot = lot_lent(lent, name.as_bytes());
    match String::from_str(alloc, name) {
        Ok(name) => Ok(Listed {
            name,
            lot,
            first,
            last,
            from,
            until: None,
        }),
        Err(_) => Err(ImportFault::NoMemory),
    }
}

/// Sets, for the last symbol of the shard, the time of its first change in the next shard.
fn set_until(listed: &mut Vec<Listed>, until: Option<u64>)
    ensures { length listed.new.items ≡ length listed.old.items }
{
    if let Some(symbol) = listed.last_mut() {
        symbol.until = until;
    }
}

/// Sets, for the last symbol of the shard, the version after its last change.
fn set_last(listed: &mut Vec<Listed>, version: u64)
    ensures { length listed.new.items ≡ length listed.old.items }
{
    if let Some(symbol) = listed.last_mut() {
        symbol.last = version;
    }
}
