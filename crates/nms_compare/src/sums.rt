//! How many rows had each finding, by symbol and by hour: `specs/Summed`.
ghost use Rattle.std.specs.Prelude.{◌≡◌, IfSome, OnOk};
ghost use Rattle.nms_compare.specs.Summed.{with_one, with_row};

use crate::compare_fault::CompareFault;
use crate::finding::Finding;
use nms_quote::{Roster, Sym};
use nms_show::{Form, Item, write_line, write_object};
use std::alloc::{AllocError, Global};
use std::io::Write;
use std::marker::Model;

/// The number of hours in a day.
pub(crate) const HOURS: usize = 24;
/// The hour of a time is the number `HHMMSSnnnnnnnnn` divided by this one.
pub(crate) const HOUR: u64 = 10_000_000_000_000;

/// The number of compared rows with each finding, for one symbol or for one hour.
#[derive(Clone, Copy)]
pub(crate) struct Found {
    equal: u64,
    other_price: u64,
    other_size: u64,
    other_venue: u64,
    no_counterpart: u64,
}

/// The number of compared rows with each finding, by symbol and by hour.
#[derive(Drop)]
pub struct Sums {
    alloc: Global,
    /// The numbers for each symbol, at the symbol's place on the roster.
    symbols: Vec<Found>,
    hours: Vec<Found>,
}

impl Model for Sums {
    ghost use Rattle.nms_compare.specs.Summed.{Summed};

    ghost Value = { Summed };

    ghost view = { λ s. record { symbols = s.symbols.items; hours = s.hours.items } };
}

impl Found {
    /// The numbers with one more row. Returns `None` only if a number becomes too large.
    fn with(mut self, finding: Finding) -> Option<Found>
        ensures { IfSome result (λ found. found ≡ with_one self finding) }
    {
        match finding {
            Finding::Equal => self.equal = self.equal.checked_add(1)?,
            Finding::OtherPrice => self.other_price = self.other_price.checked_add(1)?,
            Finding::OtherSize => self.other_size = self.other_size.checked_add(1)?,
            Finding::OtherVenue => self.other_venue = self.other_venue.checked_add(1)?,
            Finding::NoCounterpart => self.no_counterpart = self.no_counterpart.checked_add(1)?,
        }
        Some(self)
    }

    /// Whether any counted row differs from the national best of the tape.
    fn differs(&self) -> bool {
        self.other_price > 0
            || self.other_size > 0
            || self.other_venue > 0
            || self.no_counterpart > 0
    }
}

impl Sums {
    ghost use Rattle.std.specs.Prelude.{◌≡◌, IfOk, OnOk};
    ghost use Rattle.nms_compare.specs.Summed.{no_sums, with_judged};

    /// The numbers before the first row, for a roster with this number of symbols.
    pub(crate) fn new(alloc: Global, symbols: usize) -> Result<Sums, AllocError>
        ensures { IfOk result (λ sums. sums ≡ no_sums symbols) }
    {
        let none = Found {
            equal: 0,
            other_price: 0,
            other_size: 0,
            other_venue: 0,
            no_counterpart: 0,
        };
        let mut sums = Sums {
            alloc,
            symbols: Vec::new(alloc),
            hours: Vec::new(alloc),
        };
        sums.symbols.resize(symbols, none)?;
        sums.hours.resize(HOURS, none)?;
        Ok(sums)
    }

    /// Counts a row for its symbol and for the hour of its time.
    pub(crate) fn count(
        &mut self,
        sym: Sym,
        time: u64,
        finding: Finding,
    ) -> Result<(), CompareFault>
        ensures { OnOk result (self.new ≡ with_judged self.old (record { sym = sym; time = time; finding = finding })) }
    {
        count_at(&mut self.symbols, usize::from(sym.get()), finding)?;
        count_at(&mut self.hours, (time / HOUR) as usize, finding)
    }

    /// Writes a line for each symbol and for each hour of which a row differs.
    pub fn write<W: Write>(
        &self,
        out: &mut W,
        roster: &Roster,
        form: Form,
    ) -> Result<(), CompareFault> {
        for place in 0..roster.syms() as u16 {
            let sym = Sym::new(place).unwrap();
            let place = usize::from(place);
            if place < self.symbols.len() && self.symbols[place].differs() {
                let name = Item::Text(roster.sym_name(sym));
                write_found(self.alloc, out, form, "symbol", name, &self.symbols[place])?;
            }
        }
        for hour in 0..self.hours.len() {
            let found = self.hours[hour];
            if found.differs() {
                write_found(
                    self.alloc,
                    out,
                    form,
                    "hour",
                    Item::Number(hour as u64),
                    &found,
                )?;
            }
        }
        Ok(())
    }
}

/// Counts a row at this place of a list, if the list has such a place.
fn count_at(all: &mut [Found], place: usize, finding: Finding) -> Result<(), CompareFault>
    ensures { OnOk result (all.new ≡ with_row all.old place finding) }
{
    if place < all.len() {
        let Some(found) = all[place].with(finding) else {
            return Err(CompareFault::TooLong);
        };
        all[place] = found;
    }
    Ok(())
}

/// Writes the counts of a symbol or an hour.
fn write_found<'x, W: Write>(
    alloc: Global,
    out: &mut W,
    form: Form,
    what: &'static str,
    of: Item<'x>,
    found: &Found,
) -> Result<(), CompareFault> {
    if form.is_json() {
        let members = [
            ("what", Item::Text(what)),
            ("of", of),
            ("equal", Item::Number(found.equal)),
            ("other_price", Item::Number(found.other_price)),
            ("other_size", Item::Number(found.other_size)),
            ("other_venue", Item::Number(found.other_venue)),
            ("no_counterpart", Item::Number(found.no_counterpart)),
        ];
        write_object(alloc, out, &members)?;
        return Ok(());
    }
    let items = [
        Item::Text(what),
        Item::Text(" "),
        of,
        Item::Text(": "),
        Item::Number(found.equal),
        Item::Text(" equal, "),
        Item::Number(found.other_price),
        Item::Text(" other price, "),
        Item::Number(found.other_size),
        Item::Text(" other size, "),
        Item::Number(found.other_venue),
        Item::Text(" other venue, "),
        Item::Number(found.no_counterpart),
        Item::Text(" no counterpart"),
    ];
    write_line(out, form, &items)?;
    Ok(())
}
