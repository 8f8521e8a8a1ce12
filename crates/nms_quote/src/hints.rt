//! Hints for where to look first for a name.
use std::alloc::{AllocError, Global};

/// The number of hints in a table of names.
const HINTS: usize = 8192;

/// A place for each name that is tried before any other. A hint may be wrong, because two names may share one, and an unknown
/// name has one. So the caller compares the name at the place.
#[derive(Drop)]
pub(crate) struct Hints {
    places: Vec<u16>,
}

impl Hints {
    /// Hints that all say to try the first name of the table.
    pub(crate) fn new(alloc: Global) -> Result<Self, AllocError> {
        let mut places = Vec::new(alloc);
        places.resize(HINTS, 0)?;
        Ok(Hints { places })
    }

    /// The place in the table at which to look first for a name. The name is given as a number.
    pub(crate) fn place_for(&self, word: u64) -> usize {
        match self.places.get(slot_of(word)) {
            Some(place) => usize::from(*place),
            None => 0,
        }
    }

    /// Sets the place in the table at which to look first for a name. The name is given as a number.
    pub(crate) fn set(&mut self, word: u64, place: usize) {
        if let (Some(slot), Ok(place)) = (
            self.places.get_mut(slot_of(word)),
            u16::try_from(place),
        ) {
            *slot = place;
        }
    }
}

/// The place of a name's hint, which is the name as a number, spread over the hints by the golden ratio.
fn slot_of(word: u64) -> usize {
    (word.wrapping_mul(0x9e37_79b9_7f4a_7c15) >> 51) as usize
}
