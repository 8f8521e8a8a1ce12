//! The symbols whose rows have begun, in this shard or an earlier one.
use std::alloc::Global;
use std::collections::HashSet;

/// The symbols whose rows have begun in any shard. Only the memory for them grows with a market.
#[derive(Drop)]
pub(crate) struct Begun {
    alloc: Global,
    names: HashSet<String>,
}

impl Begun {
    /// The set before the first row: no symbol has begun.
    pub(crate) fn new(alloc: Global) -> Begun {
        Begun {
            alloc,
            names: HashSet::new(alloc),
        }
    }

    /// How many symbols have begun.
    pub(crate) fn len(&self) -> u64 {
        self.names.len() as u64
    }

    /// Whether a symbol has begun.
    pub(crate) fn contains(&self, name: &str) -> bool {
        self.names.contains(name)
    }

    /// Adds a symbol. Returns whether there was memory for it.
    pub(crate) fn add(&mut self, name: &str) -> bool {
        match String::from_str(self.alloc, name) {
            Ok(owned) => self.names.insert(owned).is_ok(),
            Err(_) => false,
        }
    }
}
