//! Why a mapping is refused: `specs/Refusals`.
ghost use Rattle.std.specs.Prelude.{◌≡◌, true};
ghost use Rattle.nms_show.specs.Plain.{is_plain};
ghost use Rattle.nms_import.specs.Refusals.{code_of, wrong_code};

use std::alloc::AllocError;

/// What is wrong at a key of a mapping's document.
#[derive(Clone, Copy, PartialEq, Eq)]
pub enum Wrong {
    /// M2: the key is needed, but absent.
    Missing,
    /// M3: there is no such key.
    Unknown,
    /// M4: the key has a value that is not allowed.
    BadValue,
}

/// A fault of a mapping's document, and its place there.
#[derive(Clone, Copy)]
pub struct Finding<'a> {
    /// The table's name, empty for the document itself.
    pub table: &'static str,
    /// The key's name.
    pub key: &'a str,
    /// The place of the wrong word in the key's list, counted from 0; `None` if no word of a list is wrong.
    pub word: Option<usize>,
    /// What is wrong.
    pub wrong: Wrong,
    /// What the document should have at the key. It is empty for an unknown key, because any other key may be meant.
    pub expected: &'static str,
}

/// Why a mapping is refused.
#[derive(Clone, Copy)]
pub enum MapFault<'a> {
    /// M1: the text is not a TOML document, from this line on.
    NotToml {
        /// The line, counted from 1.
        line: u64,
    },
    /// M2 to M4: a fault of the document.
    Refused(Finding<'a>),
    /// M5: the file's first line lacks a column that the mapping names, or has it twice.
    NoColumn {
        /// The key that names the column in the mapping's table `column`.
        key: &'static str,
        /// What the mapping should have at the key.
        expected: &'static str,
    },
    /// M6: out of memory.
    NoMemory,
}

impl Wrong {
    /// The code of the fault, `M2` to `M4`.
    pub fn code(self) -> &'static str
        ensures code { result.now ≡ wrong_code self }
        ensures plain { is_plain result.now ≡ true }
    {
        match self {
            Wrong::Missing => "M2",
            Wrong::Unknown => "M3",
            Wrong::BadValue => "M4",
        }
    }
}

impl MapFault<'_> {
    /// The code of the fault, `M1` to `M6`.
    pub fn code(&self) -> &'static str
        ensures code { result.now ≡ code_of self.now }
        ensures plain { is_plain result.now ≡ true }
    {
        match self {
            MapFault::NotToml { .. } => "M1",
            MapFault::Refused(finding) => finding.wrong.code(),
            MapFault::NoColumn { .. } => "M5",
            MapFault::NoMemory => "M6",
        }
    }
}

impl From<AllocError> for MapFault<'_> {
    ghost use Rattle.std.specs.Prelude.{◌≡◌};
    ghost use Rattle.nms_import.specs.declared.map_fault.MapFault.TheVariants.{NoMemory};

    ghost from_gives = { λ _ fault. fault ≡ NoMemory };

    fn from(_error: AllocError) -> Self {
        MapFault::NoMemory
    }
}
