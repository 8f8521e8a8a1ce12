//! The matter that a code is about.
ghost use Rattle.std.specs.Prelude.{◌≡◌};
ghost use Rattle.nms_codes.specs.Codes.{names_a_word, status_of_matter};

/// The matter that a code is about.
#[derive(Clone, Copy, Debug, PartialEq, Eq)]
pub enum Matter {
    /// A record or the text of a plan. `explain` shows its place.
    Record,
    /// Something else in a file: a length, an order, times.
    Content,
    /// A setup.
    Setup,
    /// A mapping, or the columns that it names.
    Mapping,
    /// The arguments of the call.
    Words,
    /// A file that could not be read.
    Input,
    /// The output, which is no file that is read.
    Output,
    /// Memory, which is no file.
    Memory,
    /// An import with a doubtful result.
    Import,
}

impl Matter {
    /// The exit status, 1 to 7, of a call that ends with a code about this matter.
    pub fn status(self) -> u8
        ensures { result ≡ status_of_matter self }
    {
        match self {
            Matter::Input | Matter::Output => 1,
            Matter::Words => 2,
            Matter::Setup | Matter::Mapping => 3,
            Matter::Memory => 5,
            Matter::Record | Matter::Content => 6,
            Matter::Import => 7,
        }
    }

    /// Whether an argument of the call is to blame, or the file that it names.
    pub fn is_of_a_word(self) -> bool
        ensures { result ≡ names_a_word self }
    {
        match self {
            Matter::Output | Matter::Memory => false,
            Matter::Record
            | Matter::Content
            | Matter::Setup
            | Matter::Mapping
            | Matter::Words
            | Matter::Input
            | Matter::Import => true,
        }
    }
}
