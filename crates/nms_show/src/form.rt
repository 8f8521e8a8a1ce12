//! The form in which answers are printed: `specs/Endings`.
ghost use Rattle.std.specs.Prelude.{◌≡◌};
ghost use Rattle.nms_show.specs.Endings.{is_json};

/// The form in which answers are printed.
#[derive(Clone, Copy, PartialEq, Eq)]
pub enum Form {
    /// Sentences and tables.
    Text {
        /// Whether words are coloured, as a terminal shows them.
        colours: bool,
    },
    /// One JSON object a line.
    Json,
}

impl Form {
    /// Whether answers are JSON.
    pub fn is_json(self) -> bool
        ensures { result ≡ is_json self }
    {
        self == Form::Json
    }

    /// Whether words are coloured.
    pub(crate) fn has_colours(self) -> bool {
        self == Form::Text { colours: true }
    }
}
