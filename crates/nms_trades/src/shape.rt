//! How the answer to a record is written.
ghost use Rattle.std.specs.Prelude.{◌≡◌};
ghost use Rattle.nms_trades.specs.Answers.{is_text};

/// How the answer to a record is written.
#[derive(Clone, Copy)]
pub enum Shape {
    /// The answer is written as lines of several kinds.
    Lines,
    /// The answer is written as one line of columns.
    Columns,
    /// The answer is written as objects.
    Objects,
}

impl Shape {
    /// Whether answers of this shape are text, and not JSON objects.
    pub(crate) fn is_text(self) -> bool
        ensures { result ≡ is_text self }
    {
        match self {
            Shape::Lines | Shape::Columns => true,
            Shape::Objects => false,
        }
    }
}
