//! The code of a refusal: that of a record that the board reads, or of an execution.
ghost use Rattle.std.specs.Prelude.{◌≡◌, true};
ghost use Rattle.nms_show.specs.Plain.{is_plain};

use crate::execution_code::ExecutionCode;
use nms_codes::Code;

/// The code of a refusal.
#[derive(Clone, Copy)]
pub(crate) enum RefusalCode {
    /// The code of a record that the board reads, or of a plan's text.
    Record(Code),
    /// The code of an execution.
    Execution(ExecutionCode),
}

impl RefusalCode {
    /// The code as it is printed.
    pub(crate) fn text(self) -> &'static str
        ensures plain { is_plain result.now ≡ true }
    {
        match self {
            RefusalCode::Record(code) => code.text(),
            RefusalCode::Execution(code) => code.text(),
        }
    }
}
