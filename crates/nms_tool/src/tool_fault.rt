//! Why the program ends with a status other than 0: the code that it reports, and the status.
ghost use Rattle.std.specs.Prelude.{◌≡◌};
ghost use Rattle.nms_tool.specs.Statuses.{code_of, status_of};

use nms_command::CommandFault;
use nms_live::LiveFault;
use nms_text::TextFault;

/// Why the program ends with a status other than 0.
#[derive(Drop)]
pub enum ToolFault {
    /// The arguments, the setup, a file of a live run, or a subcommand other than `live` failed.
    Command(CommandFault),
    /// A live run gave no result.
    Live(LiveFault),
    /// The result of a live run was not written.
    LiveText(TextFault),
}

impl From<CommandFault> for ToolFault {
    ghost use Rattle.std.specs.Prelude.{◌≡◌};
    ghost use Rattle.nms_tool.specs.declared.tool_fault.ToolFault.TheVariants.{Command};

    ghost from_gives = { λ fault made. made ≡ Command fault };

    fn from(fault: CommandFault) -> ToolFault {
        ToolFault::Command(fault)
    }
}

impl ToolFault {
    /// The exit status: 1 for streams and files, 2 for arguments, 3 for the setup, 5 for memory, 6 for lines, plans and
    /// lengths, 7 for a live run.
    pub fn status(&self) -> u8
        ensures { result ≡ status_of self.now }
    {
        match self {
            ToolFault::Command(fault) => fault.status(),
            ToolFault::Live(fault) => fault.status(),
            ToolFault::LiveText(fault) => fault.status(),
        }
    }

    /// The code of the fault, as the line on standard error shows it.
    pub fn code(&self) -> &'static str
        ensures { result.now ≡ code_of self.now }
    {
        match self {
            ToolFault::Command(fault) => fault.code(),
            ToolFault::Live(fault) => fault.code(),
            ToolFault::LiveText(fault) => fault.code(),
        }
    }
}
