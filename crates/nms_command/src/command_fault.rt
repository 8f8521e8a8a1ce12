//! Why a request was not served: the code that is reported, and the exit status.
ghost use Rattle.std.specs.Prelude.{◌≡◌};
ghost use Rattle.nms_command.specs.Statuses.{code_of, status_of};

use nms_fees::SetupFault;
use nms_file_answers::{AuditFault, PlanFault, ReportFault};
use nms_files::{ChangesFault, FeedFault, OrdersFault};
use nms_lines::PlanTextFault;
use nms_text::ScriptFault;
use nms_words::WordsFault;

/// Why a request was not served. Only its code is printed, so it has no `Debug`, which would cost seconds of each build.
#[derive(Drop)]
pub enum CommandFault {
    /// The parser refused the arguments.
    Words(WordsFault),
    /// An argument is not UTF-8, names nothing that exists, or is no field of an order.
    Usage,
    /// A file could not be read.
    Unreadable,
    /// A setup is not UTF-8, or was refused.
    Setup(SetupFault),
    /// A script ended early.
    Script(ScriptFault),
    /// A report was not written.
    Report(ReportFault),
    /// A file of changes is no tape.
    Changes(ChangesFault),
    /// An order's plan was not written.
    Plan(PlanFault),
    /// A file that should have a plan could not be read as a plan.
    PlanText(PlanTextFault),
    /// There was no memory for an audit.
    NoAudit,
    /// A file of a feed was not read: it may have more than 1,000,000,000 bytes.
    Feed(FeedFault),
    /// A file of orders was refused.
    Orders(OrdersFault),
}

impl CommandFault {
    /// The exit status: 1 for streams and files, 2 for arguments, 3 for the setup, 5 for memory, 6 for lines, plans and lengths.
    pub fn status(&self) -> u8
        ensures { result ≡ status_of self.now }
    {
        match self {
            CommandFault::Words(fault) => fault.status(),
            CommandFault::Usage => 2,
            CommandFault::Unreadable => 1,
            CommandFault::Setup(fault) => fault.status(),
            CommandFault::Script(fault) => fault.status(),
            CommandFault::Report(fault) => fault.status(),
            CommandFault::Changes(fault) => fault.status(),
            CommandFault::Plan(fault) => fault.status(),
            CommandFault::PlanText(fault) => fault.status(),
            CommandFault::NoAudit => 5,
            CommandFault::Feed(fault) => fault.status(),
            CommandFault::Orders(fault) => fault.status(),
        }
    }

    /// The code of the fault, as the line on standard error shows it.
    pub fn code(&self) -> &'static str
        ensures { result.now ≡ code_of self.now }
    {
        match self {
            CommandFault::Words(_) => "G2",
            CommandFault::Usage => "usage",
            CommandFault::Unreadable => "E1",
            CommandFault::Setup(fault) => fault.code(),
            CommandFault::Script(fault) => fault.code(),
            CommandFault::Report(fault) => fault.code(),
            CommandFault::Changes(fault) => fault.code(),
            CommandFault::Plan(fault) => fault.code(),
            CommandFault::PlanText(fault) => fault.code(),
            CommandFault::NoAudit => AuditFault::NoMemory.code(),
            CommandFault::Feed(fault) => fault.code(),
            CommandFault::Orders(fault) => fault.code(),
        }
    }
}
