//! Why an audit does not confirm a plan.
ghost use Rattle.std.specs.Prelude.{◌≡◌};
ghost use Rattle.nms_file_answers.specs.Faults.{code_of_audit};

use nms_cert::Doubt;
use std::fmt;
use thiserror::Error;

/// Why an audit does not confirm a plan, least number first.
#[derive(Clone, Copy, Debug, PartialEq, Eq, Error)]
pub enum AuditFault {
    /// A1: the plan's version has more changes than there are.
    VersionBeyondTape,
    /// A2: the plan, or its certificate, is doubtful on its version.
    Doubt(Doubt),
    /// A3: out of memory.
    NoMemory,
}

impl AuditFault {
    /// The code of the fault, `A1` to `A3`. A doubt also has its own code.
    pub fn code(self) -> &'static str
        ensures { result.now ≡ code_of_audit self }
    {
        match self {
            AuditFault::VersionBeyondTape => "A1",
            AuditFault::Doubt(_) => "A2",
            AuditFault::NoMemory => "A3",
        }
    }
}

impl fmt::Display for AuditFault {
    fn fmt<W: fmt::Write>(&self, f: &mut fmt::Formatter<W>) -> fmt::Result {
        match self {
            AuditFault::VersionBeyondTape => f.write_str(
                "A1: the plan's version is beyond the changes",
            ),
            AuditFault::Doubt(_) => f.write_str("A2: the plan is not confirmed"),
            AuditFault::NoMemory => f.write_str("A3: out of memory"),
        }
    }
}
