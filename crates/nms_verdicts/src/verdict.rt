//! The result of judging a plan.
ghost use Rattle.std.specs.Prelude.{◌≡◌};
ghost use Rattle.nms_verdicts.specs.Explained.{ending_of};
ghost use Rattle.nms_verdicts.specs.Listed.{is_beyond};

use crate::plan_places::DoubtPlace;
use nms_cert::Doubt;
use nms_codes::Code;
use nms_show::Ending;

/// The result of judging a plan.
#[derive(Drop)]
pub(crate) enum Verdict {
    /// The plan is lawful, no lawful plan fills more shares, and none fills as many for less.
    Confirmed,
    /// A1: the plan names a version that is beyond the end of the changes.
    Beyond {
        /// The number of changes in the file.
        changes: u64,
    },
    /// K1 to K7: what is doubtful, and where.
    Doubted {
        /// The kind of the doubt.
        doubt: Doubt,
        /// The place of the doubt.
        place: DoubtPlace,
    },
}

impl Verdict {
    /// The code of the doubt (K1 to K7), or A1 for a version beyond the file. A confirmed plan has none.
    pub(crate) fn code(&self) -> Option<&'static str> {
        match self {
            Verdict::Confirmed => None,
            Verdict::Beyond { .. } => Some(Code::A1.text()),
            Verdict::Doubted { doubt, .. } => Some(doubt.code()),
        }
    }

    /// The code of the breach, if the doubt is a breach.
    pub(crate) fn breach(&self) -> Option<&'static str> {
        let Verdict::Doubted {
            doubt: Doubt::Breach(breach),
            ..
        } = self
        else {
            return None;
        };
        Some(breach.code())
    }

    /// Whether the plan is confirmed.
    pub(crate) fn is_confirmed(&self) -> bool {
        matches!(self, Verdict::Confirmed)
    }

    /// Whether the plan names a version that is beyond the end of the changes.
    pub(crate) fn is_beyond(&self) -> bool
        ensures { result ≡ is_beyond self.now }
    {
        matches!(self, Verdict::Beyond { .. })
    }

    /// How a request for the verdict ends: done if the plan is confirmed, else doubted.
    pub(crate) fn ending(&self) -> Ending
        ensures { result ≡ ending_of self.now }
    {
        match self {
            Verdict::Confirmed => Ending::Done,
            Verdict::Beyond { .. } | Verdict::Doubted { .. } => Ending::Doubted,
        }
    }
}
