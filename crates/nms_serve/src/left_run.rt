//! The tape that an earlier run has left, and the epoch in which this run goes on.
ghost use Rattle.std.specs.Prelude.{IfOk, Some};
ghost use Rattle.nms_quote.specs.Roster.{sizes_of};
ghost use Rattle.nms_serve.specs.LeftRuns.{HasNext, IsOfRoster};

use crate::left_epoch::{LeftEpoch, LeftTape, refused};
use crate::program_fault::ProgramFault;
use crate::refusal::Refusal;
use crate::tape_fault::TapeFault;
use crate::tape_folder::{Part, TapeFile};
use nms_serving::{MOST_EPOCHS, ServeFault, Text};

/// What an earlier run has left.
#[derive(Drop)]
pub(crate) struct LeftRun {
    /// The last epoch of which something was published, if there is one.
    pub(crate) from: Option<LeftEpoch>,
    /// The last epoch, if its files were made and nothing of it was published.
    pub(crate) begun: Option<LeftEpoch>,
    /// The epoch in which this run goes on.
    pub(crate) epoch: u64,
}

impl LeftTape<'_> {
    /// What the files of a tape have left; `None` if there is no file of an epoch. Nothing is altered.
    pub(crate) fn left_run(&self, files: &[TapeFile]) -> Result<Option<LeftRun>, Refusal>
        ensures sizes { IfOk result (IsOfRoster (sizes_of self.now.setup.now.roster)) }
        ensures next { IfOk result HasNext }
    {
        let Some(last) = last_epoch(files)? else {
            return Ok(None);
        };
        for epoch in 0..last {
            self.check_files(epoch)?;
        }
        Ok(Some(self.left_of(last)?))
    }

    /// What a run has left, given the number of its last epoch.
    fn left_of(&self, last: u64) -> Result<LeftRun, Refusal>
        ensures sizes { IfOk result (λ left. IsOfRoster (sizes_of self.now.setup.now.roster) (Some left)) }
        ensures next { IfOk result (λ left. HasNext (Some left)) }
    {
        let found = self.read_epoch(last, true)?;
        if last >= MOST_EPOCHS {
            return Err(Refusal::of(ProgramFault::Serving(ServeFault::TooManyEpochs)));
        }
        if found.left.published > 0 {
            return Ok(LeftRun {
                from: Some(found),
                begun: None,
                epoch: last + 1,
            });
        }
        if last == 0 {
            return Ok(LeftRun {
                from: None,
                begun: Some(found),
                epoch: 0,
            });
        }
        let before = self.read_epoch(last - 1, false)?;
        if before.left.published == 0 {
            return Err(refused(TapeFault::Unpublished, before.lengths.as_str()));
        }
        Ok(LeftRun {
            from: Some(before),
            begun: Some(found),
            epoch: last,
        })
    }
}

impl LeftRun {
    /// Cuts the files after what was published, and removes those of an epoch that published nothing.
    pub(crate) fn clear(&self, host: &HostRuntime) -> Result<(), Refusal> {
        if let Some(begun) = &self.begun {
            begun.remove(host)?;
        }
        match &self.from {
            Some(from) => from.cut(host),
            None => Ok(()),
        }
    }

    /// The beginning of the report of what was left. The number of opening changes is added to it later.
    pub(crate) fn report(&self) -> Text {
        let epoch = self.epoch;
        match (&self.from, &self.begun) {
            (Some(from), None) => resumed(from)
                .with(" changes were cut, epoch ")
                .with(epoch)
                .with(" begins with "),
            (Some(from), Some(begun)) => resumed(from)
                .with(" changes were cut, and ")
                .with(begun.left.cut)
                .with(" of epoch ")
                .with(epoch)
                .with(", which begins again with "),
            (None, Some(begun)) => resumed(begun).with(" changes were cut, epoch 0 begins again"),
            (None, None) => Text::of("resumed"),
        }
    }

    /// The text in which `--check` reports what was left.
    pub(crate) fn finding(&self) -> Text {
        match (&self.from, &self.begun) {
            (Some(from), _) => found_in(from)
                .with(", epoch ")
                .with(self.epoch)
                .with(" begins"),
            (None, Some(begun)) => found_in(begun).with(", epoch 0 begins again"),
            (None, None) => Text::of("tape"),
        }
    }
}

/// The beginning of a finding: the epoch's tape, and how many of its changes would be cut.
fn found_in(epoch: &LeftEpoch) -> Text {
    Text::of("tape")
        .and_shown(epoch.tape.as_bytes())
        .and(epoch.left.cut)
        .with(" changes to cut")
}

/// The beginning of a report: the epoch's tape, and how many of its changes are cut.
fn resumed(epoch: &LeftEpoch) -> Text {
    Text::of("resumed ")
        .with_shown(epoch.tape.as_bytes())
        .and(epoch.left.cut)
}

/// The last epoch of which there is a file.
fn last_epoch(files: &[TapeFile]) -> Result<Option<u64>, Refusal> {
    let mut last = None;
    for file in files {
        match file.part {
            Part::Setup => {}
            Part::Epoch(epoch) => last = Some(later(last, epoch)),
            Part::NoEpoch => return Err(refused(TapeFault::NoEpoch, file.path.as_str())),
        }
    }
    Ok(last)
}

/// The later of two epochs, or the only one.
fn later(last: Option<u64>, epoch: u64) -> u64 {
    match last {
        Some(last) if last > epoch => last,
        Some(_) | None => epoch,
    }
}
