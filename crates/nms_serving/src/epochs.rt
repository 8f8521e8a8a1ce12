//! The epochs of a run: when the tape of one epoch is full, the next epoch goes on with a new tape.
ghost use Rattle.std.specs.Prelude.{◌≡◌, ℕ, ◌*◌, ◌<◌, ◌≤◌, length, slice_index_or};
ghost use Rattle.nms_quote.specs.Roster.{sizes_of};
ghost use Rattle.nms_quote.specs.declared.TheConstants.{MOST_CHANGES};
ghost use Rattle.nms_serving.specs.declared.TheConstants.{MOST_EPOCHS};
ghost use Rattle.nms_versions.specs.Taped.{Knowing, tape_of};

use crate::MOST_EPOCHS;
use crate::handover::{House, Slot};
use crate::keeper::Keeper;
use crate::serve_fault::ServeFault;
use crate::serving::Means;
use nms_answers::EpochDesk;
use nms_quote::Change;
use nms_versions::{Desk, open_tape};
use std::io::Write;
use std::marker::PhantomData;
use std::mem::replace;
use std::sync::Wait;

/// The opener of an epoch's two files: its tape, and the list of the tape's published lengths.
pub trait EpochFiles<X, Y> {
    /// Opens the two files of an epoch. Epochs are counted from 0. Each file has to be empty.
    fn open(&self, epoch: u64) -> Result<(X, Y), ServeFault>;
}

/// The means to begin the next epoch.
#[derive(Drop)]
pub(crate) struct NextEpoch<'a, F, H: House> {
    /// The opener of the epoch's files.
    pub(crate) files: &'a F,
    /// The slots in which the clients find their desks of the epoch.
    pub(crate) slots: &'a [Slot<H>],
}

/// The present epoch of a run, and the sums of the earlier ones. It is not `Drop`, so end it by `end`.
pub(crate) struct Epochs<'a, H: House, X: Write, Y: Write> {
    keeper: Keeper<'a, X, Y>,
    /// The number of the epoch.
    epoch: u64,
    /// How many opening changes the epoch's tape begins with.
    opening: u64,
    /// How many changes of feeds the earlier epochs took.
    changes: u64,
    /// How often the earlier epochs published.
    publishings: u64,
    of: PhantomData<H>,
    ghost sizes: { keeper.publisher.sizes ≡ H.sizes },
    ghost opened: { opening ≤ length (tape_of keeper.publisher) },
    ghost within: { epoch ≤ MOST_EPOCHS },
    ghost few: { changes ≤ epoch * MOST_CHANGES },
    ghost often: { publishings ≤ epoch * MOST_CHANGES },
}

impl<'a, H: House, X: Write, Y: Write> Epochs<'a, H, X, Y> {
    /// The epoch with which a run begins. So far its tape has only its opening changes.
    pub(crate) fn new(keeper: Keeper<'a, X, Y>, epoch: u64) -> Self
        requires sizes { keeper.publisher.sizes ≡ H.sizes }
        requires within { epoch ≤ MOST_EPOCHS }
    {
        let opening = keeper.changes();
        Epochs {
            keeper,
            epoch,
            opening,
            changes: 0,
            publishings: 0,
            of: PhantomData,
        }
    }

    /// How many changes of feeds were taken.
    pub(crate) fn changes(&self) -> u64 {
        self.changes + (self.keeper.changes() - self.opening)
    }

    /// How often changes were published.
    pub(crate) fn publishings(&self) -> u64 {
        let _within = self.keeper.changes();
        self.publishings + self.keeper.publishings()
    }

    /// The number of the epoch.
    pub(crate) fn number(&self) -> u64 {
        self.epoch
    }

    /// How many changes the epoch's tape has, if all of them are published.
    pub(crate) fn version(&self) -> Option<u64> {
        if self.keeper.waiting() == 0 {
            Some(self.keeper.changes())
        } else {
            None
        }
    }

    /// Publishes the waiting changes.
    pub(crate) fn publish<R: Wait>(&mut self, rt: &R) -> Result<(), ServeFault> {
        if self.keeper.waiting() == 0 {
            return Ok(());
        }
        self.keeper.publish(rt)
    }

    /// Takes a change in. If the tape is full, the next epoch begins first.
    pub(crate) fn take_in<R: Wait, F: EpochFiles<X, Y>>(
        &mut self,
        means: &Means<'_, R>,
        next: &NextEpoch<'_, F, H>,
        change: &Change,
    ) -> Result<(), ServeFault>
    where
        X: Drop,
        Y: Drop,
        requires house { H.sizes ≡ sizes_of means.now.run.now.setup.now.roster }
    {
        if self.keeper.changes() >= means.run.setup.tape_limit() {
            match self.begin_next(means, next) {
                Ok(()) => {}
                Err(fault) => return Err(fault),
            }
        }
        self.keeper.take_in(means.rt, change)
    }

    /// Publishes the waiting changes, and begins the next epoch. The epoch's opening changes are published and each client's
    /// desk of it is put into its slot. Then the publishing of the old epoch ends.
    fn begin_next<R: Wait, F: EpochFiles<X, Y>>(
        &mut self,
        means: &Means<'_, R>,
        next: &NextEpoch<'_, F, H>,
    ) -> Result<(), ServeFault>
    where
        X: Drop,
        Y: Drop,
        requires house { H.sizes ≡ sizes_of means.now.run.now.setup.now.roster }
    {
        match self.publish(means.rt) {
            Ok(()) => {}
            Err(fault) => return Err(fault),
        }
        if self.epoch == MOST_EPOCHS {
            return Err(ServeFault::TooManyEpochs);
        }
        let (tape, lengths) = match next.files.open(self.epoch + 1) {
            Ok(files) => files,
            Err(fault) => return Err(fault),
        };
        let setup = means.run.setup;
        let _limit = setup.tape_limit();
        let Ok((publisher, desks)) = open_tape(means.alloc, means.rt, setup) else {
            return Err(ServeFault::NoMemory);
        };
        match self
            .keeper
            .next(means.alloc, means.rt, publisher, tape, lengths)
        {
            Ok(mut keeper) => {
                hand_over(means.rt, next.slots, self.epoch + 1, &mut keeper, desks);
                self.go_on(means.rt, keeper);
                Ok(())
            }
            Err(fault) => Err(fault),
        }
    }

    /// Goes on with the tape and the board of the next epoch, and ends the publishing of the present one.
    fn go_on<R: Wait>(&mut self, rt: &R, keeper: Keeper<'a, X, Y>)
    where
        X: Drop,
        Y: Drop,
        requires within { self.old.epoch < MOST_EPOCHS }
        requires sizes { keeper.publisher.sizes ≡ H.sizes }
    {
        self.changes += self.keeper.changes() - self.opening;
        self.publishings += self.keeper.publishings();
        self.epoch += 1;
        self.opening = keeper.changes();
        let old = replace(&mut self.keeper, keeper);
        old.end(rt);
    }

    /// Ends the publishing. Desks show nothing from then on.
    pub(crate) fn end<R: Wait>(self, rt: &R)
    where
        X: Drop,
        Y: Drop,
    {
        let Epochs {
            keeper,
            epoch: _,
            opening: _,
            changes: _,
            publishings: _,
            of: _,
        } = self;
        keeper.end(rt);
    }
}

/// Puts each client's desk of an epoch into its slot. The desk knows what is published, so it shows nothing older.
pub(crate) fn hand_over<R: Wait, H: House, X: Write, Y: Write>(
    rt: &R,
    slots: &[Slot<H>],
    epoch: u64,
    keeper: &mut Keeper<'_, X, Y>,
    desks: Vec<Desk>,
)
    requires opening { (k : ℕ) (d : Knowing) → k < length desks.items → (slice_index_or desks.items k d).opening ≡ keeper.old.publisher.opening }
    requires sizes { (k : ℕ) (d : Knowing) → k < length desks.items → (slice_index_or desks.items k d).sizes ≡ H.sizes }
    ensures same { keeper.new.publisher ≡ keeper.old.publisher }
{
    let mut slots = slots.iter();
    for desk in desks {
        let Some(slot) = slots.next() else {
            return;
        };
        let mut desk = desk;
        desk.learn(keeper.receipt());
        slot.lay(rt, EpochDesk { epoch, desk });
    }
}
