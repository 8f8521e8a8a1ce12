//! How clients get their desks of later epochs: the taker puts each into its client's slot.
ghost use Rattle.std.specs.Prelude.{◌≡◌, ◌<◌, IfSome};
ghost use Rattle.nms_quote.specs.Roster.{sizes_of};

use crate::recording::{Answered, Record};
use crate::serving::Means;
use crate::tally::Tally;
use nms_answers::{EpochDesk, LaterDesks};
use nms_lines::ByteRecord;
use std::marker::{Brand, PhantomData};
use std::sync::atomic::{AtomicU64, Ordering};
use std::sync::{Mutex, Wait};

/// A type that marks the sizes of a run's roster, which all its epochs share. Each run has its own such type, and makes no
/// value of it.
pub(crate) trait Sizing {
    ghost use Rattle.nms_quote.specs.Roster.{Sizes};

    // The sizes of the roster.
    ghost sizes: { Sizes };
}

impl Sizing for Brand {
    ghost use Rattle.std.specs.Prelude.{[]};

    ghost sizes = { record { parts = 0; lots = [] } };
}

/// A desk of the run's roster, as it is kept for a client.
pub(crate) trait House: Drop {
    ghost use Rattle.nms_quote.specs.Roster.{Sizes};

    // The sizes of the roster.
    ghost sizes: { Sizes };

    /// Wraps a desk, so that its type says which roster it has.
    fn keep(desk: EpochDesk) -> Self
        requires sizes { desk.desk.sizes ≡ sizes };

    /// Returns the desk that was wrapped.
    fn give(self) -> EpochDesk
        ensures sizes { result.desk.sizes ≡ sizes };
}

/// A desk of the run's roster.
#[derive(Drop)]
pub(crate) struct HouseDesk<B: Sizing> {
    desk: EpochDesk,
    of: PhantomData<B>,
    ghost sizes: { desk.desk.sizes ≡ B.sizes },
}

impl<B: Sizing> House for HouseDesk<B> {
    ghost sizes = { B.sizes };

    fn keep(desk: EpochDesk) -> Self {
        HouseDesk {
            desk,
            of: PhantomData,
        }
    }

    fn give(self) -> EpochDesk {
        let HouseDesk { desk, of: _ } = self;
        desk
    }
}

/// The place in which a client finds its desk of the latest epoch, until the client goes over to that epoch.
#[derive(Drop)]
pub(crate) struct Slot<H: House> {
    /// The latest epoch whose desk was put into this slot; 0 if none was.
    epoch: AtomicU64,
    desk: Mutex<Option<H>>,
    /// How many requests of the client were answered.
    pub(crate) tally: Tally,
}

impl<H: House> Slot<H> {
    /// A slot with no desk.
    pub(crate) fn new() -> Self {
        Slot {
            epoch: AtomicU64::new(0),
            desk: Mutex::new(None),
            tally: Tally::new(),
        }
    }

    /// Puts a desk into the slot, in place of the desk of an earlier epoch to which the client never went over.
    pub(crate) fn lay<R: Wait>(&self, rt: &R, desk: EpochDesk)
        requires sizes { desk.desk.sizes ≡ H.sizes }
    {
        let epoch = desk.epoch;
        *self.desk.lock(rt) = Some(H::keep(desk));
        self.epoch.store(epoch, Ordering::SeqCst);
    }

    /// Takes the desk out of the slot, if its epoch is later than the given one.
    fn take<R: Wait>(&self, rt: &R, epoch: u64) -> Option<EpochDesk>
        ensures later { IfSome result (λ next. epoch < next.epoch) }
        ensures sizes { IfSome result (λ next. next.desk.sizes ≡ H.sizes) }
    {
        if self.epoch.load(Ordering::SeqCst) <= epoch {
            return None;
        }
        let laid = self.desk.lock(rt).take();
        let Some(kept) = laid else {
            return None;
        };
        let desk = kept.give();
        if epoch < desk.epoch { Some(desk) } else { None }
    }
}

/// A client's slot, with the means to wait for its lock and to record its answers.
#[derive(Drop)]
pub(crate) struct SlotOf<'a, R, H: House> {
    pub(crate) means: &'a Means<'a, R>,
    pub(crate) slot: &'a Slot<H>,
    /// The client's number, from 1.
    pub(crate) number: u8,
    /// The file to which the client's requests and answers are recorded, if the run records them.
    pub(crate) recording: Option<Record<'a>>,
}

impl<R: Wait, H: House> LaterDesks for SlotOf<'_, R, H> {
    ghost sizes = { H.sizes };

    fn later(&self, epoch: u64) -> Option<EpochDesk> {
        self.slot.take(self.means.rt, epoch)
    }

    fn take_down(&self, epoch: u64, request: &ByteRecord, answer: &[u8]) {
        if let Some(record) = &self.recording {
            let answered = Answered {
                client: self.number,
                epoch,
                request,
                answer,
            };
            let means = self.means;
            record.write(means.host, means.alloc, means.run, answered);
        }
    }

    fn note_answer(&self, refused: bool) {
        self.slot.tally.add(refused);
    }
}
