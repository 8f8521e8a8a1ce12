//! The thread that watches a run: it reports silent feeds, and writes the files of its state.
use crate::handover::{House, Slot};
use crate::report::Heard;
use crate::serving::Means;
use crate::signs::Signs;
use crate::silence::{Notice, Silence};
use crate::status::{RunState, Status};
use crate::tape_disk::TapeDisk;
use crate::text::Text;
use nms_quote::{Feed, MOST_FEEDS};
use std::io::Write;
use std::sync::Wait;
use std::time::{Clock, Duration};

/// How many milliseconds the thread rests between two looks at the feeds. This product's own rule.
const REST: u64 = 100;
/// Milliseconds in a second.
const SECOND: u64 = 1_000;

/// Watches a run until all feeds and clients have ended. A feed is reported as silent if no record came from it for a number of
/// seconds, once for each silence. It is reported again when it sends again. A feed that has ended is not silent. The files of
/// the run's state are written meanwhile.
pub(crate) fn watch<H: House, R: Wait>(
    means: &Means<'_, R>,
    signs: Signs<'_>,
    disk: Option<TapeDisk<'_>>,
    slots: &[Slot<H>],
) {
    let run = means.run;
    let begun = now_of(means.host);
    let mut silences = [Silence::new(begun); MOST_FEEDS as usize];
    let mut status = Status::new(means, begun);
    let mut is_ready = false;
    let mut synced = Synced::new(means, begun);
    for _ in means.rt.forever() {
        let is_done = run.is_done();
        if is_ready && (is_done || run.is_stopped()) {
            set_ready(means, signs, false);
            is_ready = false;
        } else if !is_ready && !is_done && !run.is_stopped() {
            set_ready(means, signs, true);
            is_ready = true;
        }
        if let Some(sign) = signs.status {
            status.look(means, sign, slots, now_of(means.host), is_done);
        }
        if let Some(disk) = disk {
            synced.look(means, disk, now_of(means.host), is_done);
        }
        if is_done {
            return;
        }
        if let Some(seconds) = run.ways.stale {
            look_at_all(means, seconds, &mut silences);
        }
        run.rest(means.rt, Duration::from_millis(REST));
    }
    unreachable!()
}

/// What the disk has of the tape, if the run waits for the disk once a second.
#[derive(Clone, Copy)]
struct Synced {
    /// The epoch at the last wait for the disk, and the time of that wait, in milliseconds of the clock.
    epoch: u64,
    at: u64,
}

impl Synced {
    /// The state of a run that begins in its present epoch, before its first wait for the disk.
    fn new<R>(means: &Means<'_, R>, now: u64) -> Self {
        Synced {
            epoch: means.run.progress.at().0,
            at: now,
        }
    }

    /// Waits for the disk if a second has passed, or at the end of the run. It waits for the files of each epoch since the last
    /// wait.
    fn look<R>(&mut self, means: &Means<'_, R>, disk: TapeDisk<'_>, now: u64, is_last: bool) {
        if !is_last && now.wrapping_sub(self.at) < SECOND {
            return;
        }
        let (epoch, _) = means.run.progress.at();
        for each in self.epoch..epoch {
            disk.sync(means, each);
        }
        disk.sync(means, epoch);
        self.epoch = epoch;
        self.at = now;
    }
}

/// Makes or removes the file that is there while the run serves.
fn set_ready<R: Wait>(means: &Means<'_, R>, signs: Signs<'_>, is_ready: bool) {
    let Some(sign) = signs.ready else {
        return;
    };
    if !is_ready {
        sign.remove(means.host);
        return;
    }
    let mut text = Vec::new(means.alloc);
    let state = RunState {
        is_over: false,
        since: 0,
    };
    let written = match text.write_fmt(state) {
        Ok(()) => sign.write(means.host, &text),
        Err(error) => Err(error),
    };
    if let Err(error) = written {
        sign.report(means, &error);
    }
}

/// Looks at each feed once.
fn look_at_all<R: Wait>(means: &Means<'_, R>, seconds: u32, silences: &mut [Silence]) {
    let now = now_of(means.host);
    for place in 0..means.run.setup.feeds() {
        if let (Some(feed), Some(silence)) = (
            Feed::at(place),
            silences.get_mut(usize::from(place)),
        ) {
            look_at(means, feed, seconds, now, silence);
        }
    }
}

/// Looks at a feed, and writes the report, if any.
fn look_at<R: Wait>(
    means: &Means<'_, R>,
    feed: Feed,
    seconds: u32,
    now: u64,
    silence: &mut Silence,
) {
    let voice = means.run.voices.of(feed);
    // The end is checked first, so that a record that came before it is still noticed.
    let has_ended = voice.has_ended();
    let has_spoken = voice.listen();
    if has_ended && !has_spoken {
        return;
    }
    if let Some(notice) = silence.look(now, has_spoken, u64::from(seconds) * SECOND) {
        report(means, feed, seconds, notice);
    }
}

/// Reports that a feed is silent, or that it sends again.
fn report<R: Wait>(means: &Means<'_, R>, feed: Feed, seconds: u32, notice: Notice) {
    let heard = Heard {
        feed,
        seconds,
        notice,
    };
    means.run.teller.tell(means.rt, Text::of(heard));
}

/// The time of the clock, in milliseconds; 0 if it can't be read.
fn now_of(host: &HostRuntime) -> u64 {
    match host.monotonic() {
        Ok(time) => u64::try_from(time.as_millis()).unwrap_or(u64::MAX),
        Err(_) => 0,
    }
}
