//! When a feed is reported as silent, and when it is reported as sending again (specs/Silences).
ghost use Rattle.std.specs.Prelude.{◌≡◌, ◌+◌, false, nat_le};
ghost use Rattle.nms_serving.specs.Silences.{after_look, notice_of};

/// What is reported about a feed.
#[derive(Clone, Copy, Debug, PartialEq, Eq)]
pub enum Notice {
    /// No record came during the time of the limit.
    Silent,
    /// A record came after a silence that was reported.
    SpeaksAgain,
}

/// How long a feed has been silent, in milliseconds of the clock.
#[derive(Clone, Copy)]
pub(crate) struct Silence {
    /// When a record was last noticed. At first it is when the run began.
    pub(crate) since: u64,
    /// Whether the silence was reported.
    pub(crate) is_reported: bool,
}

impl Silence {
    /// A silence that begins at the given time, in milliseconds of the clock.
    pub(crate) fn new(since: u64) -> Self
        ensures { result ≡ record { since = since; is_reported = false } }
    {
        Silence {
            since,
            is_reported: false,
        }
    }

    /// Looks at the feed, and returns the report, if any. A silence is reported once, when it has lasted `most` milliseconds,
    /// and so is its end.
    pub(crate) fn look(&mut self, now: u64, has_spoken: bool, most: u64) -> Option<Notice>
        ensures notice { result ≡ notice_of self.old now has_spoken most }
        ensures after { self.new ≡ after_look self.old now has_spoken most }
    {
        let was_reported = self.is_reported;
        if has_spoken {
            self.since = now;
            self.is_reported = false;
            return if was_reported {
                Some(Notice::SpeaksAgain)
            } else {
                None
            };
        }
        if was_reported || !has_passed(self.since, now, most) {
            return None;
        }
        self.is_reported = true;
        Some(Notice::Silent)
    }
}

/// Whether at least the given number of milliseconds passed between two times.
fn has_passed(since: u64, now: u64, most: u64) -> bool
    ensures { result ≡ nat_le (since + most) now }
{
    match now.checked_sub(since) {
        Some(passed) => passed >= most,
        None => false,
    }
}
