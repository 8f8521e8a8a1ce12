//! How a served request ends.
ghost use Rattle.std.specs.Prelude.{◌≡◌};
ghost use Rattle.nms_command.specs.Statuses.{status_of_ending};

/// How a served request ends.
#[derive(Clone, Copy, PartialEq, Eq)]
pub enum Ending {
    /// Everything that was asked for was done. If a plan was to be checked, it is confirmed.
    Done,
    /// A plan was judged and is not confirmed.
    NotConfirmed,
}

impl Ending {
    /// The exit status of the program for this ending.
    pub fn status(self) -> u8
        ensures { result ≡ status_of_ending self }
    {
        match self {
            Ending::Done => 0,
            Ending::NotConfirmed => 4,
        }
    }
}
