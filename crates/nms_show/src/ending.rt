//! The end of a served request: `specs/Endings`.
ghost use Rattle.std.specs.Prelude.{◌≡◌};
ghost use Rattle.nms_show.specs.Endings.{status_of};

/// The end of a served request. All that was asked for was printed.
#[derive(Clone, Copy)]
pub enum Ending {
    /// Nothing was refused or doubted.
    Done,
    /// A plan was judged and is not confirmed.
    Doubted,
    /// An input record or a plan's text was refused.
    Refused,
    /// A setup was refused.
    SetupRefused,
}

impl Ending {
    /// The exit status of the program: 0 if done, 3 for a refused setup, 4 for a doubt, 6 for a refused record or plan.
    pub fn status(self) -> u8
        ensures { result ≡ status_of self }
    {
        match self {
            Ending::Done => 0,
            Ending::Doubted => 4,
            Ending::Refused => 6,
            Ending::SetupRefused => 3,
        }
    }
}
