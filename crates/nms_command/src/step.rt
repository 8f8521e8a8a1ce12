//! What the arguments of the command line asked for, before a live run.
use crate::ending::Ending;
use crate::live_input::LiveInput;
use nms_fees::Setup;

/// What the arguments of the command line asked for, before a live run.
#[derive(Drop)]
pub enum Step {
    /// Everything that the arguments ask for was done, and this is how it ended.
    Ended(Ending),
    /// The arguments ask for a live run, which is still to be made.
    Live {
        /// The setup under which the live run has to be made.
        setup: Setup,
        /// The texts of the feeds, and the orders.
        input: LiveInput,
    },
}
