//! The board that runs. Feeds and requests are read as they come, each in its own thread. Every batch of changes is on the
//! tape's file before it is published.
#![tactic(auto)]

mod beside;
mod client;
mod door;
mod ending;
mod epochs;
mod feeding;
mod guarded;
mod handover;
mod keeper;
mod moment;
mod named;
mod on_disk;
mod progress;
mod recording;
mod report;
mod resume_fault;
mod resuming;
mod room;
mod router;
mod routers;
mod run;
mod serve_fault;
mod serving;
mod signals;
mod signs;
mod silence;
mod status;
mod stream;
mod taking;
mod tally;
mod tape_disk;
mod teller;
mod text;
mod timed;
mod voice;
mod watcher;
mod watching;

/// The most changes of a batch: the taker publishes after this number of changes, or when none is waiting. This product's own rule.
pub const MOST_BATCH: u64 = 64;

/// The exit status of a run that ended without a fault, and refused a record of a feed. This product's own rule.
pub const REFUSED_STATUS: u8 = 6;

/// The most epochs after the first: 2^32. This product's own rule.
pub const MOST_EPOCHS: u64 = 1 << 32;

pub use beside::Beside;
pub use client::{ClientEnd, ClientStreams};
pub use door::Door;
pub use epochs::EpochFiles;
pub use feeding::FeedEnd;
pub use guarded::Guarded;
pub use keeper::Keeper;
pub use named::Named;
pub use on_disk::OnDisk;
pub use recording::Record;
pub use resume_fault::ResumeFault;
pub use resuming::{LeftBoard, left_board};
pub use room::{has_room_for_epochs, least_tape_limit};
pub use run::{Run, Ways};
pub use serve_fault::ServeFault;
pub use serving::{GoingOn, Means, Served, resume, serve};
pub use signs::{Sign, Signs};
pub use silence::Notice;
pub use stream::{Stream, letter_of};
pub use taking::Doors;
pub use tape_disk::{PUBLISHED, TapeDisk, epoch_paths};
pub use teller::Teller;
pub use text::Text;
pub use timed::{Timed, Times};
