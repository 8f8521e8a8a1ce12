//! Answers to a client's requests on what its desk sees. Each answer is the script's, on one published version.
#![tactic(auto)]

mod answer_fault;
mod answering;
mod epoch_desk;
mod epoch_request;
mod laws;
mod request;
mod request_counts;
mod request_stream;
mod served_laws;

/// The most requests of a client's stream: 2^40. This product's own rule.
pub const MOST_REQUESTS: u64 = 1 << 40;

pub use answer_fault::AnswerFault;
pub use answering::{answer_best, answer_order, answer_through};
pub use epoch_desk::{EpochDesk, LaterDesks};
pub use epoch_request::answer_latest;
pub use laws::{a_client_goes_from_epoch_to_epoch, a_client_is_answered_as_a_script};
pub use request::answer_request;
pub use request_counts::RequestCounts;
pub use request_stream::answer_stream;
pub use served_laws::{
    a_served_epoch_is_a_script, a_served_run_is_its_scripts, a_stream_is_cut_by_epochs,
    worked_examples,
};
