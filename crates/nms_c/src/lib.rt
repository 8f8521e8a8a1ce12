//! The static library that C, C++, Rust and Python link: `include/nms.h` declares its functions. Each takes a handle's board
//! out, makes one call of `nms_calls`, and puts the board back.
#![tactic(auto)]

mod batching;
mod changing;
mod handle;
mod lease;
mod leasing;
mod look;
mod looking;
mod loose;
mod naming;
mod opening;
mod planning;
mod taking;
mod terms;
mod terms_leasing;
mod terms_look;
mod terms_naming;
mod texting;
mod viewing;
