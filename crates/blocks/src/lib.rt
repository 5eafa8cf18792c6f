//! Running the blocks of requests and certificates.
#![tactic(auto)]

mod draft;
mod opening;
mod proposing;
mod running;

pub use proposing::propose;
