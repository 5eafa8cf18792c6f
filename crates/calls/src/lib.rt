//! The calls on books of any make: starting them, delivering outgoing rows, and which row waits.
#![tactic(auto)]

mod delivering;
mod next_row;
mod records;
mod starting;

pub use delivering::deliver;
pub use next_row::waiting;
pub use starting::{MAX_ROOTS, start};
