//! Books in a lent memory of bytes, a row to a slot.
#![tactic(auto)]

mod image;
mod memory;

pub use image::Image;
pub use memory::{MAX_SLOTS, scan};
