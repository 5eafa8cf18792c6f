//! Books in three tables of rows, each in a lent slice.
#![tactic(auto)]

mod table;
mod tables;

pub use table::MAX_ROWS;
pub use tables::Tables;
pub use tables::methods::Slices;
