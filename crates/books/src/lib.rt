//! Books: the store of records, marks and outgoing rows that a validator works on, by its meaning.
#![tactic(auto)]

mod blanks;
mod books;
mod keyed;
mod keys;
mod marks;
mod order;
mod rows;
mod side;
mod text;

pub use books::Books;
pub use keyed::{Keyed, any_on_side, locate};
pub use marks::any_minus;
pub use order::{earlier_of, is_before, least};
pub use rows::{Load, Mark, NewRows, Outgoing, Record, Sign};
pub use side::Side;
