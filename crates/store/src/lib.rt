//! A store as lines of text, one for each row, and an example of each make of books.
#![tactic(auto)]

mod example;
mod show;

pub use example::show_examples;
pub use show::{show_free, show_mark, show_outgoing, show_record, show_waiting};
