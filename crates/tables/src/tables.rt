//! Books in three lent tables.
use crate::table::Table;
use books::{Mark, Outgoing, Record};

pub mod methods;

/// Books whose records, marks and outgoing rows each lie in a table of their own.
#[derive(Drop)]
pub struct Tables<'a> {
    records: Table<'a, Record>,
    marks: Table<'a, Mark>,
    outgoing: Table<'a, Outgoing>,
}
