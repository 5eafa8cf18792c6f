//! Lookups in full books, for benchmarks from outside. Each function fills new books, looks rows up in them, and answers the
//! sum of the numbers found. Callers in C need a function with a name of its own for each kind of row.
#![tactic(auto)]

ghost use Rattle.tables.specs.Limits.{max_rows};
ghost use Rattle.exports_books.specs.Lookups.{LookedUp, new_tables};
ghost use Rattle.exports_books.specs.Rows.{opening_found, opening_put, record_found, record_put};

mod look_up;
mod rows;

use crate::look_up::{fill, sum_found};
use crate::rows::{Openings, Records};
use books::{Mark, Outgoing, Record};
use tables::{MAX_ROWS, Tables};

// How many rows the tables are filled with: no row is then free.
const TABLE_ROWS: u16 = MAX_ROWS as u16;

/// Records by their chains, in tables.
#[unsafe(no_mangle)]
pub extern "C" fn limedistaff_tables_records(lookups: u32, stride: u16) -> u64
    ensures { LookedUp record_put record_found (new_tables max_rows 0) max_rows stride lookups result }
{
    let mut records = [Record::blank(); MAX_ROWS];
    let mut marks: [Mark; 0] = [];
    let mut outgoing: [Outgoing; 0] = [];
    let mut books = Tables::new(&mut records, &mut marks, &mut outgoing);
    fill::<Records, Tables>(&mut books, TABLE_ROWS);
    sum_found::<Records, Tables>(&books, TABLE_ROWS, stride, lookups)
}

/// Outgoing rows by their names, in tables.
#[unsafe(no_mangle)]
pub extern "C" fn limedistaff_tables_outgoing(lookups: u32, stride: u16) -> u64
    ensures { LookedUp opening_put opening_found (new_tables 0 max_rows) max_rows stride lookups result }
{
    let mut records: [Record; 0] = [];
    let mut marks: [Mark; 0] = [];
    let mut outgoing = [Outgoing::blank(); MAX_ROWS];
    let mut books = Tables::new(&mut records, &mut marks, &mut outgoing);
    fill::<Openings, Tables>(&mut books, TABLE_ROWS);
    sum_found::<Openings, Tables>(&books, TABLE_ROWS, stride, lookups)
}
