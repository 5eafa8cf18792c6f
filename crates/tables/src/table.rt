//! A table: the first rows of a lent slice.
ghost use Rattle.std.specs.Prelude.{◌≤◌, length, take};
ghost use Rattle.books.specs.Lists.{Apart};
ghost use Rattle.tables.specs.Limits.{max_rows};

use books::Keyed;

pub mod methods;

/// How many rows a table has at most. Rows of the slice past them are not touched.
pub const MAX_ROWS: usize = 1_024;

/// The rows below `count` are held, and no two of them have one key. The slice is lent and
/// nothing is allocated, so the count stands beside it.
#[derive(Drop)]
pub struct Table<'a, R: Keyed + Copy> {
    rows: &'a mut [R],
    count: usize,
    ghost in_slice: { count ≤ length rows.now },
    ghost in_limit: { count ≤ max_rows },
    ghost apart: { Apart R.Keyed.named R.Keyed.same (take count rows.now) },
}
