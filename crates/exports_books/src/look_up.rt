//! Filling books, and looking rows up from place to place, in steps of one stride.
ghost use Rattle.std.specs.Prelude.{◌≡◌, ◌<◌};
ghost use Rattle.exports_books.specs.Lookups.{Filled, place_after, sum_from};

use crate::rows::LookedUp;
use books::Books;

/// Puts the row of each place.
pub(crate) fn fill<K: LookedUp, B: Books>(books: &mut B, rows: u16)
    ensures { Filled K.LookedUp.change (B.Books.meaning books.old) rows (B.Books.meaning books.new) }
{
    for place in 0..rows {
        K::put(books, place);
    }
}

fn place_after(rows: u16, stride: u16, place: u16) -> u16
    requires { 0 < rows }
    ensures { result ≡ place_after rows stride place }
{
    ((u32::from(place) + u32::from(stride)) % u32::from(rows)) as u16
}

/// The sum of the numbers found. The place goes on in strides, so it is counted here.
pub(crate) fn sum_found<K: LookedUp, B: Books>(
    books: &B,
    rows: u16,
    stride: u16,
    lookups: u32,
) -> u64
    requires { 0 < rows }
    ensures { result ≡ sum_from (K.LookedUp.number (B.Books.meaning books.now).rows) rows stride 0 lookups }
{
    let mut place = 0;
    let mut sum: u64 = 0;
    for _turn in 0..lookups {
        sum += u64::from(K::find(books, place));
        place = place_after(rows, stride, place);
    }
    sum
}
