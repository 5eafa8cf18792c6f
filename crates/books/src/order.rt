//! The order in which outgoing rows wait.
ghost use Rattle.std.specs.Prelude.{◌≡◌, None};
ghost use Rattle.books.specs.Meaning.{entry_value};
ghost use Rattle.books.specs.Order.{LeastIsOne, StrictOrder, before, earlier, earliest};
ghost use Rattle.books.specs.Sides.{on};

use crate::rows::Outgoing;
use crate::side::Side;

/// Whether the first row waits before the second: by sender height, then sender identifier, then
/// index. The order is strict, and total on rows of different names, so that of all rows one is
/// the least.
pub fn is_before(x: &Outgoing, y: &Outgoing) -> bool
    ensures value { result ≡ before (entry_value x.now) (entry_value y.now) }
    ensures strict { StrictOrder }
    ensures unique { LeastIsOne }
{
    x.name.cmp(&y.name).is_lt()
}

/// The earlier of two rows, or the one that is there.
pub fn earlier_of(x: Option<Outgoing>, y: Option<Outgoing>) -> Option<Outgoing>
    ensures { result ≡ earlier x y }
{
    let Some(first) = x else {
        return y;
    };
    let Some(second) = y else {
        return x;
    };
    Some(if is_before(&second, &first) {
        second
    } else {
        first
    })
}

/// The least row whose sender is on the side.
pub fn least(rows: &[Outgoing], side: Side) -> Option<Outgoing>
    ensures { result ≡ earliest (λ x. on side (entry_value x).name.sender) None rows.now }
{
    let mut best = None;
    for row in rows {
        if side.has(&row.name.sender) {
            best = earlier_of(best, Some(*row));
        }
    }
    best
}
