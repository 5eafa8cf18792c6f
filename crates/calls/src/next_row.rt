//! Which outgoing row is next to be delivered.
ghost use Rattle.std.specs.Option.{option_map};
ghost use Rattle.books.specs.Meaning.{entry_value};
ghost use Rattle.books.specs.Order.{Least};
ghost use Rattle.books.specs.Sides.{on};
ghost use Rattle.books.specs.declared.side.Side.TheVariants.{All};

use books::{Books, Outgoing, Side};

/// The outgoing row that is least by the height of its sender's block, then by the sender's identifier, then by the place of
/// the command that sent it; none where there is none.
pub fn waiting<B: Books>(books: &B) -> Option<Outgoing>
    ensures { Least (B.Books.meaning books.now).rows.outgoing_at (on All) (option_map entry_value result) }
{
    books.least_outgoing(Side::All)
}
