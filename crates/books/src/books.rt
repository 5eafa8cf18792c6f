//! Books: what holds the rows of a validator, by its meaning.
ghost use Rattle.std.specs.Prelude.{◌≡◌, IfSome};
ghost use Rattle.std.specs.Option.{option_map};
ghost use Rattle.format.specs.Meaning.{identifier_value, name_value};
ghost use Rattle.books.specs.Books.{BooksValue, Laws, Step, Tried, put_mark, put_outgoing, put_record, remove_mark, remove_outgoing, remove_record};
ghost use Rattle.books.specs.Meaning.{counts_value, entry_value, mark_value, outgoing_key, outgoing_value, record_key, record_value};
ghost use Rattle.books.specs.Order.{Least};
ghost use Rattle.books.specs.Sides.{on};

use crate::rows::{Mark, NewRows, Outgoing, Record};
use crate::side::Side;
use format::{Identifier, Name};

/// Books: the store of a validator's rows. Questions change nothing. Each kind of row has methods of its own, since it has
/// another key and another part in the meaning; a put answers a `bool`, as an `insert` of std's sets does.
pub trait Books {
    // The rows and what fits.
    ghost meaning: { Self → BooksValue };

    ghost laws: { (s : Self) → Laws (meaning s) };

    // The memory past the limits of the books, which no change touches. That it stays relates what is before a change to what
    // is after it: a clause of each change, and no invariant of a type.
    ghost Outside: { Type 0 };

    ghost outside: { Self → Outside };

    /// The record of a chain.
    fn record(&self, chain: &Identifier) -> Option<Record>
        ensures value { option_map record_value result ≡ (meaning self.now).rows.record_at (identifier_value chain.now) }
        ensures key { IfSome result (λ x. record_key x ≡ identifier_value chain.now) };

    /// Whether a mark is there.
    fn has_mark(&self, mark: &Mark) -> bool
        ensures { result ≡ (meaning self.now).rows.marked (mark_value mark.now) };

    /// Whether a minus mark of the chain is there.
    fn has_minus(&self, chain: &Identifier) -> bool
        ensures { result ≡ (meaning self.now).owing (identifier_value chain.now) };

    /// The outgoing row of a name.
    fn outgoing(&self, name: &Name) -> Option<Outgoing>
        ensures value { option_map outgoing_value result ≡ (meaning self.now).rows.outgoing_at (name_value name.now) }
        ensures key { IfSome result (λ x. outgoing_key x ≡ name_value name.now) };

    /// Whether so many new records and marks for the chain, and outgoing rows sent by it, go in
    /// together.
    fn fits(&self, chain: &Identifier, new: NewRows) -> bool
        ensures { result ≡ (meaning self.now).fits (identifier_value chain.now) (counts_value new) };

    /// Whether there is no row of a chain on the side.
    fn is_blank(&self, side: Side) -> bool
        ensures { result ≡ (meaning self.now).blank side };

    /// The outgoing row that is least of those sent by chains on the side.
    fn least_outgoing(&self, side: Side) -> Option<Outgoing>
        ensures { Least (meaning self.now).rows.outgoing_at (on side) (option_map entry_value result) };

    /// Puts a record, in the place of the one with its identifier or as a new row. Answers
    /// whether it went in.
    fn put_record(&mut self, row: Record) -> bool
        ensures change { Tried (meaning self.old) (put_record (record_key row) (record_value row)) result (meaning self.new) }
        ensures rest { outside self.new ≡ outside self.old };

    /// Puts a mark. Answers whether it went in.
    fn put_mark(&mut self, row: Mark) -> bool
        ensures change { Tried (meaning self.old) (put_mark (mark_value row)) result (meaning self.new) }
        ensures rest { outside self.new ≡ outside self.old };

    /// Puts an outgoing row, in the place of the one with its name or as a new row. Answers
    /// whether it went in.
    fn put_outgoing(&mut self, row: Outgoing) -> bool
        ensures change { Tried (meaning self.old) (put_outgoing (outgoing_key row) (outgoing_value row)) result (meaning self.new) }
        ensures rest { outside self.new ≡ outside self.old };

    /// Removes the record of a chain, if it is there.
    fn remove_record(&mut self, chain: &Identifier)
        ensures change { Step (meaning self.old) (remove_record (identifier_value chain.now)) (meaning self.new) }
        ensures rest { outside self.new ≡ outside self.old };

    /// Removes a mark, if it is there.
    fn remove_mark(&mut self, mark: &Mark)
        ensures change { Step (meaning self.old) (remove_mark (mark_value mark.now)) (meaning self.new) }
        ensures rest { outside self.new ≡ outside self.old };

    /// Removes the outgoing row of a name, if it is there.
    fn remove_outgoing(&mut self, name: &Name)
        ensures change { Step (meaning self.old) (remove_outgoing (name_value name.now)) (meaning self.new) }
        ensures rest { outside self.new ≡ outside self.old };
}
