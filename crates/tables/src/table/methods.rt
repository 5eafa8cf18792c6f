//! Looking for a row in a table, putting and removing one.
ghost use Rattle.std.specs.Prelude.{◌≡◌, ◌<◌, None, MatchOption};
ghost use Rattle.format.specs.Meaning.{identifier_value};
ghost use Rattle.books.specs.Listed.{owing_of};
ghost use Rattle.books.specs.Lists.{Absent, Present, any, find};
ghost use Rattle.books.specs.Meaning.{entry_value};
ghost use Rattle.books.specs.Order.{earliest};
ghost use Rattle.books.specs.Sides.{on};
ghost use Rattle.tables.specs.Dense.{Put, Removed};
ghost use Rattle.tables.specs.Held.{cleared, held, memory, past, room, usable};

use super::{MAX_ROWS, Table};
use books::{Keyed, Mark, Outgoing, Side, any_minus, any_on_side, least, locate};
use format::Identifier;

impl<'a, R: Keyed + Copy> Table<'a, R> {
    // A table with no row, in a slice whose rows up to the limit are then blank.
    pub(crate) fn new(rows: &'a mut [R], blank: R) -> Table<'a, R>
        requires never_fails { R.is_infallible blank }
        requires copies { (x : R) → R.is_clone blank x → x ≡ blank }
        ensures none { result.count ≡ 0 }
        ensures memory { memory result ≡ cleared blank rows.old }
    {
        let end = rows.len().min(MAX_ROWS);
        rows[0..end].fill(blank);
        Table { rows, count: 0 }
    }

    // Gives the slice back.
    pub(crate) fn into_rows(self) -> &'a mut [R]
        ensures { result.now ≡ memory self.entry }
    {
        self.rows
    }

    // How many rows it holds at most.
    fn capacity(&self) -> usize
        ensures { result ≡ usable (memory self.now) }
    {
        self.rows.len().min(MAX_ROWS)
    }

    // How many new rows it takes.
    pub(crate) fn room(&self) -> usize
        ensures { result ≡ room self.now }
    {
        self.capacity() - self.count
    }

    fn held(&self) -> &[R]
        ensures { result.now ≡ held self.now }
    {
        &self.rows[..self.count]
    }

    // Whether a row held is of a chain on the side.
    pub(crate) fn any(&self, side: Side) -> bool
        ensures { result ≡ any (λ x. on side (R.Keyed.home (R.Keyed.named x))) (held self.now) }
    {
        any_on_side(self.held(), side)
    }

    fn place(&self, key: &R::Key) -> Option<usize>
        ensures { MatchOption result (Absent R.Keyed.named R.Keyed.same (held self.now) (R.Keyed.label key.now)) (λ i. (i < self.now.count) × Present R.Keyed.named R.Keyed.same (held self.now) (R.Keyed.label key.now) i) }
    {
        locate(self.held(), key)
    }

    pub(crate) fn find(&self, key: &R::Key) -> Option<R>
        ensures { result ≡ find R.Keyed.named R.Keyed.same (held self.now) (R.Keyed.label key.now) }
    {
        let i = self.place(key)?;
        Some(self.rows[i])
    }

    // Puts a row in the place of the one with its key, or else behind the others; false where
    // there is no room.
    pub(crate) fn put(&mut self, row: R) -> bool
        ensures change { Put R.Keyed.named R.Keyed.same (held self.old) (room self.old) row result (held self.new) (room self.new) }
        ensures rest { past self.new ≡ past self.old }
    {
        if let Some(i) = self.place(&row.key()) {
            self.rows[i] = row;
            return true;
        }
        if self.count == self.capacity() {
            return false;
        }
        self.rows[self.count] = row;
        self.count += 1;
        true
    }

    // Removes the row with the key, if there is one; the last row takes its place.
    pub(crate) fn remove(&mut self, key: &R::Key)
        ensures change { Removed R.Keyed.named R.Keyed.same (held self.old) (room self.old) (R.Keyed.label key.now) (held self.new) (room self.new) }
        ensures rest { past self.new ≡ past self.old }
    {
        if let Some(i) = self.place(key) {
            self.count -= 1;
            self.rows[i] = self.rows[self.count];
        }
    }
}

impl<'a> Table<'a, Mark> {
    // Whether a minus mark of the chain is held.
    pub(crate) fn any_minus(&self, chain: &Identifier) -> bool
        ensures { result ≡ owing_of (held self.now) (identifier_value chain.now) }
    {
        any_minus(self.held(), chain)
    }
}

impl<'a> Table<'a, Outgoing> {
    // The least of the rows held that chains on the side sent.
    pub(crate) fn least(&self, side: Side) -> Option<Outgoing>
        ensures { result ≡ earliest (λ x. on side (entry_value x).name.sender) None (held self.now) }
    {
        least(self.held(), side)
    }
}
