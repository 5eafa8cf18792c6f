//! Two workers' books as one.
#![tactic(auto)]

ghost use Rattle.split.specs.Joined.{joined, joined_laws};

use books::{Books, Mark, NewRows, Outgoing, Record, Side, earlier_of};
use format::{Identifier, Name};

/// Books of two workers. Chains whose first number is even lie with the first, the others with the
/// second; a mark lies with its target and an outgoing row with its sender. A row that a worker
/// has of the other's chains is no row of the two.
#[derive(Drop)]
pub struct Split<P, Q> {
    pub first: P,
    pub second: Q,
}

// The two may be books of different types, so that a helper would take two closures for each
// question, and read no plainer than these branches.
impl<P: Books, Q: Books> Books for Split<P, Q> {
    ghost meaning = { λ s. joined (P.Books.meaning s.first) (Q.Books.meaning s.second) };

    ghost laws = { λ s. joined_laws (P.Books.meaning s.first) (Q.Books.meaning s.second) (P.Books.laws s.first) (Q.Books.laws s.second) };

    ghost Outside = { P.Books.Outside × Q.Books.Outside };

    ghost outside = { λ s. (P.Books.outside s.first, Q.Books.outside s.second) };

    fn record(&self, chain: &Identifier) -> Option<Record> {
        if chain.first_is_even() {
            self.first.record(chain)
        } else {
            self.second.record(chain)
        }
    }

    fn has_mark(&self, mark: &Mark) -> bool {
        if mark.target.first_is_even() {
            self.first.has_mark(mark)
        } else {
            self.second.has_mark(mark)
        }
    }

    fn has_minus(&self, chain: &Identifier) -> bool {
        if chain.first_is_even() {
            self.first.has_minus(chain)
        } else {
            self.second.has_minus(chain)
        }
    }

    fn outgoing(&self, name: &Name) -> Option<Outgoing> {
        if name.sender.first_is_even() {
            self.first.outgoing(name)
        } else {
            self.second.outgoing(name)
        }
    }

    fn fits(&self, chain: &Identifier, new: NewRows) -> bool {
        if chain.first_is_even() {
            self.first.fits(chain, new)
        } else {
            self.second.fits(chain, new)
        }
    }

    fn is_blank(&self, side: Side) -> bool {
        match side {
            Side::All => self.first.is_blank(Side::Even) && self.second.is_blank(Side::Odd),
            Side::Even => self.first.is_blank(Side::Even),
            Side::Odd => self.second.is_blank(Side::Odd),
        }
    }

    fn least_outgoing(&self, side: Side) -> Option<Outgoing> {
        match side {
            Side::All => earlier_of(
                self.first.least_outgoing(Side::Even),
                self.second.least_outgoing(Side::Odd),
            ),
            Side::Even => self.first.least_outgoing(Side::Even),
            Side::Odd => self.second.least_outgoing(Side::Odd),
        }
    }

    fn put_record(&mut self, row: Record) -> bool {
        if row.identifier.first_is_even() {
            self.first.put_record(row)
        } else {
            self.second.put_record(row)
        }
    }

    fn put_mark(&mut self, row: Mark) -> bool {
        if row.target.first_is_even() {
            self.first.put_mark(row)
        } else {
            self.second.put_mark(row)
        }
    }

    fn put_outgoing(&mut self, row: Outgoing) -> bool {
        if row.name.sender.first_is_even() {
            self.first.put_outgoing(row)
        } else {
            self.second.put_outgoing(row)
        }
    }

    fn remove_record(&mut self, chain: &Identifier) {
        if chain.first_is_even() {
            self.first.remove_record(chain)
        } else {
            self.second.remove_record(chain)
        }
    }

    fn remove_mark(&mut self, mark: &Mark) {
        if mark.target.first_is_even() {
            self.first.remove_mark(mark)
        } else {
            self.second.remove_mark(mark)
        }
    }

    fn remove_outgoing(&mut self, name: &Name) {
        if name.sender.first_is_even() {
            self.first.remove_outgoing(name)
        } else {
            self.second.remove_outgoing(name)
        }
    }
}
