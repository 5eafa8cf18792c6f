//! The rows that are put and looked up: their keys and their numbers are told by their places.
ghost use Rattle.std.specs.Prelude.{◌≡◌, ℕ};
ghost use Rattle.format.specs.Meaning.{name_value};
ghost use Rattle.books.specs.Books.{Operation, Rows, Tried};
ghost use Rattle.books.specs.Meaning.{entry_value, record_row};
ghost use Rattle.exports_books.specs.Rows.{opening_found, opening_name, opening_put, opening_row, record_found, record_of, record_put, root};

use books::{Books, Load, Outgoing, Record};
use format::{Height, Identifier, Key, Name};

/// A kind of row that is put into books, and looked up in them.
pub trait LookedUp {
    // The change that puts the row of a place, and the number that is found there, 0 where there is no row.
    ghost change: { ℕ → Operation };

    ghost number: { Rows → ℕ → ℕ };

    fn put<B: Books>(books: &mut B, place: u16) -> bool
        ensures { Tried (B.Books.meaning books.old) (change place) result (B.Books.meaning books.new) };

    fn find<B: Books>(books: &B, place: u16) -> u32
        ensures { result ≡ number (B.Books.meaning books.now).rows place };
}

/// Records by their chains.
pub enum Records {}

/// Openings by their names.
pub enum Openings {}

fn record(place: u16) -> Record
    ensures { record_row result ≡ (root place, record_of place) }
{
    Record {
        identifier: Identifier::root(place),
        next: Height(place),
        ..Record::blank()
    }
}

// One chain sent all openings, one at each height.
fn name(place: u16) -> Name
    ensures { name_value result ≡ opening_name place }
{
    Name {
        sender: Identifier::root(0),
        height: Height(place),
        index: 0,
    }
}

fn opening(place: u16) -> Outgoing
    ensures { entry_value result ≡ opening_row place }
{
    Outgoing {
        name: name(place),
        target: Identifier::root(place),
        load: Load::Opening {
            key: Key(u32::from(place)),
        },
    }
}

impl LookedUp for Records {
    ghost change = { record_put };

    ghost number = { record_found };

    fn put<B: Books>(books: &mut B, place: u16) -> bool {
        books.put_record(record(place))
    }

    fn find<B: Books>(books: &B, place: u16) -> u32 {
        books
            .record(&Identifier::root(place))
            .map_or(0, |row| u32::from(row.next.0))
    }
}

impl LookedUp for Openings {
    ghost change = { opening_put };

    ghost number = { opening_found };

    fn put<B: Books>(books: &mut B, place: u16) -> bool {
        books.put_outgoing(opening(place))
    }

    fn find<B: Books>(books: &B, place: u16) -> u32 {
        books
            .outgoing(&name(place))
            .map_or(0, |row| match row.load {
                Load::Opening { key } => key.0,
                Load::Sent { .. } => 0,
            })
    }
}
