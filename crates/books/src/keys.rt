//! The keys of the three kinds of row.
ghost use Rattle.format.specs.Meaning.{identifier_value, name_value};
ghost use Rattle.format.specs.Same.{same_identifier, same_name};
ghost use Rattle.format.specs.Values.{IdentifierValue, NameValue};
ghost use Rattle.books.specs.Meaning.{mark_value, outgoing_key, record_key};
ghost use Rattle.books.specs.Same.{same_mark};
ghost use Rattle.books.specs.Values.{MarkValue};
ghost use Rattle.format.proofs.Same.{identifier_decides, name_decides};
ghost use Rattle.books.specs.SameLemmas.{mark_decides};

use crate::keyed::Keyed;
use crate::rows::{Mark, Outgoing, Record};
use format::{Identifier, Name};

impl Keyed for Record {
    type Key = Identifier;

    ghost Label = { IdentifierValue };

    ghost label = { identifier_value };

    ghost same = { same_identifier };

    ghost named = { record_key };

    ghost home = { λ c. c };

    ghost decides = { identifier_decides };

    fn key(&self) -> Identifier {
        self.identifier
    }

    fn chain(&self) -> Identifier {
        self.identifier
    }

    fn has_key(&self, key: &Identifier) -> bool {
        self.identifier == *key
    }
}

impl Keyed for Mark {
    type Key = Mark;

    ghost Label = { MarkValue };

    ghost label = { mark_value };

    ghost same = { same_mark };

    ghost named = { mark_value };

    ghost home = { λ k. k.target };

    ghost decides = { mark_decides };

    fn key(&self) -> Mark {
        *self
    }

    fn chain(&self) -> Identifier {
        self.target
    }

    // The height once more, and first: it tells most marks apart, and the compiler may turn the tests of `==` round.
    fn has_key(&self, key: &Mark) -> bool {
        self.message.name.height == key.message.name.height && *self == *key
    }
}

impl Keyed for Outgoing {
    type Key = Name;

    ghost Label = { NameValue };

    ghost label = { name_value };

    ghost same = { same_name };

    ghost named = { outgoing_key };

    ghost home = { λ n. n.sender };

    ghost decides = { name_decides };

    fn key(&self) -> Name {
        self.name
    }

    fn chain(&self) -> Identifier {
        self.name.sender
    }

    // The height first, as for marks.
    fn has_key(&self, key: &Name) -> bool {
        self.name.height == key.height && self.name == *key
    }
}
