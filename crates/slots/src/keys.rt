//! The keys of the three kinds of row, as slots begin.
ghost use Rattle.std.specs.Prelude.{◌≡◌};
ghost use Rattle.format.specs.Meaning.{identifier_value, name_value};
ghost use Rattle.books.specs.Meaning.{mark_value};
ghost use Rattle.slots.specs.Prefixes.{key_prefix, prefix_value};
ghost use Rattle.slots.specs.RoundTrip.{KeyFits};
ghost use Rattle.slots.specs.Rows.{RowKey, by_identifier, by_mark, by_name};

use crate::encoding::add_mark;
use crate::kind::Kind;
use crate::prefix::Prefix;
use crate::writer::Writer;
use books::Mark;
use format::{Identifier, Name};

/// What a row is looked for by: a record's identifier, a mark, an outgoing row's name.
pub trait SlotKey {
    ghost keyed: { Self → RowKey };

    /// What the slot of the row with this key begins with.
    fn prefix(&self) -> Prefix
        ensures value { prefix_value result ≡ key_prefix (keyed self.now) }
        ensures fits { KeyFits (keyed self.now) };
}

impl SlotKey for Identifier {
    ghost keyed = { λ c. by_identifier (identifier_value c) };

    fn prefix(&self) -> Prefix {
        let mut key = Writer::new();
        key.add(&self.to_bytes());
        Prefix::new(Kind::Record, Kind::Record, key)
    }
}

impl SlotKey for Mark {
    ghost keyed = { λ m. by_mark (mark_value m) };

    fn prefix(&self) -> Prefix {
        let kind = Kind::from(self.sign);
        let mut key = Writer::new();
        add_mark(&mut key, self);
        Prefix::new(kind, kind, key)
    }
}

impl SlotKey for Name {
    ghost keyed = { λ n. by_name (name_value n) };

    fn prefix(&self) -> Prefix {
        let mut key = Writer::new();
        key.add(&self.to_bytes());
        Prefix::new(Kind::Opening, Kind::Message, key)
    }
}
