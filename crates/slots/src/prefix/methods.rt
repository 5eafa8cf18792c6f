//! Making a prefix, and holding it against a slot.
ghost use Rattle.std.specs.Prelude.{◌≡◌};
ghost use Rattle.format.specs.Identifiers.{Identifies};
ghost use Rattle.format.specs.Meaning.{identifier_value};
ghost use Rattle.slots.specs.Kinds.{kind_byte};
ghost use Rattle.slots.specs.Prefixes.{begins as spec_begins, free_prefix, minus_prefix, prefix, prefix_value};
ghost use Rattle.slots.specs.Written.{contents};

use super::Prefix;
use crate::kind::Kind;
use crate::layout::{CHAIN_AT, MAX_PREFIX_LEN, SLOT_LEN};
use crate::writer::Writer;
use format::Identifier;

impl Prefix {
    pub(crate) fn new(first: Kind, last: Kind, key: Writer<MAX_PREFIX_LEN>) -> Prefix
        ensures { prefix_value result ≡ prefix (kind_byte first) (kind_byte last) (contents key) }
    {
        Prefix { first, last, key }
    }

    /// That of the free slots.
    pub fn free() -> Prefix
        ensures { prefix_value result ≡ free_prefix }
    {
        Prefix::new(Kind::Free, Kind::Free, Writer::new())
    }

    /// That of the slots that hold a minus mark of a chain.
    pub fn minus_of(chain: &Identifier) -> Prefix
        ensures value { prefix_value result ≡ minus_prefix (identifier_value chain.now) }
        ensures fits { Identifies (identifier_value chain.now) }
    {
        let mut key = Writer::new();
        key.add(&chain.to_bytes());
        Prefix::new(Kind::Minus, Kind::Minus, key)
    }

    /// Whether a slot begins so.
    pub fn begins(&self, slot: &[u8]) -> bool
        ensures { result ≡ spec_begins (prefix_value self.now) slot.now }
    {
        let key = self.key.as_slice();
        slot.len() == SLOT_LEN
            && slot[0] >= u8::from(self.first)
            && slot[0] <= u8::from(self.last)
            && &slot[CHAIN_AT..CHAIN_AT + key.len()] == key
    }
}
