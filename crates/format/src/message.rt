//! Names and messages, and their bytes.
ghost use Rattle.std.specs.Prelude.{◌≡◌};
ghost use Rattle.format.specs.Bytes.{message_bytes, name_bytes};
ghost use Rattle.format.specs.Fits.{MessageFits, NameFits};
ghost use Rattle.format.specs.Meaning.{message_value, name_value};
ghost use Rattle.format.specs.Order.{order_names};
ghost use Rattle.format.specs.Same.{same_message, same_name};

use crate::fields::{Height, value_to_bytes};
use crate::identifier::Identifier;
use crate::layout::{NAME_LEN, RECEIVE_LEN};
use crate::writing::write_at;
use std::fmt;

/// What names a message: the height and chain of the block that sent it, and the place of the
/// command that did, from 0. Names are ordered by height, then sender, then index.
#[derive(Clone, Copy, PartialEq, Eq, PartialOrd, Ord, Debug)]
pub struct Name {
    pub height: Height,
    pub sender: Identifier,
    pub index: u8,
}

impl Name {
    /// The sender, the height and the index.
    pub fn to_bytes(&self) -> [u8; NAME_LEN]
        ensures bytes { result ≡ name_bytes (name_value self.now) }
        ensures fits { NameFits (name_value self.now) }
        ensures equality { (x y : Name) → ⟦<Name as PartialEq>⟧.eq x y ≡ same_name (name_value x) (name_value y) }
        ensures order { (x y : Name) → ⟦<Name as Ord>⟧.cmp x y ≡ order_names (name_value x) (name_value y) }
    {
        let mut bytes = [0; NAME_LEN];
        let at = write_at(&mut bytes, 0, &self.sender.to_bytes());
        let at = write_at(&mut bytes, at, &self.height.to_bytes());
        write_at(&mut bytes, at, &[self.index]);
        bytes
    }
}

impl fmt::Display for Name {
    // `SENDER HEIGHT INDEX`.
    fn fmt<W: fmt::Write>(&self, f: &mut fmt::Formatter<W>) -> fmt::Result {
        write!(f, "{} {} {}", self.sender, self.height, self.index)
    }
}

/// A message between chains: the five operands of a Receive.
#[derive(Clone, Copy, PartialEq, Eq, Debug)]
pub struct Message {
    pub name: Name,
    pub code: u8,
    pub value: i64,
}

impl Message {
    /// The name, the code and the value.
    pub fn to_bytes(&self) -> [u8; RECEIVE_LEN]
        ensures bytes { result ≡ message_bytes (message_value self.now) }
        ensures fits { MessageFits (message_value self.now) }
        ensures equality { (x y : Message) → ⟦<Message as PartialEq>⟧.eq x y ≡ same_message (message_value x) (message_value y) }
    {
        let mut bytes = [0; RECEIVE_LEN];
        let at = write_at(&mut bytes, 0, &self.name.to_bytes());
        let at = write_at(&mut bytes, at, &[self.code]);
        write_at(&mut bytes, at, &value_to_bytes(self.value));
        bytes
    }
}

impl fmt::Display for Message {
    // `SENDER HEIGHT INDEX CODE VALUE`.
    fn fmt<W: fmt::Write>(&self, f: &mut fmt::Formatter<W>) -> fmt::Result {
        write!(f, "{} {} {}", self.name, self.code, self.value)
    }
}
