//! The three kinds of row.
use format::{Digest, Height, Identifier, Key, Message, Name};

/// What books know of a chain.
#[derive(Clone, Copy, PartialEq, Eq, Debug)]
pub struct Record {
    pub identifier: Identifier,
    /// 0 where the chain has no owner.
    pub owner: Key,
    pub next: Height,
    /// The digest of the last block; all zero where there is none.
    pub last: Digest,
    /// The application's two numbers.
    pub a: i64,
    pub b: i64,
    /// The digest that was voted for at the next height.
    pub vote: Option<Digest>,
}

/// The sign of a mark: plus if its message arrived and waits, minus if it was received before it
/// arrived.
#[derive(Clone, Copy, PartialEq, Eq, Debug)]
pub enum Sign {
    Plus,
    Minus,
}

/// A mark: a message to a chain that has arrived or been received, and not both.
#[derive(Clone, Copy, PartialEq, Eq, Debug)]
pub struct Mark {
    pub target: Identifier,
    pub message: Message,
    pub sign: Sign,
}

/// What an outgoing row carries.
#[derive(Clone, Copy, PartialEq, Eq, Debug)]
pub enum Load {
    /// The owner of a new chain.
    Opening { key: Key },
    /// The code and value of a message.
    Sent { code: u8, value: i64 },
}

/// An outgoing row: an opening or a message that a block sent, not yet delivered to its target.
#[derive(Clone, Copy, PartialEq, Eq, Debug)]
pub struct Outgoing {
    pub name: Name,
    pub target: Identifier,
    pub load: Load,
}

/// So many new rows of each kind. What a row needs in books to go in is a place of its kind.
#[derive(Clone, Copy, PartialEq, Eq, Debug)]
pub struct NewRows {
    pub records: usize,
    pub marks: usize,
    pub outgoing: usize,
}

impl NewRows {
    pub const NONE: NewRows = NewRows {
        records: 0,
        marks: 0,
        outgoing: 0,
    };
}
