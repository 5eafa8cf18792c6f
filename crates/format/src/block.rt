//! Blocks and their commands.
use crate::digest::Digest;
use crate::fields::{Height, Key};
use crate::identifier::Identifier;
use crate::message::Message;

/// A command of a block.
#[derive(Clone, Copy)]
pub enum Command {
    /// Makes a child chain with an owner.
    Open {
        child: Identifier,
        key: Key,
    },
    /// Sets the chain's owner.
    Change {
        key: Key,
    },
    /// Takes the chain's owner away.
    Close,
    /// Steps the application; its message, if it sends one, goes to the target.
    Execute {
        code: u8,
        argument: i64,
        target: Identifier,
    },
    /// Takes a message in.
    Receive {
        message: Message,
    },
}

/// A block of a chain.
#[derive(Clone, Copy)]
pub struct Block<'a> {
    pub chain: Identifier,
    pub height: Height,
    /// The digest of the block before it; all zero at height 0.
    pub previous: Digest,
    pub commands: &'a [Command],
}
