//! The values of ring records' blocks, and the bytes that they are written in.
#![tactic(auto)]

mod block;
mod composing;
mod digest;
mod fields;
mod identifier;
pub mod layout;
mod message;
mod refusal;
mod writing;

pub use block::{Block, Command};
pub use composing::{ComposeFault, compose, head_is_allowed};
pub use digest::Digest;
pub use fields::{Height, Key, value_from_bytes, value_to_bytes};
pub use identifier::Identifier;
pub use identifier::methods::NotWellFormed;
pub use message::{Message, Name};
pub use refusal::Refusal;
