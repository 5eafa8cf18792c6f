//! Reading frames, blocks and commands. Nothing is copied: what is read comes back as parts of the caller's bytes.
#![tactic(auto)]

mod block;
mod certificate;
mod command;
mod cursor;
mod fields;
mod frame;
mod operands;
mod part;

pub use block::{Head, read_block};
pub use certificate::methods::read_certificate;
pub use certificate::{Certificate, MAX_SEALS, Vote};
pub use command::{CommandPart, CommandView};
pub use cursor::Cursor;
pub use fields::{read_identifier, read_message, read_name};
pub use frame::{Request, read_request};
pub use part::{Part, ReadFault};
