//! Slots: the bytes of a row of any kind, and back.
#![tactic(auto)]

mod decoding;
mod encoding;
mod keys;
mod kind;
pub mod layout;
mod prefix;
mod writer;

pub use decoding::{decode_outgoing, decode_record, home_of};
pub use encoding::{encode_mark, encode_outgoing, encode_record};
pub use keys::SlotKey;
pub use kind::{Kind, UnknownKind};
pub use prefix::Prefix;
