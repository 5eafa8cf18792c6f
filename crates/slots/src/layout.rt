//! The layout of a slot: each width, place and byte under one name.
use format::layout::{
    CODE_LEN, DIGEST_LEN, HEIGHT_LEN, IDENTIFIER_LEN, KEY_LEN, NAME_LEN, RECEIVE_LEN, VALUE_LEN,
};

/// The byte that tells the row.
pub const KIND_LEN: usize = 1;

/// The byte before a voted digest.
pub const VOTE_BYTE_LEN: usize = 1;

/// The byte before a voted digest. Where there is none, it and the digest's bytes are zero.
pub const VOTED: u8 = 1;

/// Every row begins with the identifier of its chain: a record's own, a mark's target, an
/// outgoing row's sender.
pub const CHAIN_AT: usize = KIND_LEN;

// The fields of a record.
pub const OWNER_AT: usize = CHAIN_AT + IDENTIFIER_LEN;

pub const NEXT_AT: usize = OWNER_AT + KEY_LEN;

pub const LAST_AT: usize = NEXT_AT + HEIGHT_LEN;

pub const A_AT: usize = LAST_AT + DIGEST_LEN;

pub const B_AT: usize = A_AT + VALUE_LEN;

pub const VOTE_AT: usize = B_AT + VALUE_LEN;

pub const VOTED_AT: usize = VOTE_AT + VOTE_BYTE_LEN;

/// A record fills its slot.
pub const SLOT_LEN: usize = VOTED_AT + DIGEST_LEN;

// The fields of an outgoing row, behind its name.
pub const TARGET_AT: usize = CHAIN_AT + NAME_LEN;

pub const LOAD_AT: usize = TARGET_AT + IDENTIFIER_LEN;

pub const SENT_VALUE_AT: usize = LOAD_AT + CODE_LEN;

/// The longest key is a mark's: its target and message.
pub const MAX_PREFIX_LEN: usize = IDENTIFIER_LEN + RECEIVE_LEN;
