//! The widths, limits and command bytes of blocks, each under one name.

/// A number of an identifier.
pub type Number = u16;

// Widths of fields in bytes.
pub const NUMBER_LEN: usize = 2;

pub const HEIGHT_LEN: usize = 2;

pub const DIGEST_LEN: usize = hash::DIGEST_LEN;

pub const KEY_LEN: usize = 4;

pub const CODE_LEN: usize = 1;

pub const INDEX_LEN: usize = 1;

pub const VALUE_LEN: usize = 8;

pub const DEPTH_LEN: usize = 1;

pub const COUNT_LEN: usize = 1;

pub const COMMAND_BYTE_LEN: usize = 1;

// Limits.
pub const MAX_DEPTH: usize = 4;

pub const MAX_HEIGHT: u16 = 65_534;

pub const MAX_COMMANDS: usize = 16;

pub const MAX_INDEX: u8 = 15;

// Lengths that follow.
pub const IDENTIFIER_LEN: usize = DEPTH_LEN + MAX_DEPTH * NUMBER_LEN;

pub const HEAD_LEN: usize = IDENTIFIER_LEN + HEIGHT_LEN + DIGEST_LEN + COUNT_LEN;

pub const OPEN_LEN: usize = IDENTIFIER_LEN + KEY_LEN;

pub const CHANGE_LEN: usize = KEY_LEN;

pub const CLOSE_LEN: usize = 0;

pub const EXECUTE_LEN: usize = CODE_LEN + VALUE_LEN + IDENTIFIER_LEN;

pub const NAME_LEN: usize = IDENTIFIER_LEN + HEIGHT_LEN + INDEX_LEN;

pub const RECEIVE_LEN: usize = NAME_LEN + CODE_LEN + VALUE_LEN;

pub const MAX_BLOCK_LEN: usize = HEAD_LEN + MAX_COMMANDS * (COMMAND_BYTE_LEN + RECEIVE_LEN);

// Command bytes. Numbers, since running a block matches on the byte as it lies in the frame.
pub const OPEN: u8 = 1;

pub const CHANGE: u8 = 2;

pub const CLOSE: u8 = 3;

pub const EXECUTE: u8 = 4;

pub const RECEIVE: u8 = 5;
