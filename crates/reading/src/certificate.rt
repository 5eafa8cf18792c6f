//! Certificates and their votes.
ghost use Rattle.std.specs.Prelude.{◌≡◌, ◌+◌, ◌*◌, ◌≤◌, length};
ghost use Rattle.reading.specs.FrameLayout.{max_seals, member_len};

use crate::part::Part;

pub mod methods;

const SEAL_COUNT_LEN: usize = 1;

const MEMBER_LEN: usize = 1;

/// The most seals that a certificate has.
pub const MAX_SEALS: u8 = 16;

/// A block, and `count` votes from the place `first` of the frame on, each a member number and a seal of
/// `width` bytes. They fill the frame.
#[derive(Clone, Copy)]
pub struct Certificate<'a> {
    pub block: Part<'a>,
    frame: &'a [u8],
    first: usize,
    count: u8,
    width: usize,
    ghost few: { count ≤ max_seals },
    ghost filled: { length frame.now ≡ first + count * (member_len + width) },
}

/// A member number and its seal.
#[derive(Clone, Copy)]
pub struct Vote<'a> {
    pub member: u8,
    pub seal: Part<'a>,
}
