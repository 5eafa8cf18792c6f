//! Request frames.
ghost use Rattle.std.specs.Prelude.{◌≡◌, if◌then◌else◌, Some, None};
ghost use Rattle.reading.specs.Frames.{begins, block_len, request_answer, request_in};

use crate::part::{Part, ReadFault};
use format::layout::MAX_BLOCK_LEN;
use seals::Seals;

pub(crate) const MARKER_LEN: usize = 4;

pub(crate) const LENGTH_LEN: usize = 2;

pub(crate) const BLOCK_AT: usize = MARKER_LEN + LENGTH_LEN;

/// A block and its owner's seal.
#[derive(Clone, Copy)]
pub struct Request<'a> {
    pub block: Part<'a>,
    pub seal: Part<'a>,
}

// The length of the block in a frame that begins with the letters, or none where it does not begin so or the
// block would be too long.
pub(crate) fn said_len(frame: &[u8], marker: &[u8; MARKER_LEN]) -> Option<usize>
    ensures { result ≡ (if begins marker.now frame.now then Some (block_len frame.now) else None) }
{
    if !frame.starts_with(marker) || frame.len() < BLOCK_AT {
        return None;
    }
    let len = usize::from(u16::from_be_bytes(*frame[MARKER_LEN..].first_chunk()?));
    if len > MAX_BLOCK_LEN {
        return None;
    }
    Some(len)
}

/// The parts of a request frame under a scheme of seals.
pub fn read_request<'a, S: Seals>(frame: &'a [u8]) -> Result<Request<'a>, ReadFault>
    ensures { request_answer result ≡ request_in S.Seals.width frame.now }
{
    let Some(len) = said_len(frame, b"AUTH") else {
        return Err(ReadFault::Frame);
    };
    let end = BLOCK_AT + len;
    if frame.len() < end {
        return Err(ReadFault::Frame);
    }
    if frame.len() - end != S::seal_len() {
        return Err(ReadFault::Frame);
    }
    Ok(Request {
        block: Part {
            at: BLOCK_AT,
            bytes: &frame[BLOCK_AT..end],
        },
        seal: Part {
            at: end,
            bytes: &frame[end..],
        },
    })
}
