//! Reading a certificate frame, and handing out its votes.
ghost use Rattle.std.specs.Prelude.{◌≡◌, if◌then◌else◌, Some, None, nat_lt};
ghost use Rattle.std.specs.Option.{option_map};
ghost use Rattle.reading.specs.Frames.{certificate_answer, certificate_in, vote_of, vote_value};

use super::{Certificate, MAX_SEALS, MEMBER_LEN, SEAL_COUNT_LEN, Vote};
use crate::frame::{BLOCK_AT, said_len};
use crate::part::{Part, ReadFault};
use seals::Seals;

/// The parts of a certificate frame under a scheme of seals.
pub fn read_certificate<'a, S: Seals>(frame: &'a [u8]) -> Result<Certificate<'a>, ReadFault>
    ensures { certificate_answer result ≡ certificate_in S.Seals.width frame.now }
{
    let Some(len) = said_len(frame, b"CERT") else {
        return Err(ReadFault::Frame);
    };
    let end = BLOCK_AT + len;
    if frame.len() < end + SEAL_COUNT_LEN {
        return Err(ReadFault::Frame);
    }
    let count = frame[end];
    if count > MAX_SEALS {
        return Err(ReadFault::Frame);
    }
    let first = end + SEAL_COUNT_LEN;
    let width = S::seal_len();
    if frame.len() - first != usize::from(count) * (MEMBER_LEN + width) {
        return Err(ReadFault::Frame);
    }
    let block = Part {
        at: BLOCK_AT,
        bytes: &frame[BLOCK_AT..end],
    };
    Ok(Certificate {
        block,
        frame,
        first,
        count,
        width,
    })
}

impl<'a> Certificate<'a> {
    /// The vote of that place, from 0, or none past the last.
    pub fn vote(&self, place: usize) -> Option<Vote<'a>>
        ensures { option_map vote_value result ≡ (if nat_lt place self.now.count then Some (vote_of self.now place) else None) }
    {
        if place >= usize::from(self.count) {
            return None;
        }
        let at = self.first + place * (MEMBER_LEN + self.width);
        let seal = at + MEMBER_LEN;
        let bytes = &self.frame[seal..seal + self.width];
        Some(Vote {
            member: self.frame[at],
            seal: Part { at: seal, bytes },
        })
    }
}
