//! Parts of the caller's bytes, and why bytes are not read.
ghost use Rattle.std.specs.Prelude.{◌≡◌};
ghost use Rattle.format.specs.Meaning.{refusal_value};
ghost use Rattle.reading.specs.Parts.{read_refusal};

use format::Refusal;
use thiserror::Error;

/// Bytes of a frame, and where the first of them stands in it.
#[derive(Clone, Copy)]
pub struct Part<'a> {
    pub at: usize,
    pub bytes: &'a [u8],
}

/// Why bytes are not read.
#[derive(Clone, Copy, PartialEq, Eq, Debug, Error)]
pub enum ReadFault {
    #[error("the frame's letters, lengths or seal count are wrong, or its block is too long")]
    Frame,
    #[error("the block's head is cut short or outside its rules, or bytes are left over")]
    Block,
    /// By the command's place.
    #[error("command {0} is missing or unknown, or its operands are cut short or outside their rules")]
    Command(usize),
}

impl From<ReadFault> for Refusal {
    ghost from_gives = { λ fault gives. refusal_value gives ≡ read_refusal fault };

    fn from(fault: ReadFault) -> Refusal {
        match fault {
            ReadFault::Frame => Refusal::numbered(1),
            ReadFault::Block => Refusal::numbered(2),
            ReadFault::Command(place) => Refusal::at(3, place),
        }
    }
}
