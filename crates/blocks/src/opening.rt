//! The block of a frame: its head and its digest.
ghost use Rattle.std.specs.Prelude.{◌≡◌, ◌+◌, ◌^◌, ◌<◌, length, MatchResult};
ghost use Rattle.format.specs.Meaning.{digest_value};
ghost use Rattle.format.specs.Outcomes.{Passed, Refused};
ghost use Rattle.format.specs.Values.{BlockValue};
ghost use Rattle.reading.specs.Blocks.{block_head_in, block_in};
ghost use Rattle.reading.specs.Parts.{head_value, read_refusal};
ghost use Rattle.protocol.specs.Reads.{block_digest};

use format::Digest;
use reading::{Head, Part, ReadFault, read_block};

/// A block that was read: where it lies in the frame, its head and its digest.
#[derive(Clone, Copy)]
pub struct Opened<'a> {
    pub block: Part<'a>,
    pub head: Head,
    pub digest: Digest,
    ghost read: { Passed (head_value head) ≡ block_head_in block.bytes.now },
    ghost digested: { (b : BlockValue) → block_in block.bytes.now ≡ Passed b → digest_value digest ≡ block_digest b },
    ghost place: { block.at + length block.bytes.now < 2 ^ 64 },
}

// The digest of a block as it lies in the frame.
fn digest_of(block: &[u8]) -> Digest
    ensures { (b : BlockValue) → block_in block.now ≡ Passed b → digest_value result ≡ block_digest b }
{
    Digest::of(block)
}

// Reads all of a block.
pub(crate) fn open_block<'a>(block: Part<'a>) -> Result<Opened<'a>, ReadFault>
    requires { block.at + length block.bytes.now < 2 ^ 64 }
    ensures { MatchResult result (λ o. o.block.bytes.now ≡ block.entry.bytes.now) (λ e. block_in block.entry.bytes.now ≡ Refused (read_refusal e)) }
{
    let head = read_block(block)?;
    Ok(Opened {
        block,
        head,
        digest: digest_of(block.bytes),
    })
}
