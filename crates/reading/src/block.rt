//! Reading a block.
ghost use Rattle.std.specs.Prelude.{◌≡◌};
ghost use Rattle.std.specs.Option.{option_map};
ghost use Rattle.reading.specs.Blocks.{block_head_in, head_in};
ghost use Rattle.reading.specs.Parts.{head_answer, head_value};
ghost use Rattle.reading.specs.RoundTrip.{RoundTrip};

use crate::cursor::Cursor;
use crate::fields::read_identifier;
use crate::part::{Part, ReadFault};
use format::layout::{DIGEST_LEN, HEAD_LEN, HEIGHT_LEN, IDENTIFIER_LEN};
use format::{Digest, Height, Identifier, head_is_allowed};

const PREVIOUS_AT: usize = IDENTIFIER_LEN + HEIGHT_LEN;

const COUNT_AT: usize = PREVIOUS_AT + DIGEST_LEN;

/// What stands before the commands of a block.
#[derive(Clone, Copy)]
pub struct Head {
    pub chain: Identifier,
    pub height: Height,
    pub previous: Digest,
    pub count: u8,
}

// The head at the front of the bytes, or none.
fn read_head(bytes: &[u8]) -> Option<Head>
    ensures { option_map head_value result ≡ head_in bytes.now }
{
    if bytes.len() < HEAD_LEN {
        return None;
    }
    let height = Height::from_bytes(*bytes[IDENTIFIER_LEN..].first_chunk()?);
    let previous = Digest {
        bytes: *bytes[PREVIOUS_AT..].first_chunk()?,
    };
    let count = bytes[COUNT_AT];
    if !head_is_allowed(height, &previous, usize::from(count)) {
        return None;
    }
    let chain = read_identifier(&bytes[..IDENTIFIER_LEN])?;
    Some(Head {
        chain,
        height,
        previous,
        count,
    })
}

/// The head of the block that the part is, where all of it can be read.
pub fn read_block(block: Part) -> Result<Head, ReadFault>
    ensures answer { head_answer result ≡ block_head_in block.entry.bytes.now }
    ensures trip { RoundTrip }
{
    let Some(head) = read_head(block.bytes) else {
        return Err(ReadFault::Block);
    };
    let mut cursor = Cursor::new(
        Part {
            at: 0,
            bytes: block.bytes,
        },
        head.count,
    );
    while let Some(_) = cursor.next()? {}
    Ok(head)
}
