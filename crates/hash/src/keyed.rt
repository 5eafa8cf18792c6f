// The parts of HMAC.
ghost use Rattle.std.specs.Prelude.{◌≡◌, ◌++◌};
ghost use Rattle.hash.specs.Sha256.{sha256_of};
ghost use Rattle.hash.specs.Hmac.{key_block, xor_each};

use crate::block::{compress, put};
use crate::digest::{INITIAL, digest_from};
use crate::sha256;
use crate::sizes::{BLOCK_LEN, DIGEST_LEN};

// A key as one block: one that is longer is hashed first.
pub(crate) fn key_block(key: &[u8]) -> [u8; BLOCK_LEN]
    ensures { result ≡ key_block key.now }
{
    let mut block = [0; BLOCK_LEN];
    if key.len() > BLOCK_LEN {
        put(&mut block, 0, &sha256(key));
    } else {
        put(&mut block, 0, key);
    }
    block
}

// Each byte of a block, xored with one byte.
fn xored(block: &[u8; BLOCK_LEN], pad: u8) -> [u8; BLOCK_LEN]
    ensures { result ≡ xor_each pad block.now }
{
    let mut out = *block;
    for byte in &mut out {
        *byte ^= pad;
    }
    out
}

// The digest of a key's block, xored with a byte, and of bytes after it.
pub(crate) fn keyed_digest(block: &[u8; BLOCK_LEN], pad: u8, rest: &[u8]) -> [u8; DIGEST_LEN]
    ensures { result ≡ sha256_of (xor_each pad block.now ++ rest.now) }
{
    let mut hash = INITIAL;
    compress(&mut hash, &xored(block, pad));
    digest_from(hash, BLOCK_LEN as u64, rest)
}
