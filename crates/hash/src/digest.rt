// The digest of a message: its blocks, its padding, and the bytes of the last hash value.
ghost use Rattle.std.specs.Prelude.{◌≡◌, ◌+◌, ◌%◌, ◌++◌, length, fold};
ghost use Rattle.std.specs.List.{flat_map};
ghost use Rattle.hash.specs.Sizes.{block_len};
ghost use Rattle.hash.specs.Words.{word_bytes};
ghost use Rattle.hash.specs.Sha256.{compressed, hashed, padding};

use crate::block::{compress, put};
use crate::sizes::{BLOCK_LEN, BYTE_BITS, DIGEST_LEN, FIRST_PAD, HASH_WORDS, LENGTH_AT, WORD_LEN};

// The hash value before the first block.
pub(crate) const INITIAL: [u32; HASH_WORDS] = [
    0x6a09e667, 0xbb67ae85, 0x3c6ef372, 0xa54ff53a, 0x510e527f, 0x9b05688c, 0x1f83d9ab, 0x5be0cd19,
];

// Compresses blocks into a hash value, one after the other.
pub(crate) fn compress_blocks(hash: &mut [u32; HASH_WORDS], blocks: &[[u8; BLOCK_LEN]])
    ensures { hash.new ≡ fold compressed hash.old blocks.now }
{
    for block in blocks {
        compress(hash, block);
    }
}

// Compresses what follows the whole blocks of a message of `count` bytes: its other bytes and the padding.
pub(crate) fn compress_last(hash: &mut [u32; HASH_WORDS], rest: &[u8], count: u64)
    requires { length rest.now ≡ count % block_len }
    ensures { hash.new ≡ hashed hash.old (rest.now ++ padding count) }
{
    let mut block = [0; BLOCK_LEN];
    put(&mut block, 0, rest);
    block[rest.len()] = FIRST_PAD;
    if rest.len() >= LENGTH_AT {
        compress(hash, &block);
        block = [0; BLOCK_LEN];
    }
    put(
        &mut block,
        LENGTH_AT,
        &count.wrapping_mul(BYTE_BITS).to_be_bytes(),
    );
    compress(hash, &block);
}

// The bytes of a hash value.
pub(crate) fn digest_bytes(hash: &[u32; HASH_WORDS]) -> [u8; DIGEST_LEN]
    ensures { result ≡ flat_map word_bytes hash.now }
{
    let words = hash.map(u32::to_be_bytes);
    let mut out = [0; DIGEST_LEN];
    out.copy_from_slice(words.as_flattened());
    out
}

// The digest of a message whose first `before` bytes, in whole blocks, led to `hash`, and whose others are `rest`.
pub(crate) fn digest_from(mut hash: [u32; HASH_WORDS], before: u64, rest: &[u8]) -> [u8; DIGEST_LEN]
    requires { before % block_len ≡ 0 }
    ensures { result ≡ flat_map word_bytes (hashed hash (rest.now ++ padding (before + length rest.now))) }
{
    let (blocks, last) = rest.as_chunks::<BLOCK_LEN>();
    compress_blocks(&mut hash, blocks);
    compress_last(&mut hash, last, before.wrapping_add(rest.len() as u64));
    digest_bytes(&hash)
}
