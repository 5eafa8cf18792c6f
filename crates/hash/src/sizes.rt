// The sizes of SHA-256 and HMAC.

/// The bytes of a block.
pub const BLOCK_LEN: usize = 64;

/// The bytes of a digest.
pub const DIGEST_LEN: usize = 32;

// The bytes of a word.
pub(crate) const WORD_LEN: usize = 4;

// The bytes of the length that ends a padded message.
pub(crate) const LENGTH_LEN: usize = 8;

// Where that length begins in the last block.
pub(crate) const LENGTH_AT: usize = BLOCK_LEN - LENGTH_LEN;

// The words of a block.
pub(crate) const BLOCK_WORDS: usize = 16;

// The words of a hash value.
pub(crate) const HASH_WORDS: usize = 8;

// The rounds of a compression.
pub(crate) const ROUNDS: usize = 64;

// The groups of rounds, each of as many as a block has words.
pub(crate) const ROUND_GROUPS: usize = ROUNDS / BLOCK_WORDS;

// The bits of a byte.
pub(crate) const BYTE_BITS: u64 = 8;

// The byte that begins the padding: the bit 1 and seven bits 0.
pub(crate) const FIRST_PAD: u8 = 0x80;

// The byte that the key is combined with for the inner hash of HMAC.
pub(crate) const IPAD: u8 = 0x36;

// The byte that the key is combined with for the outer hash of HMAC.
pub(crate) const OPAD: u8 = 0x5c;
