//! Digests.
ghost use Rattle.std.specs.Prelude.{◌≡◌};
ghost use Rattle.hash.specs.Sha256.{sha256_of};
ghost use Rattle.format.specs.Meaning.{digest_value};
ghost use Rattle.format.specs.Same.{same_digest};

use crate::layout::DIGEST_LEN;
use std::fmt;

/// A SHA-256 digest.
#[derive(Clone, Copy, PartialEq, Eq, Debug)]
pub struct Digest {
    pub bytes: [u8; DIGEST_LEN],
}

impl Digest {
    /// All zero: what stands where there is no block.
    pub const ZERO: Digest = Digest {
        bytes: [0; DIGEST_LEN],
    };

    /// The digest of a block: SHA-256 over its bytes alone.
    pub fn of(block: &[u8]) -> Digest
        ensures value { digest_value result ≡ sha256_of block.now }
        ensures equality { (x y : Digest) → ⟦<Digest as PartialEq>⟧.eq x y ≡ same_digest (digest_value x) (digest_value y) }
    {
        Digest {
            bytes: hash::sha256(block),
        }
    }
}

impl fmt::Display for Digest {
    // In lowercase hexadecimal.
    fn fmt<W: fmt::Write>(&self, f: &mut fmt::Formatter<W>) -> fmt::Result {
        for byte in &self.bytes {
            write!(f, "{byte:02x}")?;
        }
        Ok(())
    }
}
