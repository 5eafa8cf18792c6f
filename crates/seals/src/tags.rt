//! Tag seals: HMAC-SHA-256 of the digest under the key's secret.
ghost use Rattle.std.specs.Prelude.{◌≡◌};
ghost use Rattle.std.specs.Str.{bytes_eq};
ghost use Rattle.seals.specs.Tags.{secret_of, tag_holds, tag_laws, tag_width};

use crate::Seals;
use format::{Digest, Key};
use hash::DIGEST_LEN;

/// The bytes of a secret.
pub const SECRET_LEN: usize = 32;
/// The bytes of a tag.
pub const TAG_LEN: usize = DIGEST_LEN;

/// The secret that the holder of a key shares.
#[derive(Clone, Copy)]
pub struct Secret {
    pub key: Key,
    pub secret: [u8; SECRET_LEN],
}

/// Tag seals by a book of secrets. The first secret of a key counts.
#[derive(Clone, Copy)]
pub struct Tags<'a> {
    pub book: &'a [Secret],
}

// The first secret of the key.
fn find_secret(book: &[Secret], key: Key) -> Option<[u8; SECRET_LEN]>
    ensures { result ≡ secret_of book.now key.0 }
{
    let entry = book.iter().find(|entry| entry.key == key)?;
    Some(entry.secret)
}

// Whether a seal is the tag. It takes the same steps whatever the bytes are.
fn is_tag(seal: &[u8], tag: &[u8; TAG_LEN]) -> bool
    ensures { result ≡ bytes_eq seal.now tag.now }
{
    if seal.len() != TAG_LEN {
        return false;
    }
    let mut difference = 0;
    for (x, y) in seal.iter().zip(tag) {
        difference |= x ^ y;
    }
    difference == 0
}

impl Seals for Tags<'_> {
    const WIDTH: usize = TAG_LEN;

    ghost width = { tag_width };

    ghost holds = { tag_holds };

    ghost laws = { tag_laws };

    fn seal_len() -> usize
        ensures { result ≡ tag_width }
    {
        Self::WIDTH
    }

    fn verify(&self, key: Key, digest: &Digest, seal: &[u8]) -> bool {
        match find_secret(self.book, key) {
            Some(secret) => is_tag(seal, &hash::hmac(&secret, &digest.bytes)),
            None => false,
        }
    }
}
