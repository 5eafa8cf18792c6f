//! List seals: the number of a row that the site's signing module has checked.
ghost use Rattle.std.specs.Prelude.{◌≡◌};
ghost use Rattle.format.specs.Meaning.{digest_value};
ghost use Rattle.seals.specs.Lists.{list_holds, list_laws, list_width, row_is};

use crate::Seals;
use format::{Digest, Key};

/// The bytes of a row number.
pub const ROW_LEN: usize = 4;

/// A key and a digest that the signing module has found to belong together.
#[derive(Clone, Copy)]
pub struct Checked {
    pub key: Key,
    pub digest: Digest,
}

/// List seals by the rows that were checked.
#[derive(Clone, Copy)]
pub struct CheckedList<'a> {
    pub rows: &'a [Checked],
}

// Whether the row is of this key and digest.
fn is_checked(row: &Checked, key: Key, digest: &Digest) -> bool
    ensures { result ≡ row_is row.now key.0 (digest_value digest.now) }
{
    row.key == key && row.digest == *digest
}

impl Seals for CheckedList<'_> {
    const WIDTH: usize = ROW_LEN;

    ghost width = { list_width };

    ghost holds = { list_holds };

    ghost laws = { list_laws };

    fn seal_len() -> usize
        ensures { result ≡ list_width }
    {
        Self::WIDTH
    }

    fn verify(&self, key: Key, digest: &Digest, seal: &[u8]) -> bool {
        let Ok(place) = <[u8; ROW_LEN]>::try_from(seal) else {
            return false;
        };
        match self.rows.get(u32::from_be_bytes(place) as usize) {
            Some(row) => is_checked(row, key, digest),
            None => false,
        }
    }
}
