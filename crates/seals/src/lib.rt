//! Seals: what shows that the holder of a key vouches for a digest.
#![tactic(auto)]

ghost use Rattle.std.specs.Prelude.{◌≡◌, ℕ};
ghost use Rattle.format.specs.Meaning.{digest_value};
ghost use Rattle.seals.specs.Meaning.{Holds, Laws};

use format::{Digest, Key};

mod lists;
mod tags;

pub use lists::{Checked, CheckedList};
pub use tags::{SECRET_LEN, Secret, Tags};

/// A scheme of seals. Its meaning is a set of triples of a key, a digest and a seal.
pub trait Seals {
    /// How many bytes a seal has, from 1 to 2,000.
    const WIDTH: usize;

    // `WIDTH`, by the name that contracts of generic code can cite. A `ghost WIDTH` beside the constant is refused in an impl
    // for a type with a lifetime: "cannot give this method the clauses of its trait yet".
    ghost width: { ℕ };

    // The triples that the scheme holds.
    ghost holds: { Self → Holds };

    ghost laws: { Laws width holds };

    /// `WIDTH`.
    fn seal_len() -> usize
        ensures { result ≡ width };

    /// Whether the scheme holds the triple.
    fn verify(&self, key: Key, digest: &Digest, seal: &[u8]) -> bool
        ensures { result ≡ holds self.now key.0 (digest_value digest.now) seal.now };
}
