//! Rows with a key, and the one function that looks for a row by its key.
ghost use Rattle.std.specs.Prelude.{◌≡◌, Bool, Decides, MatchOption};
ghost use Rattle.format.specs.Meaning.{identifier_value};
ghost use Rattle.format.specs.Values.{IdentifierValue};
ghost use Rattle.books.specs.Lists.{Absent, Present, any};
ghost use Rattle.books.specs.Sides.{on};

use crate::side::Side;
use format::Identifier;

/// A row of books, which is looked for by a key.
pub trait Keyed {
    /// What a row is looked for by.
    type Key: Copy;

    // The value of a key, and when two of them are the same.
    ghost Label: { Type 0 };

    ghost label: { Self.Key → Label };

    ghost same: { Label → Label → Bool };

    // The key of a row.
    ghost named: { Self → Label };

    // The chain of the row with a key.
    ghost home: { Label → IdentifierValue };

    fn key(&self) -> Self::Key
        ensures { label result ≡ named self.now };

    fn chain(&self) -> Identifier
        ensures { identifier_value result ≡ home (named self.now) };

    fn has_key(&self, key: &Self::Key) -> bool
        ensures { result ≡ same (named self.now) (label key.now) };

    ghost decides: { (x y : Label) → Decides (same x y) (x ≡ y) };
}

/// The place of the first row that has the key.
pub fn locate<R: Keyed>(rows: &[R], key: &R::Key) -> Option<usize>
    ensures { MatchOption result (Absent R.Keyed.named R.Keyed.same rows.now (R.Keyed.label key.now)) (λ i. Present R.Keyed.named R.Keyed.same rows.now (R.Keyed.label key.now) i) }
{
    rows.iter().position(|row| row.has_key(key))
}

/// Whether a row is of a chain on the side.
pub fn any_on_side<R: Keyed>(rows: &[R], side: Side) -> bool
    ensures { result ≡ any (λ x. on side (R.Keyed.home (R.Keyed.named x))) rows.now }
{
    rows.iter().any(|row| side.has(&row.chain()))
}
