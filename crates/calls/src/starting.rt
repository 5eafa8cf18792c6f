//! Starting books with the records of the roots.
ghost use Rattle.std.specs.Prelude.{◌≡◌, ◌+◌, ◌<◌, ◌≤◌, true, map, length};
ghost use Rattle.std.specs.List.{list_all, range_with_len};
ghost use Rattle.books.specs.Books.{Changed};
ghost use Rattle.books.specs.Counts.{counts};
ghost use Rattle.calls.specs.Roots.{keys_value};
ghost use Rattle.committee.specs.Meaning.{members_value};
ghost use Rattle.faults.specs.Refusals.{call_answer};
ghost use Rattle.protocol.specs.Execution.{key_allowed};
ghost use Rattle.protocol.specs.Calls.{Ends, max_roots, root_of, root_records, roots_allowed, roots_fit, start as spec_start};

use crate::records::new_record;
use applications::Application;
use books::{Books, NewRows, Side};
use committee::{Member, is_committee};
use faults::CallFault;
use format::layout::Number;
use format::{Digest, Identifier, Key};
use protocol::is_owner_key;

/// The most roots that books start with.
pub const MAX_ROOTS: usize = 64;

fn are_root_keys(members: &[Member], roots: &[Key]) -> bool
    ensures { result ≡ list_all (λ k. key_allowed (members_value members.now) k.0) roots.now }
{
    roots.iter().all(|root| is_owner_key(members, *root))
}

fn are_roots(members: &[Member], roots: &[Key]) -> bool
    ensures { result ≡ roots_allowed (members_value members.now) (keys_value roots.now) }
{
    !roots.is_empty() && roots.len() <= MAX_ROOTS && are_root_keys(members, roots)
}

// Whether the chain of each root fits as many records as there are roots.
fn roots_fit<B: Books>(books: &B, roots: &[Key]) -> bool
    requires { length roots.now ≤ max_roots }
    ensures { result ≡ list_all (λ k. (B.Books.meaning books.now).fits (root_of k) (counts (length roots.now) 0 0)) (range_with_len 0 (length roots.now)) }
{
    let new = NewRows {
        records: roots.len(),
        ..NewRows::NONE
    };
    (0..roots.len()).all(|place| books.fits(&Identifier::root(place as Number), new))
}

// Puts the record of each root.
fn put_roots<A: Application, B: Books>(books: &mut B, roots: &[Key])
    requires few { length roots.now ≤ max_roots }
    requires place { roots_fit (B.Books.meaning books.old) (length roots.now) 0 (keys_value roots.now) ≡ true }
    ensures change { Changed (B.Books.meaning books.old) (root_records A.Application.meaning 0 (keys_value roots.now)) (B.Books.meaning books.new) }
    ensures rest { B.Books.outside books.new ≡ B.Books.outside books.old }
{
    for (place, root) in roots.iter().enumerate() {
        let row = new_record::<A>(Identifier::root(place as Number), *root);
        let _ = books.put_record(row);
    }
}

/// Starts books that hold no row with the records of the roots: chain [0] with the first key as its owner's, [1] with the
/// second, and so on. Refusals: 21 for the committee, 22 for the roots, 23 where the books hold a row, 19 where the chain of
/// some root does not fit as many records as there are roots.
// The books change and the members do not, so they are not one struct.
pub fn start<A: Application, B: Books>(
    books: &mut B,
    members: &[Member],
    roots: &[Key],
) -> Result<Digest, CallFault>
    ensures change { Ends (spec_start (members_value members.now) A.Application.meaning (keys_value roots.now) (B.Books.meaning books.old)) (B.Books.meaning books.old) (call_answer result) (B.Books.meaning books.new) }
    ensures rest { B.Books.outside books.new ≡ B.Books.outside books.old }
{
    if !is_committee(members) {
        return Err(CallFault::Committee);
    }
    if !are_roots(members, roots) {
        return Err(CallFault::Roots);
    }
    if !books.is_blank(Side::All) {
        return Err(CallFault::NotBlank);
    }
    if !roots_fit(books, roots) {
        return Err(CallFault::NoPlace);
    }
    put_roots::<A, B>(books, roots);
    Ok(Digest::ZERO)
}
