//! New records.
ghost use Rattle.std.specs.Prelude.{◌≡◌};
ghost use Rattle.format.specs.Meaning.{identifier_value};
ghost use Rattle.books.specs.Meaning.{record_key, record_value};
ghost use Rattle.protocol.specs.Calls.{new_record};

use applications::Application;
use books::Record;
use format::{Digest, Height, Identifier, Key};

// The record of a chain that has no block.
pub(crate) fn new_record<A: Application>(chain: Identifier, owner: Key) -> Record
    ensures key { record_key result ≡ identifier_value chain }
    ensures value { record_value result ≡ new_record A.Application.meaning owner.0 }
{
    let (a, b) = A::start();
    Record {
        identifier: chain,
        owner,
        next: Height(0),
        last: Digest::ZERO,
        a,
        b,
        vote: None,
    }
}
