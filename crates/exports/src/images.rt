//! Looking for a record in a memory of slots.
ghost use Rattle.std.specs.Prelude.{[], ◌∷◌};
ghost use Rattle.slots.specs.Prefixes.{key_prefix};
ghost use Rattle.slots.specs.Rows.{by_identifier};
ghost use Rattle.image.specs.Memory.{Scan};
ghost use Rattle.exports.specs.Places.{place};

use format::Identifier;
use image::{MAX_SLOTS, scan};
use slots::SlotKey;

/// The place of the first slot with the record of a chain of one number, or `MAX_SLOTS` where
/// there is none, since C has no `Option`.
#[unsafe(no_mangle)]
pub extern "C" fn limedistaff_image_find(memory: &[u8], number: u16) -> usize
    ensures { Scan (key_prefix (by_identifier (number ∷ []))) memory.now (place result) }
{
    scan(memory, &Identifier::root(number).prefix()).unwrap_or(MAX_SLOTS)
}
