//! A memory of bytes in slots.
ghost use Rattle.std.specs.Prelude.{◌≡◌, ◌<◌, slice_set};
ghost use Rattle.slots.specs.Prefixes.{prefix_value};
ghost use Rattle.image.specs.Memory.{Scan, cleared, past, slots, usable};

use slots::Prefix;
use slots::layout::SLOT_LEN;

/// How many slots of a memory are used at most. Bytes past them are not touched.
pub const MAX_SLOTS: usize = 600;

// The slots that are used.
pub(crate) fn slots(bytes: &[u8]) -> &[[u8; SLOT_LEN]]
    ensures { result.now ≡ slots bytes.now }
{
    let (slots, _) = bytes.as_chunks();
    &slots[..slots.len().min(MAX_SLOTS)]
}

// Writes zeros over all slots.
pub(crate) fn clear(bytes: &mut [u8])
    ensures { bytes.new ≡ cleared bytes.old }
{
    let end = slots(bytes).len() * SLOT_LEN;
    bytes[0..end].fill(0);
}

// Writes one slot over.
pub(crate) fn write_slot(bytes: &mut [u8], i: usize, slot: &[u8; SLOT_LEN])
    requires { i < usable bytes.old }
    ensures slots { slots bytes.new ≡ slice_set (slots bytes.old) i slot.now }
    ensures rest { past bytes.new ≡ past bytes.old }
{
    let at = i * SLOT_LEN;
    bytes[at..at + SLOT_LEN].copy_from_slice(slot);
}

/// The place of the first slot that begins with the prefix. Each slot is looked at once.
pub fn scan(bytes: &[u8], prefix: &Prefix) -> Option<usize>
    ensures { Scan (prefix_value prefix.now) bytes.now result }
{
    slots(bytes).iter().position(|slot| prefix.begins(slot))
}
