//! Looking for a row in an image, putting and removing one.
ghost use Rattle.std.specs.Prelude.{◌≡◌};
ghost use Rattle.std.specs.Option.{option_map};
ghost use Rattle.format.specs.Meaning.{identifier_value};
ghost use Rattle.books.specs.Lists.{any};
ghost use Rattle.books.specs.Meaning.{entry_value};
ghost use Rattle.books.specs.Order.{Least};
ghost use Rattle.books.specs.Sides.{on};
ghost use Rattle.slots.specs.Cells.{free, held_and, look, minus_row, rows_of};
ghost use Rattle.slots.specs.Reading.{home_in, outgoing_part, row_in};
ghost use Rattle.slots.specs.Rows.{has_key, home, row_key};
ghost use Rattle.image.specs.Memory.{Encodes, FreeSlot, HoldsRow, Located, PutInto, RemovedFrom, SlotFor, cells, slots};
ghost use Rattle.image.specs.Waiting.{earlier_cell, on_side};

use super::Image;
use crate::memory::{scan, slots, write_slot};
use books::{Outgoing, Side, earlier_of};
use format::Identifier;
use slots::layout::SLOT_LEN;
use slots::{Prefix, SlotKey, decode_outgoing, home_of};

// Whether a slot begins with a chain on the side.
fn is_on_side(slot: &[u8; SLOT_LEN], side: Side) -> bool
    ensures { result ≡ on_side side (home_in slot.now) }
{
    home_of(slot).is_some_and(|chain| side.has(&chain))
}

// The earlier of a row and the outgoing row of a slot, where a chain on the side sent it.
#[tactic(auto, using(crate::proofs::Waits::earlier_is))]
fn earlier_in(best: Option<Outgoing>, slot: &[u8; SLOT_LEN], side: Side) -> Option<Outgoing>
    ensures { option_map entry_value result ≡ earlier_cell (on side) (option_map entry_value best) (outgoing_part (row_in slot.now)) }
{
    match decode_outgoing(slot) {
        Some(row) if side.has(&row.name.sender) => earlier_of(best, Some(row)),
        _ => best,
    }
}

impl<'a> Image<'a> {
    pub(super) fn slots(&self) -> &[[u8; SLOT_LEN]]
        ensures { result.now ≡ slots self.now.bytes.now }
    {
        slots(self.bytes)
    }

    // The place of the row with a key, of any kind.
    pub(super) fn locate<K: SlotKey>(&self, key: &K) -> Option<usize>
        ensures { Located (has_key (K.SlotKey.keyed key.now)) self.now.bytes.now result }
    {
        scan(self.bytes, &key.prefix())
    }

    // The slot of the row with a key.
    pub(super) fn slot_of<K: SlotKey>(&self, key: &K) -> Option<&[u8; SLOT_LEN]>
        ensures { HoldsRow (look (cells self.now.bytes.now) (K.SlotKey.keyed key.now)) (option_map (λ s. s.now) result) }
    {
        let i = self.locate(key)?;
        Some(&self.slots()[i])
    }

    // Whether a minus mark of the chain is held.
    pub(super) fn any_minus(&self, chain: &Identifier) -> bool
        ensures { result ≡ any (held_and (minus_row (identifier_value chain.now))) (cells self.now.bytes.now) }
    {
        scan(self.bytes, &Prefix::minus_of(chain)).is_some()
    }

    // The place of a free slot.
    fn free_slot(&self) -> Option<usize>
        ensures { FreeSlot self.now.bytes.now result }
    {
        scan(self.bytes, &Prefix::free())
    }

    // How many slots are free.
    pub(super) fn count_free(&self) -> usize
        ensures { result ≡ free (cells self.now.bytes.now) }
    {
        let free = Prefix::free();
        self.slots()
            .iter()
            .filter(|slot| free.begins(*slot))
            .count()
    }

    // Whether a row is of a chain on the side.
    pub(super) fn any_on_side(&self, side: Side) -> bool
        ensures { result ≡ any (held_and (λ v. on side (home (row_key v)))) (cells self.now.bytes.now) }
    {
        self.slots().iter().any(|slot| is_on_side(slot, side))
    }

    // The least of the outgoing rows that chains on the side sent.
    pub(super) fn least(&self, side: Side) -> Option<Outgoing>
        ensures { Least (rows_of (cells self.now.bytes.now)).outgoing_at (on side) (option_map entry_value result) }
    {
        let mut best = None;
        for slot in self.slots() {
            best = earlier_in(best, slot, side);
        }
        best
    }

    // Where the row with a key goes: in the slot of the one that has it, or else in a free one.
    fn slot_for<K: SlotKey>(&self, key: &K) -> Option<usize>
        ensures { SlotFor (K.SlotKey.keyed key.now) self.now.bytes.now result }
    {
        // Written out, since the proof does not learn what a closure in `or_else` answers.
        match self.locate(key) {
            Some(i) => Some(i),
            None => self.free_slot(),
        }
    }

    // Puts the slot of the row with a key in the place of the one that has it, or else into a
    // free slot; false where there is none.
    pub(super) fn put<K: SlotKey>(&mut self, key: &K, slot: &[u8; SLOT_LEN]) -> bool
        requires { Encodes (K.SlotKey.keyed key.now) slot.now }
        ensures change { PutInto self.old.bytes.now slot.now result self.new.bytes.now }
        ensures same_reference { self.new.bytes.ghost_name ≡ self.old.bytes.ghost_name }
    {
        let Some(i) = self.slot_for(key) else {
            return false;
        };
        write_slot(self.bytes, i, slot);
        true
    }

    // Removes the row with a key, if there is one: its slot is all zeros again.
    pub(super) fn remove<K: SlotKey>(&mut self, key: &K)
        ensures change { RemovedFrom self.old.bytes.now (K.SlotKey.keyed key.now) self.new.bytes.now }
        ensures same_reference { self.new.bytes.ghost_name ≡ self.old.bytes.ghost_name }
    {
        if let Some(i) = self.locate(key) {
            write_slot(self.bytes, i, &[0; SLOT_LEN]);
        }
    }
}
