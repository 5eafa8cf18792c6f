//! The questions and changes of books, each asked of the slots.
ghost use Rattle.std.specs.Prelude.{◌≡◌, ℕ, List};
ghost use Rattle.std.specs.Borrow.{GName};
ghost use Rattle.image.specs.Meaning.{GivenBack, bytes_of, bytes_past, image_laws, image_value, lender, no_rows};
ghost use Rattle.image.specs.Memory.{cleared, past, usable};

use super::Image;
use crate::memory::clear;
use books::{Books, Mark, NewRows, Outgoing, Record, Side};
use format::{Identifier, Name};
use slots::{decode_outgoing, decode_record, encode_mark, encode_outgoing, encode_record};

impl<'a> Image<'a> {
    /// Books with no row, in a memory whose slots up to the limit are then all zeros. What the
    /// books leave in it is what the lender has when the loan ends.
    pub fn new(bytes: &'a mut [u8]) -> Image<'a>
        ensures meaning { image_value result ≡ no_rows (usable bytes.old) }
        ensures memory { bytes_of result ≡ cleared bytes.old }
        ensures rest { bytes_past result ≡ past bytes.old }
        ensures same_reference { lender result ≡ bytes.entry.ghost_name }
    {
        clear(bytes);
        Image { bytes }
    }

    /// Gives the memory back.
    pub fn into_bytes(self) -> &'a mut [u8]
        ensures given { GivenBack self.entry result.now }
        ensures same_reference { result.ghost_name ≡ lender self.entry }
    {
        self.bytes
    }
}

impl<'a> Books for Image<'a> {
    ghost meaning = { image_value };

    ghost laws = { image_laws };

    ghost Outside = { List ℕ × GName };

    ghost outside = { λ m. (bytes_past m, lender m) };

    fn record(&self, chain: &Identifier) -> Option<Record> {
        decode_record(self.slot_of(chain)?)
    }

    fn has_mark(&self, mark: &Mark) -> bool {
        self.locate(mark).is_some()
    }

    fn has_minus(&self, chain: &Identifier) -> bool {
        self.any_minus(chain)
    }

    fn outgoing(&self, name: &Name) -> Option<Outgoing> {
        decode_outgoing(self.slot_of(name)?)
    }

    fn fits(&self, chain: &Identifier, new: NewRows) -> bool {
        let free = self.count_free();
        new.records <= free
            && new.marks <= free - new.records
            && new.outgoing <= free - new.records - new.marks
    }

    fn is_blank(&self, side: Side) -> bool {
        !self.any_on_side(side)
    }

    fn least_outgoing(&self, side: Side) -> Option<Outgoing> {
        self.least(side)
    }

    fn put_record(&mut self, row: Record) -> bool {
        self.put(&row.identifier, &encode_record(&row))
    }

    fn put_mark(&mut self, row: Mark) -> bool {
        self.put(&row, &encode_mark(&row))
    }

    fn put_outgoing(&mut self, row: Outgoing) -> bool {
        self.put(&row.name, &encode_outgoing(&row))
    }

    fn remove_record(&mut self, chain: &Identifier) {
        self.remove(chain);
    }

    fn remove_mark(&mut self, mark: &Mark) {
        self.remove(mark);
    }

    fn remove_outgoing(&mut self, name: &Name) {
        self.remove(name);
    }
}
