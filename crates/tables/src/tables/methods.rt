//! The questions and changes of books, each asked of its table.
ghost use Rattle.std.specs.Prelude.{◌≡◌, drop};
ghost use Rattle.books.specs.Listed.{Lists, lists};
ghost use Rattle.tables.specs.Limits.{max_rows};
ghost use Rattle.tables.specs.Meaning.{GivenBack, cleared_value, memory_value, no_rows, rows_past, slices, tables_laws, tables_value};

use super::Tables;
use crate::table::Table;
use books::{Books, Mark, NewRows, Outgoing, Record, Side};
use format::{Identifier, Name};

/// The slices that tables were made in.
#[derive(Drop)]
pub struct Slices<'a> {
    pub records: &'a mut [Record],
    pub marks: &'a mut [Mark],
    pub outgoing: &'a mut [Outgoing],
}

impl<'a> Tables<'a> {
    /// Books with no row, in three slices whose rows up to the limit are then blank.
    pub fn new(
        records: &'a mut [Record],
        marks: &'a mut [Mark],
        outgoing: &'a mut [Outgoing],
    ) -> Tables<'a>
        ensures meaning { tables_value result ≡ no_rows (lists records.old marks.old outgoing.old) }
        ensures memory { memory_value (slices result) ≡ cleared_value (memory_value (lists records.old marks.old outgoing.old)) }
        ensures rest { rows_past result ≡ lists (drop max_rows records.old) (drop max_rows marks.old) (drop max_rows outgoing.old) }
    {
        Tables {
            records: Table::new(records, Record::blank()),
            marks: Table::new(marks, Mark::blank()),
            outgoing: Table::new(outgoing, Outgoing::blank()),
        }
    }

    /// Gives the three slices back.
    pub fn into_slices(self) -> Slices<'a>
        ensures { GivenBack self.entry (lists result.records.now result.marks.now result.outgoing.now) }
    {
        let Tables {
            records,
            marks,
            outgoing,
        } = self;
        Slices {
            records: records.into_rows(),
            marks: marks.into_rows(),
            outgoing: outgoing.into_rows(),
        }
    }
}

impl<'a> Books for Tables<'a> {
    ghost meaning = { tables_value };

    ghost laws = { tables_laws };

    ghost Outside = { Lists };

    ghost outside = { rows_past };

    fn record(&self, chain: &Identifier) -> Option<Record> {
        self.records.find(chain)
    }

    fn has_mark(&self, mark: &Mark) -> bool {
        self.marks.find(mark).is_some()
    }

    fn has_minus(&self, chain: &Identifier) -> bool {
        self.marks.any_minus(chain)
    }

    fn outgoing(&self, name: &Name) -> Option<Outgoing> {
        self.outgoing.find(name)
    }

    fn fits(&self, chain: &Identifier, new: NewRows) -> bool {
        new.records <= self.records.room()
            && new.marks <= self.marks.room()
            && new.outgoing <= self.outgoing.room()
    }

    fn is_blank(&self, side: Side) -> bool {
        !self.records.any(side) && !self.marks.any(side) && !self.outgoing.any(side)
    }

    fn least_outgoing(&self, side: Side) -> Option<Outgoing> {
        self.outgoing.least(side)
    }

    fn put_record(&mut self, row: Record) -> bool {
        self.records.put(row)
    }

    fn put_mark(&mut self, row: Mark) -> bool {
        self.marks.put(row)
    }

    fn put_outgoing(&mut self, row: Outgoing) -> bool {
        self.outgoing.put(row)
    }

    fn remove_record(&mut self, chain: &Identifier) {
        self.records.remove(chain);
    }

    fn remove_mark(&mut self, mark: &Mark) {
        self.marks.remove(mark);
    }

    fn remove_outgoing(&mut self, name: &Name) {
        self.outgoing.remove(name);
    }
}
