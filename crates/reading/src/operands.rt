//! The operands of a command, as one part that is cut into its fields.
ghost use Rattle.std.specs.Prelude.{◌≡◌, ◌+◌, ◌-◌, ◌^◌, ◌<◌, ◌≤◌, length, take, drop};
ghost use Rattle.reading.specs.Parts.{placed};

use crate::part::Part;

/// A part whose places are numbers of memory, to its end.
#[derive(Clone, Copy)]
pub struct Operands<'a> {
    pub part: Part<'a>,
    ghost fits: { part.at + length part.bytes.now < 2 ^ 64 },
}

impl<'a> Operands<'a> {
    // The bytes from one place of the operands to another.
    pub(crate) fn cut(self, from: usize, end: usize) -> Part<'a>
        requires { (from ≤ end) × (end ≤ length self.part.bytes.now) }
        ensures { placed result ≡ (self.entry.part.at + from, take (end - from) (drop from self.entry.part.bytes.now)) }
    {
        Part {
            at: self.part.at + from,
            bytes: &self.part.bytes[from..end],
        }
    }
}
