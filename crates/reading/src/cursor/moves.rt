//! Where a cursor begins, and how it moves on.
ghost use Rattle.std.specs.Prelude.{◌≡◌};
ghost use Rattle.reading.specs.Cursors.{Moved, begun, cursor_value};

use super::Cursor;
use crate::command::{CommandPart, read_command};
use crate::part::{Part, ReadFault};
use format::layout::{COMMAND_BYTE_LEN, HEAD_LEN};

impl<'a> Cursor<'a> {
    /// At the first of `count` commands, which follow the head of the block.
    pub fn new(block: Part<'a>, count: u8) -> Cursor<'a>
        ensures { cursor_value result ≡ begun block.entry.at block.entry.bytes.now count }
    {
        if block.bytes.len() < HEAD_LEN || block.at > usize::MAX - block.bytes.len() {
            return Cursor {
                rest: &[],
                at: 0,
                place: 0,
                left: 0,
            };
        }
        Cursor {
            rest: &block.bytes[HEAD_LEN..],
            at: block.at + HEAD_LEN,
            place: 0,
            left: count,
        }
    }

    /// The next command as it lies in the frame, or none after the last. After a refusal the cursor stands where it stood.
    // No `Iterator`: one over results would have to end after a refusal, and keep that it came.
    pub fn next(&mut self) -> Result<Option<CommandPart<'a>>, ReadFault>
        ensures { Moved (cursor_value self.old) (cursor_value self.new) result }
    {
        let rest = self.rest;
        if self.left == 0 {
            if rest.len() > 0 {
                return Err(ReadFault::Block);
            }
            return Ok(None);
        }
        let Some(command) = read_command(rest, self.at) else {
            return Err(ReadFault::Command(self.place));
        };
        let len = COMMAND_BYTE_LEN + command.operands.bytes.len();
        self.rest = &rest[len..];
        self.at += len;
        self.place += 1;
        self.left -= 1;
        Ok(Some(command))
    }
}
