//! The rows that stand where no row is held.
ghost use Rattle.std.specs.Prelude.{◌≡◌};
ghost use Rattle.format.specs.Meaning.{name_value};
ghost use Rattle.books.specs.Blanks.{blank_entry, blank_mark, blank_name, blank_record};
ghost use Rattle.books.specs.Meaning.{entry_value, mark_value, record_row};

use crate::rows::{Load, Mark, Outgoing, Record, Sign};
use format::layout::DIGEST_LEN;
use format::{Digest, Height, Identifier, Key, Message, Name};

fn blank_name() -> Name
    ensures { name_value result ≡ blank_name }
{
    Name {
        sender: Identifier::root(0),
        height: Height(0),
        index: 0,
    }
}

impl Record {
    /// A record with zeros in all fields.
    pub fn blank() -> Record
        ensures { record_row result ≡ blank_record }
    {
        Record {
            identifier: Identifier::root(0),
            owner: Key(0),
            next: Height(0),
            last: Digest {
                bytes: [0; DIGEST_LEN],
            },
            a: 0,
            b: 0,
            vote: None,
        }
    }
}

impl Mark {
    /// A mark with zeros in all fields.
    pub fn blank() -> Mark
        ensures { mark_value result ≡ blank_mark }
    {
        Mark {
            target: Identifier::root(0),
            message: Message {
                name: blank_name(),
                code: 0,
                value: 0,
            },
            sign: Sign::Plus,
        }
    }
}

impl Outgoing {
    /// An outgoing row with zeros in all fields.
    pub fn blank() -> Outgoing
        ensures { entry_value result ≡ blank_entry }
    {
        Outgoing {
            name: blank_name(),
            target: Identifier::root(0),
            load: Load::Opening { key: Key(0) },
        }
    }
}

impl Default for Outgoing {
    ghost is_default = { λ row. entry_value row ≡ blank_entry };

    fn default() -> Outgoing {
        Outgoing::blank()
    }
}
