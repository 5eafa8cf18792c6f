//! The bytes of a row.
ghost use Rattle.std.specs.Prelude.{◌≡◌, ◌+◌, ◌^◌, ◌<◌, ◌≤◌, length, FitsSigned};
ghost use Rattle.std.specs.Int.{w64};
ghost use Rattle.std.specs.Option.{option_map};
ghost use Rattle.format.specs.Bytes.{message_bytes, name_bytes};
ghost use Rattle.format.specs.Layout.{code_len, digest_len, height_len, key_len, name_len, receive_len, value_len};
ghost use Rattle.format.specs.Meaning.{digest_value, message_value, name_value};
ghost use Rattle.format.specs.Numbers.{signed_bytes, to_bytes};
ghost use Rattle.books.specs.Meaning.{load_value, mark_value};
ghost use Rattle.slots.specs.Bytes.{load_bytes, row_bytes, vote_bytes};
ghost use Rattle.slots.specs.Layout.{max_prefix_len, slot_len, vote_byte_len};
ghost use Rattle.slots.specs.Meaning.{held_mark, held_outgoing, held_record};
ghost use Rattle.slots.specs.Prefixes.{mark_key_bytes};
ghost use Rattle.slots.specs.RoundTrip.{LoadFits, MarkFits, MessageFits, NameFits, RowFits, RowsReadBack, VoteFits};
ghost use Rattle.slots.specs.Written.{Adds, contents};

use crate::kind::Kind;
use crate::layout::{SLOT_LEN, VOTE_BYTE_LEN, VOTED};
use crate::writer::Writer;
use books::{Load, Mark, Outgoing, Record};
use format::layout::DIGEST_LEN;
use format::{Digest, value_to_bytes};

// A mark's target and message.
pub(crate) fn add_mark<const N: usize>(writer: &mut Writer<N>, mark: &Mark)
    requires { length (contents writer.old) + max_prefix_len ≤ N }
    ensures wrote { Adds writer.old (mark_key_bytes (mark_value mark.now)) writer.new }
    ensures fits { MarkFits (mark_value mark.now) }
{
    writer.add(&mark.target.to_bytes());
    writer.add(&mark.message.to_bytes());
}

// A byte 1 before the voted digest, or zeros for none.
fn add_vote(slot: &mut Writer<SLOT_LEN>, vote: Option<Digest>)
    requires { length (contents slot.old) + (vote_byte_len + digest_len) ≤ slot_len }
    ensures wrote { Adds slot.old (vote_bytes (option_map digest_value vote)) slot.new }
    ensures fits { VoteFits (option_map digest_value vote) }
{
    match vote {
        Some(digest) => {
            slot.add(&[VOTED]);
            slot.add(&digest.bytes);
        }
        None => slot.add(&[0; VOTE_BYTE_LEN + DIGEST_LEN]),
    }
}

// An opening's key, or a message's code and value.
fn add_load(slot: &mut Writer<SLOT_LEN>, load: Load)
    requires { length (contents slot.old) + (code_len + value_len) ≤ slot_len }
    ensures wrote { Adds slot.old (load_bytes (load_value load)) slot.new }
    ensures fits { LoadFits (load_value load) }
{
    match load {
        Load::Opening { key } => slot.add(&key.to_bytes()),
        Load::Sent { code, value } => {
            slot.add(&[code]);
            slot.add(&value_to_bytes(value));
        }
    }
}

/// The slot of a record.
#[tactic(auto, using(crate::proofs::Backs::rows_read_back))]
pub fn encode_record(row: &Record) -> [u8; SLOT_LEN]
    ensures bytes { result ≡ row_bytes (held_record row.now) }
    ensures fits { RowFits (held_record row.now) }
    ensures back { RowsReadBack }
{
    let Record { a, b, .. } = *row;
    let mut slot = Writer::new();
    slot.add(&[Kind::Record as u8]);
    slot.add(&row.identifier.to_bytes());
    slot.add(&row.owner.to_bytes());
    slot.add(&row.next.to_bytes());
    slot.add(&row.last.bytes);
    slot.add(&value_to_bytes(a));
    slot.add(&value_to_bytes(b));
    add_vote(&mut slot, row.vote);
    slot.into_bytes()
}

/// The slot of a mark.
#[tactic(auto, using(crate::proofs::Backs::rows_read_back), unfolding(crate::specs::Bytes::mark_bytes))]
pub fn encode_mark(row: &Mark) -> [u8; SLOT_LEN]
    ensures bytes { result ≡ row_bytes (held_mark row.now) }
    ensures fits { RowFits (held_mark row.now) }
    ensures back { RowsReadBack }
{
    let mut slot = Writer::new();
    slot.add(&[Kind::from(row.sign).into()]);
    add_mark(&mut slot, row);
    slot.into_bytes()
}

/// The slot of an outgoing row.
#[tactic(auto, using(crate::proofs::Backs::rows_read_back, format::proofs::Lengths::length_name), unfolding(crate::specs::Bytes::outgoing_bytes))]
pub fn encode_outgoing(row: &Outgoing) -> [u8; SLOT_LEN]
    ensures bytes { result ≡ row_bytes (held_outgoing row.now) }
    ensures fits { RowFits (held_outgoing row.now) }
    ensures back { RowsReadBack }
{
    let mut slot = Writer::new();
    slot.add(&[Kind::from(row.load).into()]);
    slot.add(&row.name.to_bytes());
    slot.add(&row.target.to_bytes());
    add_load(&mut slot, row.load);
    slot.into_bytes()
}
