//! The rows that slots hold.
ghost use Rattle.std.specs.Prelude.{◌≡◌, ◌+◌, ◌≤◌};
ghost use Rattle.std.specs.Option.{option_map};
ghost use Rattle.format.specs.Meaning.{digest_value, identifier_value, name_value};
ghost use Rattle.books.specs.Meaning.{entry_value, load_value, record_row};
ghost use Rattle.slots.specs.Layout.{chain_at, slot_len};
ghost use Rattle.slots.specs.Reading.{entry_in, field as spec_field, home_in, name_at, opening_in, outgoing_part, record_fields, record_part, row_in, sent_in, vote_in as spec_vote_in};

use crate::kind::Kind;
use crate::layout::{
    A_AT, B_AT, CHAIN_AT, LAST_AT, LOAD_AT, NEXT_AT, OWNER_AT, SENT_VALUE_AT, SLOT_LEN, TARGET_AT,
    VOTE_AT, VOTED, VOTED_AT,
};
use books::{Load, Outgoing, Record};
use format::layout::{HEIGHT_LEN, IDENTIFIER_LEN};
use format::{Digest, Height, Identifier, Key, Name, value_from_bytes};
use reading::read_identifier;

// The bytes of a slot from a place on.
fn field<const N: usize>(slot: &[u8; SLOT_LEN], at: usize) -> [u8; N]
    requires { at + N ≤ slot_len }
    ensures { result ≡ spec_field at N slot.now }
{
    let mut bytes = [0; N];
    bytes.copy_from_slice(&slot[at..at + N]);
    bytes
}

fn vote_in(slot: &[u8; SLOT_LEN]) -> Option<Digest>
    ensures { option_map digest_value result ≡ spec_vote_in slot.now }
{
    if slot[VOTE_AT] == VOTED {
        Some(Digest {
            bytes: field(slot, VOTED_AT),
        })
    } else {
        None
    }
}

fn record_of(identifier: Identifier, slot: &[u8; SLOT_LEN]) -> Record
    ensures { record_row result ≡ (identifier_value identifier, record_fields slot.now) }
{
    Record {
        identifier,
        owner: Key::from_bytes(field(slot, OWNER_AT)),
        next: Height::from_bytes(field(slot, NEXT_AT)),
        last: Digest {
            bytes: field(slot, LAST_AT),
        },
        a: value_from_bytes(field(slot, A_AT)),
        b: value_from_bytes(field(slot, B_AT)),
        vote: vote_in(slot),
    }
}

/// The record that a slot holds, or none.
pub fn decode_record(slot: &[u8]) -> Option<Record>
    ensures { option_map record_row result ≡ record_part (row_in slot.now) }
{
    let slot = slot.as_array()?;
    if slot[0] != Kind::Record as u8 {
        return None;
    }
    let identifier = read_identifier(&slot[CHAIN_AT..OWNER_AT])?;
    Some(record_of(identifier, slot))
}

// The name at the front of a row.
fn name_in(slot: &[u8; SLOT_LEN]) -> Option<Name>
    ensures { option_map name_value result ≡ name_at chain_at slot.now }
{
    Some(Name {
        sender: read_identifier(&slot[CHAIN_AT..CHAIN_AT + IDENTIFIER_LEN])?,
        height: Height::from_bytes(field(slot, CHAIN_AT + IDENTIFIER_LEN)),
        index: slot[CHAIN_AT + IDENTIFIER_LEN + HEIGHT_LEN],
    })
}

fn opening_load(slot: &[u8; SLOT_LEN]) -> Load
    ensures { load_value result ≡ opening_in slot.now }
{
    Load::Opening {
        key: Key::from_bytes(field(slot, LOAD_AT)),
    }
}

fn sent_load(slot: &[u8; SLOT_LEN]) -> Load
    ensures { load_value result ≡ sent_in slot.now }
{
    Load::Sent {
        code: slot[LOAD_AT],
        value: value_from_bytes(field(slot, SENT_VALUE_AT)),
    }
}

fn outgoing_of(load: Load, slot: &[u8; SLOT_LEN]) -> Option<Outgoing>
    ensures { option_map entry_value result ≡ entry_in (load_value load) slot.now }
{
    Some(Outgoing {
        name: name_in(slot)?,
        target: read_identifier(&slot[TARGET_AT..LOAD_AT])?,
        load,
    })
}

/// The outgoing row that a slot holds, or none.
pub fn decode_outgoing(slot: &[u8]) -> Option<Outgoing>
    ensures { option_map entry_value result ≡ outgoing_part (row_in slot.now) }
{
    let slot = slot.as_array()?;
    match Kind::try_from(slot[0]).ok()? {
        Kind::Opening => outgoing_of(opening_load(slot), slot),
        Kind::Message => outgoing_of(sent_load(slot), slot),
        _ => None,
    }
}

/// The chain that the row of a slot begins with: its own, or that of a mark's target or of an
/// outgoing row's sender. None for a free slot.
pub fn home_of(slot: &[u8]) -> Option<Identifier>
    ensures { option_map identifier_value result ≡ home_in slot.now }
{
    let slot: &[u8; SLOT_LEN] = slot.as_array()?;
    if slot[0] == Kind::Free as u8 {
        return None;
    }
    read_identifier(&slot[CHAIN_AT..CHAIN_AT + IDENTIFIER_LEN])
}
