//! Reading the fields of a block, each from exactly its bytes.
ghost use Rattle.std.specs.Prelude.{◌≡◌, length, drop};
ghost use Rattle.std.specs.Option.{option_map};
ghost use Rattle.format.specs.Layout.{depth_len, identifier_len, max_depth};
ghost use Rattle.format.specs.Meaning.{identifier_value, message_value, name_value};
ghost use Rattle.reading.specs.Fields.{identifier_in, message_in, name_in, numbers_in as spec_numbers_in};

use format::layout::{
    CODE_LEN, DEPTH_LEN, HEIGHT_LEN, IDENTIFIER_LEN, MAX_DEPTH, MAX_HEIGHT, MAX_INDEX, NAME_LEN,
    NUMBER_LEN, Number, RECEIVE_LEN,
};
use format::{Height, Identifier, Message, Name, value_from_bytes};

// The numbers behind the depth.
fn numbers_in(bytes: &[u8]) -> [Number; MAX_DEPTH]
    requires { length bytes.now ≡ identifier_len }
    ensures { result ≡ spec_numbers_in max_depth (drop depth_len bytes.now) }
{
    let (numbers, _) = bytes[DEPTH_LEN..].as_chunks::<NUMBER_LEN>();
    let [a, b, c, d] = *numbers.first_chunk::<MAX_DEPTH>().unwrap();
    [a, b, c, d].map(Number::from_be_bytes)
}

/// The identifier that the bytes are, or none.
pub fn read_identifier(bytes: &[u8]) -> Option<Identifier>
    ensures { option_map identifier_value result ≡ identifier_in bytes.now }
{
    if bytes.len() != IDENTIFIER_LEN {
        return None;
    }
    Identifier::new(bytes[0], numbers_in(bytes)).ok()
}

/// The name of a message that the bytes are, or none.
pub fn read_name(bytes: &[u8]) -> Option<Name>
    ensures { option_map name_value result ≡ name_in bytes.now }
{
    if bytes.len() != NAME_LEN {
        return None;
    }
    let height = Height::from_bytes(*bytes[IDENTIFIER_LEN..].first_chunk()?);
    let index = bytes[IDENTIFIER_LEN + HEIGHT_LEN];
    if height.0 > MAX_HEIGHT || index > MAX_INDEX {
        return None;
    }
    let sender = read_identifier(&bytes[..IDENTIFIER_LEN])?;
    Some(Name {
        height,
        sender,
        index,
    })
}

/// The message that the bytes are, or none.
pub fn read_message(bytes: &[u8]) -> Option<Message>
    ensures { option_map message_value result ≡ message_in bytes.now }
{
    if bytes.len() != RECEIVE_LEN {
        return None;
    }
    let name = read_name(&bytes[..NAME_LEN])?;
    Some(Message {
        name,
        code: bytes[NAME_LEN],
        value: value_from_bytes(*bytes.last_chunk()?),
    })
}
