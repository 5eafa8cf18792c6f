//! Keys, heights and signed numbers, and their bytes.
ghost use Rattle.std.specs.Prelude.{◌≡◌, ◌^◌, ◌<◌, FitsSigned};
ghost use Rattle.std.specs.Int.{w64};
ghost use Rattle.format.specs.Layout.{height_len, key_len};
ghost use Rattle.format.specs.Numbers.{from_bytes, signed_bytes, signed_number, to_bytes};

use crate::layout::{HEIGHT_LEN, KEY_LEN, VALUE_LEN};
use std::fmt;

/// The key of an owner or a member; 0 stands for none, as in the bytes of rows and commands.
#[derive(Clone, Copy, PartialEq, Eq, PartialOrd, Ord, Debug)]
pub struct Key(pub u32);

impl fmt::Display for Key {
    // In 8 hexadecimal digits.
    fn fmt<W: fmt::Write>(&self, f: &mut fmt::Formatter<W>) -> fmt::Result {
        write!(f, "{:08x}", self.0)
    }
}

impl Key {
    pub fn to_bytes(self) -> [u8; KEY_LEN]
        ensures bytes { result ≡ to_bytes key_len self.0 }
        ensures fits { self.0 < 256 ^ key_len }
    {
        u32::to_be_bytes(self.0)
    }

    pub fn from_bytes(bytes: [u8; KEY_LEN]) -> Key
        ensures { result.0 ≡ from_bytes bytes }
    {
        Key(u32::from_be_bytes(bytes))
    }
}

/// The place of a block in its chain, from 0.
#[derive(Clone, Copy, PartialEq, Eq, PartialOrd, Ord, Debug)]
pub struct Height(pub u16);

impl fmt::Display for Height {
    fn fmt<W: fmt::Write>(&self, f: &mut fmt::Formatter<W>) -> fmt::Result {
        write!(f, "{}", self.0)
    }
}

impl Height {
    pub fn to_bytes(self) -> [u8; HEIGHT_LEN]
        ensures bytes { result ≡ to_bytes height_len self.0 }
        ensures fits { self.0 < 256 ^ height_len }
    {
        u16::to_be_bytes(self.0)
    }

    pub fn from_bytes(bytes: [u8; HEIGHT_LEN]) -> Height
        ensures { result.0 ≡ from_bytes bytes }
    {
        Height(u16::from_be_bytes(bytes))
    }
}

/// A signed number in two's complement.
pub fn value_to_bytes(value: i64) -> [u8; VALUE_LEN]
    ensures bytes { result ≡ signed_bytes value }
    ensures fits { FitsSigned w64 value }
{
    value.to_be_bytes()
}

/// The signed number that the bytes are in two's complement.
pub fn value_from_bytes(bytes: [u8; VALUE_LEN]) -> i64
    ensures { result ≡ signed_number bytes }
{
    i64::from_be_bytes(bytes)
}
