//! Bytes as hexadecimal text, two digits each.
#![tactic(auto)]

ghost use Rattle.std.specs.Prelude.{◌≡◌, ◌<◌, IfOk};
ghost use Rattle.std.specs.Char.{digit_value};
ghost use Rattle.hex_text.specs.Hex.{from_hex};

use std::alloc::{AllocError, Global};
use std::fmt;
use thiserror::Error;

/// Why a text gives no bytes.
#[derive(Debug, Drop, Error)]
pub enum HexError {
    #[error("a digit is not hexadecimal")]
    NoDigit,
    #[error("the count of digits is odd")]
    Odd,
    #[error("out of memory")]
    NoMemory(#[from(alloc)] AllocError),
}

fn digit(c: u8) -> Result<u8, HexError>
    ensures { IfOk result (λ d. (d < 16) × (d ≡ digit_value c)) }
{
    let digit = char::from(c).to_digit(16).ok_or(HexError::NoDigit)?;
    Ok(digit as u8)
}

/// The bytes that a text writes.
pub fn bytes_of(heap: Global, text: &str) -> Result<Vec<u8>, HexError>
    ensures { IfOk result (λ v. v.items ≡ from_hex text.now) }
{
    let (pairs, rest) = text.as_bytes().as_chunks::<2>();
    if rest.len() > 0 {
        return Err(HexError::Odd);
    }
    let mut bytes = Vec::new(heap);
    for [high, low] in pairs {
        let high = digit(*high)?;
        let low = digit(*low)?;
        bytes.push(16 * high + low)?;
    }
    Ok(bytes)
}

/// Bytes in lowercase hexadecimal.
#[derive(Drop)]
pub struct Hex<'a>(pub &'a [u8]);

impl fmt::Display for Hex<'_> {
    fn fmt<W: fmt::Write>(&self, f: &mut fmt::Formatter<W>) -> fmt::Result {
        for byte in self.0 {
            write!(f, "{byte:02x}")?;
        }
        Ok(())
    }
}
