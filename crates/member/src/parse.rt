//! Values from text.
use applications::{Asked, RingOperation, StockMessage, StockOperation};
use format::layout::MAX_DEPTH;
use format::{Command, Digest, Height, Identifier, Key, Message, Name};
use hex::FromHex;
use seals::SECRET_LEN;
use std::num::ParseIntError;
use std::str::{FromStr, Split};
use thiserror::Error;

/// Why a text is not understood.
#[derive(Clone, Copy, PartialEq, Eq, Debug, Error)]
pub enum ParseFault {
    #[error("the first word is none of ring, compose, request, certificate, tally, stock and tag")]
    Word,
    #[error("an identifier is one to four numbers from 0 to 65535, joined by dots")]
    Identifier,
    #[error("a height is a number from 0 to 65535")]
    Height,
    #[error("a digest is 64 hexadecimal digits in lower case, or -")]
    Digest,
    #[error("a key is 8 hexadecimal digits in lower case")]
    Key,
    #[error("a number is missing, or out of its range")]
    Number,
    #[error("a command is open:ID:KEY, change:KEY, close, execute:CODE:ARGUMENT:ID or receive:ID:HEIGHT:INDEX:CODE:VALUE")]
    Command,
    #[error("a word is missing")]
    Missing,
    #[error("a scheme of seals is tag or list")]
    Scheme,
    #[error("a frame is in hexadecimal, two digits a byte, or a file's name behind @")]
    Frame,
    #[error("the file cannot be read")]
    File,
    #[error("a step is cast:N, send:N, order:N, delivered:N or ordered:N")]
    Step,
    #[error("a secret is 64 hexadecimal digits in lower case")]
    Secret,
    #[error("a seal is in hexadecimal, two digits a byte")]
    Seal,
}

/// Numbers joined by dots, as `2.7`.
pub(crate) fn identifier(text: &str) -> Result<Identifier, ParseFault> {
    let depth = u8::try_from(text.split('.').count()).map_err(|_| ParseFault::Identifier)?;
    let mut numbers = [0; MAX_DEPTH];
    for (number, part) in numbers.iter_mut().zip(text.split('.')) {
        *number = part.parse().map_err(|_| ParseFault::Identifier)?;
    }
    Identifier::new(depth, numbers).map_err(|_| ParseFault::Identifier)
}

pub(crate) fn height(text: &str) -> Result<Height, ParseFault> {
    text.parse().map(Height).map_err(|_| ParseFault::Height)
}

// Bytes in hexadecimal, in lower case.
fn lower_hex<const N: usize>(text: &str) -> Option<[u8; N]> {
    if text.as_bytes().iter().any(u8::is_ascii_uppercase) {
        return None;
    }
    <[u8; N]>::from_hex(text).ok()
}

/// A digest in hexadecimal; `-` is the zero digest.
pub(crate) fn digest(text: &str) -> Result<Digest, ParseFault> {
    if text == "-" {
        return Ok(Digest::ZERO);
    }
    let bytes = lower_hex(text).ok_or(ParseFault::Digest)?;
    Ok(Digest { bytes })
}

/// A secret in hexadecimal.
pub(crate) fn secret(text: &str) -> Result<[u8; SECRET_LEN], ParseFault> {
    lower_hex(text).ok_or(ParseFault::Secret)
}

/// A key in hexadecimal.
pub(crate) fn key(text: &str) -> Result<Key, ParseFault> {
    lower_hex(text).map(Key::from_bytes).ok_or(ParseFault::Key)
}

/// A number within the range of its type.
pub(crate) fn number<T: FromStr<Err = ParseIntError>>(text: &str) -> Result<T, ParseFault> {
    text.parse().map_err(|_| ParseFault::Number)
}

/// A step of the ring register, by the offset of the ring that it records.
pub(crate) fn ring_step(text: &str) -> Result<Asked, ParseFault> {
    Ok(Asked::Operation {
        code: RingOperation::RecordOnly.into(),
        value: number(text)?,
    })
}

/// A step of the segment stock, as `cast:5`.
pub(crate) fn stock_step(text: &str) -> Result<Asked, ParseFault> {
    let (word, value) = text.split_once(':').ok_or(ParseFault::Step)?;
    let value = number(value)?;
    let operation = |operation: StockOperation| Asked::Operation {
        code: operation.into(),
        value,
    };
    let message = |message: StockMessage| Asked::Message {
        code: message.into(),
        value,
    };
    match word {
        "cast" => Ok(operation(StockOperation::Cast)),
        "send" => Ok(operation(StockOperation::SendOff)),
        "order" => Ok(operation(StockOperation::PlaceOrder)),
        "delivered" => Ok(message(StockMessage::Delivery)),
        "ordered" => Ok(message(StockMessage::Order)),
        _ => Err(ParseFault::Step),
    }
}

// The next operand.
fn next<'a>(operands: &mut Split<'a, char>) -> Result<&'a str, ParseFault> {
    operands.next().ok_or(ParseFault::Command)
}

fn open(operands: &mut Split<char>) -> Result<Command, ParseFault> {
    let child = identifier(next(operands)?)?;
    let key = key(next(operands)?)?;
    Ok(Command::Open { child, key })
}

fn change(operands: &mut Split<char>) -> Result<Command, ParseFault> {
    let key = key(next(operands)?)?;
    Ok(Command::Change { key })
}

fn execute(operands: &mut Split<char>) -> Result<Command, ParseFault> {
    let code = number(next(operands)?)?;
    let argument = number(next(operands)?)?;
    let target = identifier(next(operands)?)?;
    Ok(Command::Execute {
        code,
        argument,
        target,
    })
}

fn name(operands: &mut Split<char>) -> Result<Name, ParseFault> {
    let sender = identifier(next(operands)?)?;
    let height = height(next(operands)?)?;
    let index = number(next(operands)?)?;
    Ok(Name {
        height,
        sender,
        index,
    })
}

fn receive(operands: &mut Split<char>) -> Result<Command, ParseFault> {
    let name = name(operands)?;
    let code = number(next(operands)?)?;
    let value = number(next(operands)?)?;
    let message = Message { name, code, value };
    Ok(Command::Receive { message })
}

/// A command, its word and its operands joined by colons.
pub(crate) fn command(text: &str) -> Result<Command, ParseFault> {
    let mut operands = text.split(':');
    let command = match next(&mut operands)? {
        "open" => open(&mut operands)?,
        "change" => change(&mut operands)?,
        "close" => Command::Close,
        "execute" => execute(&mut operands)?,
        "receive" => receive(&mut operands)?,
        _ => return Err(ParseFault::Command),
    };
    match operands.next() {
        Some(_) => Err(ParseFault::Command),
        None => Ok(command),
    }
}
