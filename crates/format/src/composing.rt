//! Writing a block.
ghost use Rattle.std.specs.Prelude.{◌≡◌, ◌+◌, ◌≤◌, map, length, if◌then◌else◌, Some, None};
ghost use Rattle.std.specs.List.{flat_map};
ghost use Rattle.format.specs.Bytes.{head_bytes, operands_len};
ghost use Rattle.format.specs.Composing.{BlockLengths, compose_answer, compose_refusal, composed, encoded, left_by_compose};
ghost use Rattle.format.specs.Layout.{digest_len, head_len, max_commands};
ghost use Rattle.format.specs.Meaning.{block_value, command_value, refusal_value};
ghost use Rattle.format.specs.Rules.{command_allowed, commands_allowed, head_allowed};
ghost use Rattle.format.specs.Writing.{Wrote};

use crate::block::{Block, Command};
use crate::digest::Digest;
use crate::fields::{Height, value_to_bytes};
use crate::layout;
use crate::layout::{COMMAND_BYTE_LEN, HEAD_LEN, MAX_COMMANDS, MAX_HEIGHT, MAX_INDEX};
use crate::refusal::Refusal;
use crate::writing::write_at;
use thiserror::Error;

/// Why a block is not written.
#[derive(Clone, Copy, PartialEq, Eq, Debug, Error)]
pub enum ComposeFault {
    #[error("the destination is too short")]
    TooShort,
    #[error("a value is outside the block's rules")]
    OutsideRules,
}

impl From<ComposeFault> for Refusal {
    ghost from_gives = { λ fault gives. refusal_value gives ≡ compose_refusal fault };

    fn from(fault: ComposeFault) -> Refusal {
        match fault {
            ComposeFault::TooShort => Refusal::numbered(24),
            ComposeFault::OutsideRules => Refusal::numbered(25),
        }
    }
}

/// Whether height, previous digest and command count keep the rules of a block's head.
/// A caller that only hands the digest on learns its length here.
pub fn head_is_allowed(height: Height, previous: &Digest, count: usize) -> bool
    ensures value { result ≡ head_allowed height.0 previous.now.bytes count }
    ensures len { length previous.now.bytes ≡ digest_len }
{
    if height.0 > MAX_HEIGHT || count > MAX_COMMANDS {
        return false;
    }
    height.0 > 0 || *previous == Digest::ZERO
}

fn is_allowed(command: &Command) -> bool
    ensures { result ≡ command_allowed (command_value command.now) }
{
    match command {
        Command::Receive { message } => message.name.height.0 <= MAX_HEIGHT
            && message.name.index <= MAX_INDEX,
        _ => true,
    }
}

// How many bytes the operands of a command have.
fn operands_len(command: &Command) -> usize
    ensures { result ≡ operands_len (command_value command.now) }
{
    match command {
        Command::Open { .. } => layout::OPEN_LEN,
        Command::Change { .. } => layout::CHANGE_LEN,
        Command::Close => layout::CLOSE_LEN,
        Command::Execute { .. } => layout::EXECUTE_LEN,
        Command::Receive { .. } => layout::RECEIVE_LEN,
    }
}

// How many bytes the commands have, or none where one breaks its rules.
fn commands_len(commands: &[Command]) -> Option<usize>
    requires { length commands.now ≤ max_commands }
    ensures { result ≡ (if commands_allowed (map command_value commands.now) then Some (length (flat_map encoded commands.now)) else None) }
{
    let mut len = 0;
    for command in commands {
        if !is_allowed(command) {
            return None;
        }
        len += COMMAND_BYTE_LEN + operands_len(command);
    }
    Some(len)
}

fn write_command(buffer: &mut [u8], at: usize, command: &Command) -> usize
    requires { at + length (encoded command.now) ≤ length buffer.old }
    ensures { Wrote buffer.old at (encoded command.now) buffer.new result }
{
    match command {
        Command::Open { child, key } => {
            let at = write_at(buffer, at, &[layout::OPEN]);
            let at = write_at(buffer, at, &child.to_bytes());
            write_at(buffer, at, &key.to_bytes())
        }
        Command::Change { key } => {
            let at = write_at(buffer, at, &[layout::CHANGE]);
            write_at(buffer, at, &key.to_bytes())
        }
        Command::Close => write_at(buffer, at, &[layout::CLOSE]),
        Command::Execute {
            code,
            argument,
            target,
        } => {
            let at = write_at(buffer, at, &[layout::EXECUTE, *code]);
            let at = write_at(buffer, at, &value_to_bytes(*argument));
            write_at(buffer, at, &target.to_bytes())
        }
        Command::Receive { message } => {
            let at = write_at(buffer, at, &[layout::RECEIVE]);
            write_at(buffer, at, &message.to_bytes())
        }
    }
}

fn write_commands(buffer: &mut [u8], from: usize, commands: &[Command]) -> usize
    requires { from + length (flat_map encoded commands.now) ≤ length buffer.old }
    ensures { Wrote buffer.old from (flat_map encoded commands.now) buffer.new result }
{
    let mut at = from;
    for command in commands {
        at = write_command(buffer, at, command);
    }
    at
}

fn write_head(buffer: &mut [u8], block: &Block) -> usize
    requires { (head_len ≤ length buffer.old) × (length block.now.commands.now ≤ max_commands) }
    ensures { Wrote buffer.old 0 (head_bytes (block_value block.now)) buffer.new result }
{
    let at = write_at(buffer, 0, &block.chain.to_bytes());
    let at = write_at(buffer, at, &block.height.to_bytes());
    let at = write_at(buffer, at, &block.previous.bytes);
    write_at(buffer, at, &[block.commands.len() as u8])
}

/// Writes a block from its values at the front of the destination, and answers its length.
/// Bytes after it stay; where it is refused, all stay.
pub fn compose(block: &Block, destination: &mut [u8]) -> Result<usize, ComposeFault>
    ensures answer { compose_answer result ≡ composed (block_value block.now) (length destination.old) }
    ensures left { destination.new ≡ left_by_compose (block_value block.now) destination.old (compose_answer result) }
    ensures lengths { BlockLengths }
{
    if !head_is_allowed(block.height, &block.previous, block.commands.len()) {
        return Err(ComposeFault::OutsideRules);
    }
    let Some(commands) = commands_len(block.commands) else {
        return Err(ComposeFault::OutsideRules);
    };
    if destination.len() < HEAD_LEN + commands {
        return Err(ComposeFault::TooShort);
    }
    let at = write_head(destination, block);
    Ok(write_commands(destination, at, block.commands))
}
