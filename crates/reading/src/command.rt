//! Commands as they lie in a frame.
ghost use Rattle.std.specs.Prelude.{◌≡◌, ◌+◌, ◌-◌, ◌^◌, ◌<◌, ◌≤◌, [], ◌∷◌, length, take, drop};
ghost use Rattle.std.specs.Option.{option_map};
ghost use Rattle.format.specs.Layout.{code_len, execute_byte, execute_len, height_len, identifier_len, index_len, key_len, open_byte, open_len, receive_byte, receive_len, value_len};
ghost use Rattle.format.specs.Meaning.{command_value};
ghost use Rattle.reading.specs.Commands.{change_in, execute_in, open_in, operands_in, operands_len_of, receive_in};
ghost use Rattle.reading.specs.Cursors.{Found};
ghost use Rattle.reading.specs.Parts.{placed};
ghost use Rattle.reading.specs.Views.{cut, view_value, viewed};

use crate::fields::{read_identifier, read_message};
use crate::operands::Operands;
use crate::part::Part;
use format::layout::{
    CODE_LEN, COMMAND_BYTE_LEN, HEIGHT_LEN, IDENTIFIER_LEN, KEY_LEN, NAME_LEN, VALUE_LEN,
};
use format::{Command, Key, layout, value_from_bytes};

/// A command by its byte, and its operands as one part of the frame.
#[derive(Clone, Copy)]
pub struct CommandPart<'a> {
    pub byte: u8,
    pub operands: Part<'a>,
}

/// A command with each operand as a part of the frame.
#[derive(Clone, Copy)]
pub enum CommandView<'a> {
    Open {
        child: Part<'a>,
        key: Part<'a>,
    },
    Change {
        key: Part<'a>,
    },
    Close,
    Execute {
        code: Part<'a>,
        argument: Part<'a>,
        target: Part<'a>,
    },
    Receive {
        sender: Part<'a>,
        height: Part<'a>,
        index: Part<'a>,
        code: Part<'a>,
        value: Part<'a>,
    },
}

fn read_open(operands: &[u8]) -> Option<Command>
    ensures { option_map command_value result ≡ open_in operands.now }
{
    if operands.len() != layout::OPEN_LEN {
        return None;
    }
    let child = read_identifier(&operands[..IDENTIFIER_LEN])?;
    let key = Key::from_bytes(*operands.last_chunk()?);
    Some(Command::Open { child, key })
}

fn read_change(operands: &[u8]) -> Option<Command>
    ensures { option_map command_value result ≡ change_in operands.now }
{
    let key = Key::from_bytes(operands.try_into().ok()?);
    Some(Command::Change { key })
}

fn read_execute(operands: &[u8]) -> Option<Command>
    ensures { option_map command_value result ≡ execute_in operands.now }
{
    if operands.len() != layout::EXECUTE_LEN {
        return None;
    }
    let target = read_identifier(&operands[CODE_LEN + VALUE_LEN..])?;
    let code = operands[0];
    let argument = value_from_bytes(*operands[CODE_LEN..].first_chunk()?);
    Some(Command::Execute {
        code,
        argument,
        target,
    })
}

fn read_receive(operands: &[u8]) -> Option<Command>
    ensures { option_map command_value result ≡ receive_in operands.now }
{
    let message = read_message(operands)?;
    Some(Command::Receive { message })
}

impl<'a> CommandPart<'a> {
    /// The command by its values, or none where its byte is unknown or its operands break their rules.
    pub fn value(&self) -> Option<Command>
        ensures { option_map command_value result ≡ operands_in self.now.byte self.now.operands.bytes.now }
    {
        match self.byte {
            layout::OPEN => read_open(self.operands.bytes),
            layout::CHANGE => read_change(self.operands.bytes),
            layout::CLOSE => Some(Command::Close),
            layout::EXECUTE => read_execute(self.operands.bytes),
            layout::RECEIVE => read_receive(self.operands.bytes),
            _ => None,
        }
    }

    /// The command with each operand as a part of the frame, or none where its byte is unknown or its
    /// operands have another length.
    pub fn view(&self) -> Option<CommandView<'a>>
        ensures { option_map view_value result ≡ viewed self.now.byte (placed self.now.operands) }
    {
        let part = self.operands;
        if part.bytes.len() != operands_len(self.byte) || part.at > usize::MAX - part.bytes.len() {
            return None;
        }
        let operands = Operands { part };
        match self.byte {
            layout::OPEN => Some(view_open(operands)),
            layout::CHANGE => Some(CommandView::Change {
                key: operands.cut(0, KEY_LEN),
            }),
            layout::CLOSE => Some(CommandView::Close),
            layout::EXECUTE => Some(view_execute(operands)),
            layout::RECEIVE => Some(view_receive(operands)),
            _ => None,
        }
    }
}

// How many bytes the operands behind a command byte have. Of a command by its values, `format` knows it.
fn operands_len(byte: u8) -> usize
    ensures { result ≡ operands_len_of byte }
{
    match byte {
        layout::OPEN => layout::OPEN_LEN,
        layout::CHANGE => layout::CHANGE_LEN,
        layout::CLOSE => layout::CLOSE_LEN,
        layout::EXECUTE => layout::EXECUTE_LEN,
        layout::RECEIVE => layout::RECEIVE_LEN,
        _ => 0,
    }
}

fn view_open<'a>(operands: Operands<'a>) -> CommandView<'a>
    requires { length operands.part.bytes.now ≡ open_len }
    ensures { view_value result ≡ (open_byte, cut (placed operands.entry.part) 0 (identifier_len ∷ key_len ∷ [])) }
{
    CommandView::Open {
        child: operands.cut(0, IDENTIFIER_LEN),
        key: operands.cut(IDENTIFIER_LEN, IDENTIFIER_LEN + KEY_LEN),
    }
}

fn view_execute<'a>(operands: Operands<'a>) -> CommandView<'a>
    requires { length operands.part.bytes.now ≡ execute_len }
    ensures { view_value result ≡ (execute_byte, cut (placed operands.entry.part) 0 (code_len ∷ value_len ∷ identifier_len ∷ [])) }
{
    CommandView::Execute {
        code: operands.cut(0, CODE_LEN),
        argument: operands.cut(CODE_LEN, CODE_LEN + VALUE_LEN),
        target: operands.cut(CODE_LEN + VALUE_LEN, CODE_LEN + VALUE_LEN + IDENTIFIER_LEN),
    }
}

fn view_receive<'a>(operands: Operands<'a>) -> CommandView<'a>
    requires { length operands.part.bytes.now ≡ receive_len }
    ensures { view_value result ≡ (receive_byte, cut (placed operands.entry.part) 0 (identifier_len ∷ height_len ∷ index_len ∷ code_len ∷ value_len ∷ [])) }
{
    CommandView::Receive {
        sender: operands.cut(0, IDENTIFIER_LEN),
        height: operands.cut(IDENTIFIER_LEN, IDENTIFIER_LEN + HEIGHT_LEN),
        index: operands.cut(IDENTIFIER_LEN + HEIGHT_LEN, NAME_LEN),
        code: operands.cut(NAME_LEN, NAME_LEN + CODE_LEN),
        value: operands.cut(NAME_LEN + CODE_LEN, NAME_LEN + CODE_LEN + VALUE_LEN),
    }
}

// The command at the front of bytes that begin at the place `at` of the frame, or none where it breaks the rules.
pub(crate) fn read_command<'a>(rest: &'a [u8], at: usize) -> Option<CommandPart<'a>>
    requires { at + length rest.now < 2 ^ 64 }
    ensures { Found at rest.now result }
{
    if rest.len() < COMMAND_BYTE_LEN {
        return None;
    }
    let byte = rest[0];
    let end = COMMAND_BYTE_LEN + operands_len(byte);
    if rest.len() < end {
        return None;
    }
    let operands = Part {
        at: at + COMMAND_BYTE_LEN,
        bytes: &rest[COMMAND_BYTE_LEN..end],
    };
    let command = CommandPart { byte, operands };
    command.value()?;
    Some(command)
}
