//! Running the commands of a block.
ghost use Rattle.std.specs.Prelude.{◌≡◌, ◌+◌, ◌<◌, ◌≤◌, true, is_some, option_to_list, Some};
ghost use Rattle.std.specs.Option.{option_map};
ghost use Rattle.applications.specs.Meaning.{sent_value};
ghost use Rattle.applications.specs.Steps.{Gives};
ghost use Rattle.format.specs.Layout.{max_commands, max_index};
ghost use Rattle.format.specs.Meaning.{command_value, identifier_value};
ghost use Rattle.format.specs.Values.{CommandValue};
ghost use Rattle.format.specs.Outcomes.{Passed};
ghost use Rattle.reading.specs.Cursors.{cursor_value};
ghost use Rattle.reading.specs.Commands.{operands_in};
ghost use Rattle.books.specs.Meaning.{entry_value, record_value};
ghost use Rattle.blocks.specs.Drafts.{Within, draft_value, ran_value, state_value};
ghost use Rattle.blocks.specs.Running.{Yields, block_finished, byte_of, command_ran, command_stepped, index_of, key_of, opening_entries, opens_child, ran_answer, run_answer, step_answer, step_draft};
ghost use Rattle.committee.specs.Meaning.{members_value};
ghost use Rattle.protocol.specs.Execution.{child_allowed, stepped};

use crate::draft::{Draft, Ran, State};
use crate::opening::Opened;
use applications::{Application, Step};
use books::{Books, Load, Outgoing, Record};
use committee::Member;
use faults::{AtCommand, CommandFault};
use format::layout::{MAX_DEPTH, MAX_INDEX};
use format::{Command, Height, Identifier, Key, Name, layout};
use protocol::is_owner_key;
use reading::{CommandPart, Cursor};

// Whether this is the child that the chain's block at this height opens.
fn is_child(chain: &Identifier, height: Height, child: &Identifier) -> bool
    ensures { result ≡ child_allowed (identifier_value chain.now) height.0 (identifier_value child.now) }
{
    let parent = chain.numbers();
    parent.len() < MAX_DEPTH
        && child
            .numbers()
            .strip_prefix(parent)
            .is_some_and(|rest| rest == [height.0].as_slice())
}

// The chain after a step, whose message goes to the target under this name.
fn after_step(owner: Key, name: Name, target: Identifier, step: Step) -> Ran
    ensures { Passed (ran_value result) ≡ stepped (identifier_value name.sender) name.height.0 name.index owner.0 (identifier_value target) (Gives step.a step.b (option_map sent_value step.sent)) }
{
    Ran {
        state: State {
            owner,
            a: step.a,
            b: step.b,
        },
        sent: step.sent.map(|sent| Outgoing {
            name,
            target,
            load: Load::Sent {
                code: sent.code,
                value: sent.value,
            },
        }),
    }
}

// The key of an Open or a Change, or else 0.
fn key_of(command: &Command) -> Key
    ensures { result.0 ≡ key_of (command_value command.now) }
{
    match *command {
        Command::Open { child: _, key } => key,
        Command::Change { key } => key,
        _ => Key(0),
    }
}

// Whether it opens the child that the block may open.
fn opens_child(name: &Name, command: &Command) -> bool
    ensures { result ≡ opens_child (identifier_value name.now.sender) name.now.height.0 (command_value command.now) }
{
    match *command {
        Command::Open { child, key: _ } => is_child(&name.sender, name.height, &child),
        _ => false,
    }
}

// The index of the message of a Receive, or else 0.
fn index_of(command: &Command) -> u8
    ensures { result ≡ index_of (command_value command.now) }
{
    match *command {
        Command::Receive { message } => message.name.index,
        _ => 0,
    }
}

// The row of this name that an Open sends.
fn opening(name: Name, command: &Command) -> Option<Outgoing>
    ensures { option_to_list (option_map entry_value result) ≡ opening_entries (identifier_value name.sender) name.height.0 name.index (command_value command.now) }
{
    match *command {
        Command::Open { child, key } => Some(Outgoing {
            name,
            target: child,
            load: Load::Opening { key },
        }),
        _ => None,
    }
}

// Steps the application by an Execute or a Receive. What it sends has this name.
fn run_step<A: Application>(
    state: State,
    name: Name,
    command: &Command,
) -> Result<Ran, CommandFault>
    ensures { ran_answer name.index result ≡ command_stepped A.Application.meaning (identifier_value name.sender) name.height.0 name.index (state_value state) (command_value command.now) }
{
    match *command {
        Command::Execute {
            code,
            argument,
            target,
        } => Ok(after_step(
            state.owner,
            name,
            target,
            A::operate(state.a, state.b, code, argument)?,
        )),
        Command::Receive { message } => Ok(after_step(
            state.owner,
            name,
            message.name.sender,
            A::receive(state.a, state.b, message.code, message.value)?,
        )),
        _ => Ok(Ran { state, sent: None }),
    }
}

// Runs a command that reading let through, with this byte, after a draft. What it sends has this name. The match is over the
// byte, and operands are taken by functions: a pattern cannot reach into a pair of a byte and a command, which holds
// identifiers.
fn run_command<A: Application>(
    draft: &Draft,
    members: &[Member],
    name: Name,
    byte: u8,
    command: &Command,
) -> Result<Ran, CommandFault>
    requires byte { byte ≡ byte_of (command_value command.now) }
    requires index { index_of (command_value command.now) ≤ max_index }
    ensures { ran_answer name.index result ≡ command_ran (members_value members.now) A.Application.meaning (identifier_value name.sender) name.height.0 name.index (draft_value draft.now) (command_value command.now) }
{
    let state = draft.state;
    match byte {
        _ if draft.closed => Err(CommandFault::AfterClose),
        layout::OPEN if !is_owner_key(members, key_of(command)) => Err(CommandFault::Key),
        layout::OPEN if !opens_child(&name, command) => Err(CommandFault::Child),
        layout::OPEN if draft.opened => Err(CommandFault::SecondOpen),
        layout::OPEN => Ok(Ran {
            state,
            sent: opening(name, command),
        }),
        layout::CHANGE if !is_owner_key(members, key_of(command)) => Err(CommandFault::Key),
        layout::CHANGE => Ok(Ran {
            state: State {
                owner: key_of(command),
                ..state
            },
            sent: None,
        }),
        layout::CLOSE => Ok(Ran {
            state: State {
                owner: Key(0),
                ..state
            },
            sent: None,
        }),
        layout::EXECUTE => run_step::<A>(state, name, command),
        layout::RECEIVE if index_of(command) <= MAX_INDEX => run_step::<A>(state, name, command),
        _ => Ok(Ran { state, sent: None }),
    }
}

// Runs a command as it lies in the frame, which reading let through.
fn run_part<A: Application, B: Books>(
    draft: &mut Draft,
    books: &B,
    members: &[Member],
    name: Name,
    part: &CommandPart,
) -> Result<(), CommandFault>
    requires within { Within draft.old name.index }
    requires few { name.index < max_commands }
    requires known { is_some (operands_in part.now.byte part.now.operands.bytes.now) ≡ true }
    ensures value { (x : CommandValue) → operands_in part.now.byte part.now.operands.bytes.now ≡ Some x → step_answer name.index result (draft_value draft.new) ≡ step_draft (members_value members.now) A.Application.meaning (B.Books.meaning books.now).rows.marked (identifier_value name.sender) name.height.0 name.index (draft_value draft.old) x }
    ensures within { Within draft.new (name.index + 1) }
{
    let Some(command) = part.value() else {
        return Ok(());
    };
    let ran = run_command::<A>(draft, members, name, part.byte, &command)?;
    let change = draft.receipt(books, name.sender, &command);
    draft.add(&command, ran, change);
    Ok(())
}

// The next command of a block that was read.
fn next_part<'a>(cursor: &mut Cursor<'a>) -> Option<CommandPart<'a>>
    ensures { Yields (cursor_value cursor.old) (cursor_value cursor.new) result }
{
    cursor.next().ok().flatten()
}

// Runs the commands of a block that was read, on its chain's record. The books are not changed.
pub(crate) fn run_block<A: Application, B: Books>(
    books: &B,
    members: &[Member],
    opened: &Opened,
    row: &Record,
) -> Result<Draft, AtCommand>
    ensures { run_answer result ≡ block_finished (members_value members.now) A.Application.meaning (B.Books.meaning books.now).rows.marked (record_value row.now).chain opened.now.block.bytes.now }
{
    let head = &opened.head;
    let mut draft = Draft::new(row);
    let mut cursor = Cursor::new(opened.block, head.count);
    for index in 0..head.count {
        let Some(part) = next_part(&mut cursor) else {
            return Ok(draft);
        };
        let name = Name {
            sender: head.chain,
            height: head.height,
            index,
        };
        if let Err(fault) = run_part::<A, B>(&mut draft, books, members, name, &part) {
            return Err(AtCommand {
                place: usize::from(index),
                fault,
            });
        }
    }
    Ok(draft)
}
