//! Why a command and a call are refused. Each layer's fault is carried whole into the next one's.
#![tactic(auto)]

ghost use Rattle.std.specs.Prelude.{◌≡◌};
ghost use Rattle.format.specs.Meaning.{refusal_value};
ghost use Rattle.faults.specs.Refusals.{call_refusal, CarriesApplication, CarriesCommand, CarriesReading, command_refusal};

use applications::ApplicationFault;
use format::Refusal;
use reading::ReadFault;
use thiserror::Error;

/// Why a command is refused.
#[derive(Clone, Copy, PartialEq, Eq, Debug, Error)]
pub enum CommandFault {
    #[error("it follows a Close")]
    AfterClose,
    #[error("its key is 0 or a member's")]
    Key,
    #[error("its child is not this identifier followed by this height, or the depth is 4")]
    Child,
    #[error("it is a second Open of its block")]
    SecondOpen,
    #[error("the application refuses it, number {}", .0.number)]
    Application(ApplicationFault),
}

/// The fault of the command at a place of the block, from 0.
#[derive(Clone, Copy, PartialEq, Eq, Debug, Error)]
#[error("command {place}: {fault}")]
pub struct AtCommand {
    pub place: usize,
    pub fault: CommandFault,
}

/// Why a call is refused. Members and seals are named by the place of the seal, from 0.
#[derive(Clone, Copy, PartialEq, Eq, Debug, Error)]
pub enum CallFault {
    #[error(transparent)]
    Reading(ReadFault),
    #[error("seal {0}: its member is outside the committee, or not above the one before")]
    Member(usize),
    #[error("seal {0} is not held")]
    Seal(usize),
    #[error("the weight is below the quorum")]
    Weight,
    #[error("there is no record, or no owner")]
    NoOwner,
    #[error("the owner's seal is not held")]
    OwnerSeal,
    #[error("the height is above the next height")]
    HeightAbove,
    #[error("the height is below the next height")]
    HeightBelow,
    #[error("the previous digest is not the record's")]
    Previous,
    #[error("another digest is voted")]
    Voted,
    #[error(transparent)]
    Command(AtCommand),
    #[error("minus marks of the chain remain after the block")]
    MinusMarks,
    #[error("there is no place")]
    NoPlace,
    #[error("there is no outgoing row of that name")]
    NoOutgoing,
    #[error("the committee is outside its rules")]
    Committee,
    #[error("the root count is outside 1 to 64, or a root key is 0 or a member's")]
    Roots,
    #[error("the books hold a row")]
    NotBlank,
}

impl From<ApplicationFault> for CommandFault {
    ghost from_gives = { CarriesApplication };

    fn from(refused: ApplicationFault) -> CommandFault {
        CommandFault::Application(refused)
    }
}

impl From<AtCommand> for CallFault {
    ghost from_gives = { CarriesCommand };

    fn from(fault: AtCommand) -> CallFault {
        CallFault::Command(fault)
    }
}

impl From<ReadFault> for CallFault {
    ghost from_gives = { CarriesReading };

    fn from(fault: ReadFault) -> CallFault {
        CallFault::Reading(fault)
    }
}

// The numbers 1 to 25 are the format of a call's answer.
impl From<AtCommand> for Refusal {
    ghost from_gives = { λ at gives. refusal_value gives ≡ command_refusal at.place at.fault };

    fn from(at: AtCommand) -> Refusal {
        let place = at.place;
        match at.fault {
            CommandFault::AfterClose => Refusal::at(13, place),
            CommandFault::Key => Refusal::at(14, place),
            CommandFault::Child => Refusal::at(15, place),
            CommandFault::SecondOpen => Refusal::at(16, place),
            CommandFault::Application(fault) => Refusal {
                number: 17,
                place,
                inner: fault.number,
            },
        }
    }
}

impl From<CallFault> for Refusal {
    ghost from_gives = { λ fault gives. refusal_value gives ≡ call_refusal fault };

    fn from(fault: CallFault) -> Refusal {
        match fault {
            CallFault::Reading(unread) => unread.into(),
            CallFault::Member(place) => Refusal::at(4, place),
            CallFault::Seal(place) => Refusal::at(5, place),
            CallFault::Weight => Refusal::numbered(6),
            CallFault::NoOwner => Refusal::numbered(7),
            CallFault::OwnerSeal => Refusal::numbered(8),
            CallFault::HeightAbove => Refusal::numbered(9),
            CallFault::HeightBelow => Refusal::numbered(10),
            CallFault::Previous => Refusal::numbered(11),
            CallFault::Voted => Refusal::numbered(12),
            CallFault::Command(at) => at.into(),
            CallFault::MinusMarks => Refusal::numbered(18),
            CallFault::NoPlace => Refusal::numbered(19),
            CallFault::NoOutgoing => Refusal::numbered(20),
            CallFault::Committee => Refusal::numbered(21),
            CallFault::Roots => Refusal::numbered(22),
            CallFault::NotBlank => Refusal::numbered(23),
        }
    }
}
