//! The ring register: a counts rings, b those left of the axis.
ghost use Rattle.std.specs.Prelude.{◌≡◌};
ghost use Rattle.std.specs.Option.{option_map};
ghost use Rattle.applications.specs.Codes.{Decodes, ring_fault, ring_message_code, ring_operation_code};
ghost use Rattle.applications.specs.Meaning.{rule_value, sent_value};
ghost use Rattle.applications.specs.Ring.{counted, ring_message, ring_operation, ring_register};
ghost use Rattle.applications.specs.Numbered.{ring_message_numbered, ring_operation_numbered};
ghost use Rattle.applications.specs.declared.ring.RingFault.TheVariants.{UnknownCode};

use crate::application::{Application, ApplicationFault, Sent, Step};
use thiserror::Error;

const MIN_OFFSET: i64 = -500;

const MAX_OFFSET: i64 = 500;

const MAX_RINGS: i64 = 1_000_000;

/// An operation of the ring register, by its code.
#[derive(Clone, Copy, PartialEq, Eq, Debug)]
pub enum RingOperation {
    /// Counts a ring and sends it on.
    RecordAndSend = 1,
    /// Counts a ring.
    RecordOnly = 2,
}

/// A message of the ring register, by its code.
#[derive(Clone, Copy, PartialEq, Eq, Debug)]
pub enum RingMessage {
    /// A ring that was counted and sent on.
    Recorded = 1,
}

/// Why the ring register refuses a step, by its number.
#[derive(Clone, Copy, PartialEq, Eq, Debug, Error)]
pub enum RingFault {
    #[error("the code is unknown")]
    UnknownCode = 1,
    #[error("the offset is outside -500 to 500 mm")]
    OffsetOutside = 2,
    #[error("the counts are outside their limits")]
    CountsOutside = 3,
}

impl From<RingOperation> for u8 {
    ghost from_gives = { λ operation code. code ≡ ring_operation_code operation };

    fn from(operation: RingOperation) -> u8 {
        operation as u8
    }
}

impl TryFrom<u8> for RingOperation {
    type Error = RingFault;

    ghost try_from_gives = { Decodes ring_operation_code UnknownCode };

    fn try_from(code: u8) -> Result<RingOperation, RingFault> {
        match code {
            1 => Ok(RingOperation::RecordAndSend),
            2 => Ok(RingOperation::RecordOnly),
            _ => Err(RingFault::UnknownCode),
        }
    }
}

impl From<RingMessage> for u8 {
    ghost from_gives = { λ message code. code ≡ ring_message_code message };

    fn from(message: RingMessage) -> u8 {
        message as u8
    }
}

impl TryFrom<u8> for RingMessage {
    type Error = RingFault;

    ghost try_from_gives = { Decodes ring_message_code UnknownCode };

    fn try_from(code: u8) -> Result<RingMessage, RingFault> {
        match code {
            1 => Ok(RingMessage::Recorded),
            _ => Err(RingFault::UnknownCode),
        }
    }
}

impl From<RingFault> for ApplicationFault {
    ghost from_gives = { λ fault r. r.number ≡ ring_fault fault };

    fn from(fault: RingFault) -> ApplicationFault {
        ApplicationFault {
            number: fault as u8,
        }
    }
}

impl TryFrom<ApplicationFault> for RingFault {
    type Error = ApplicationFault;

    ghost try_from_gives = { λ fault r. Decodes ring_fault fault fault.number r };

    fn try_from(fault: ApplicationFault) -> Result<RingFault, ApplicationFault> {
        match fault.number {
            1 => Ok(RingFault::UnknownCode),
            2 => Ok(RingFault::OffsetOutside),
            3 => Ok(RingFault::CountsOutside),
            _ => Err(fault),
        }
    }
}

pub struct RingRegister;

// One ring more with this offset in millimetres, left negative, and what is sent.
fn count(a: i64, b: i64, offset: i64, sent: Option<Sent>) -> Result<Step, RingFault>
    ensures { rule_value ring_fault result ≡ counted a b offset (option_map sent_value sent) }
{
    // Two tests: the goals of a signed range's `contains` stay open ("`search` gave up at one of its limits").
    if offset < MIN_OFFSET || offset > MAX_OFFSET {
        return Err(RingFault::OffsetOutside);
    }
    if b < 0 || b > a || a >= MAX_RINGS {
        return Err(RingFault::CountsOutside);
    }
    let b = if offset < 0 { b + 1 } else { b };
    Ok(Step { a: a + 1, b, sent })
}

impl RingOperation {
    fn step(self, a: i64, b: i64, offset: i64) -> Result<Step, RingFault>
        ensures { rule_value ring_fault result ≡ ring_operation a b (ring_operation_code self) offset }
    {
        match self {
            RingOperation::RecordAndSend => count(
                a,
                b,
                offset,
                Some(Sent {
                    code: RingMessage::Recorded.into(),
                    value: offset,
                }),
            ),
            RingOperation::RecordOnly => count(a, b, offset, None),
        }
    }
}

impl RingMessage {
    fn step(self, a: i64, b: i64, offset: i64) -> Result<Step, RingFault>
        ensures { rule_value ring_fault result ≡ ring_message a b (ring_message_code self) offset }
    {
        match self {
            RingMessage::Recorded => count(a, b, offset, None),
        }
    }
}

impl Application for RingRegister {
    ghost meaning = { ring_register };

    ghost operation_numbered = { ring_operation_numbered };

    ghost message_numbered = { ring_message_numbered };

    fn start() -> (i64, i64) {
        (0, 0)
    }

    fn operate(a: i64, b: i64, code: u8, value: i64) -> Result<Step, ApplicationFault> {
        Ok(RingOperation::try_from(code)?.step(a, b, value)?)
    }

    fn receive(a: i64, b: i64, code: u8, value: i64) -> Result<Step, ApplicationFault> {
        Ok(RingMessage::try_from(code)?.step(a, b, value)?)
    }
}
