//! The segment stock: a is what a chain has, b what arrived by messages.
ghost use Rattle.std.specs.Prelude.{◌≡◌, not, pos, ◌-ℤ◌, ◌≤ℤ◌, int_lt, OnOk};
ghost use Rattle.std.specs.Option.{option_map};
ghost use Rattle.applications.specs.Codes.{Checks, Decodes, stock_fault, stock_message_code, stock_operation_code};
ghost use Rattle.applications.specs.Meaning.{rule_value, sent_value};
ghost use Rattle.applications.specs.Steps.{refuse_unless};
ghost use Rattle.applications.specs.Stock.{delivery, kept, lot_allowed, max_lot, said, segment_stock, stock_allowed, stock_message, stock_operation};
ghost use Rattle.applications.specs.Numbered.{stock_message_numbered, stock_operation_numbered};
ghost use Rattle.applications.specs.declared.stock.StockFault.TheVariants.{LotOutside, UnknownCode};

use crate::application::{Application, ApplicationFault, Sent, Step};
use thiserror::Error;

const MAX_LOT: i64 = 1_000;

const MAX_STOCK: i64 = 1_000_000_000;

/// An operation of the segment stock, by its code.
#[derive(Clone, Copy, PartialEq, Eq, Debug)]
pub enum StockOperation {
    /// Casts segments.
    Cast = 1,
    /// Sends segments off.
    SendOff = 2,
    /// Orders segments.
    PlaceOrder = 3,
}

/// A message of the segment stock, by its code.
#[derive(Clone, Copy, PartialEq, Eq, Debug)]
pub enum StockMessage {
    /// Segments that were sent off.
    Delivery = 1,
    /// An order for segments.
    Order = 2,
}

/// Why the segment stock refuses a step, by its number.
#[derive(Clone, Copy, PartialEq, Eq, Debug, Error)]
pub enum StockFault {
    #[error("the code is unknown")]
    UnknownCode = 1,
    #[error("the number of segments is outside 1 to 1000")]
    LotOutside = 2,
    #[error("fewer segments are here than are taken")]
    TooFew = 3,
    #[error("a number is outside 0 to 1000000000")]
    OutsideLimits = 4,
}

impl From<StockOperation> for u8 {
    ghost from_gives = { λ operation code. code ≡ stock_operation_code operation };

    fn from(operation: StockOperation) -> u8 {
        operation as u8
    }
}

impl TryFrom<u8> for StockOperation {
    type Error = StockFault;

    ghost try_from_gives = { Decodes stock_operation_code UnknownCode };

    fn try_from(code: u8) -> Result<StockOperation, StockFault> {
        match code {
            1 => Ok(StockOperation::Cast),
            2 => Ok(StockOperation::SendOff),
            3 => Ok(StockOperation::PlaceOrder),
            _ => Err(StockFault::UnknownCode),
        }
    }
}

impl From<StockMessage> for u8 {
    ghost from_gives = { λ message code. code ≡ stock_message_code message };

    fn from(message: StockMessage) -> u8 {
        message as u8
    }
}

impl TryFrom<u8> for StockMessage {
    type Error = StockFault;

    ghost try_from_gives = { Decodes stock_message_code UnknownCode };

    fn try_from(code: u8) -> Result<StockMessage, StockFault> {
        match code {
            1 => Ok(StockMessage::Delivery),
            2 => Ok(StockMessage::Order),
            _ => Err(StockFault::UnknownCode),
        }
    }
}

impl From<StockFault> for ApplicationFault {
    ghost from_gives = { λ fault r. r.number ≡ stock_fault fault };

    fn from(fault: StockFault) -> ApplicationFault {
        ApplicationFault {
            number: fault as u8,
        }
    }
}

impl TryFrom<ApplicationFault> for StockFault {
    type Error = ApplicationFault;

    ghost try_from_gives = { λ fault r. Decodes stock_fault fault fault.number r };

    fn try_from(fault: ApplicationFault) -> Result<StockFault, ApplicationFault> {
        match fault.number {
            1 => Ok(StockFault::UnknownCode),
            2 => Ok(StockFault::LotOutside),
            3 => Ok(StockFault::TooFew),
            4 => Ok(StockFault::OutsideLimits),
            _ => Err(fault),
        }
    }
}

pub struct SegmentStock;

fn check_lot(n: i64) -> Result<(), StockFault>
    ensures value { Checks (lot_allowed n) LotOutside result }
    ensures within { OnOk result ((pos 1 ≤ℤ n) × (n ≤ℤ max_lot)) }
{
    if n < 1 || n > MAX_LOT {
        return Err(StockFault::LotOutside);
    }
    Ok(())
}

fn sent(message: StockMessage, n: i64) -> Option<Sent>
    ensures { option_map sent_value result ≡ said (stock_message_code message) n }
{
    Some(Sent {
        code: message.into(),
        value: n,
    })
}

fn is_allowed(x: i64) -> bool
    ensures { result ≡ stock_allowed x }
{
    0 <= x && x <= MAX_STOCK
}

// The new numbers, where these and the old ones are allowed.
fn keep(a: i64, b: i64, new_a: i64, new_b: i64, sent: Option<Sent>) -> Result<Step, StockFault>
    ensures { rule_value stock_fault result ≡ kept a b new_a new_b (option_map sent_value sent) }
{
    if is_allowed(a) && is_allowed(b) && is_allowed(new_a) && is_allowed(new_b) {
        Ok(Step {
            a: new_a,
            b: new_b,
            sent,
        })
    } else {
        Err(StockFault::OutsideLimits)
    }
}

// n less in a, which are sent.
fn take(a: i64, b: i64, n: i64) -> Result<Step, StockFault>
    requires { (pos 1 ≤ℤ n) × (n ≤ℤ max_lot) }
    ensures { rule_value stock_fault result ≡ refuse_unless (not (int_lt a n)) 3 (kept a b (a -ℤ n) b (said delivery n)) }
{
    if a < n {
        return Err(StockFault::TooFew);
    }
    keep(a, b, a - n, b, sent(StockMessage::Delivery, n))
}

impl StockOperation {
    fn step(self, a: i64, b: i64, n: i64) -> Result<Step, StockFault>
        ensures { rule_value stock_fault result ≡ stock_operation a b (stock_operation_code self) n }
    {
        check_lot(n)?;
        match self {
            StockOperation::Cast => keep(a, b, a.saturating_add(n), b, None),
            StockOperation::SendOff => take(a, b, n),
            StockOperation::PlaceOrder => keep(a, b, a, b, sent(StockMessage::Order, n)),
        }
    }
}

impl StockMessage {
    fn step(self, a: i64, b: i64, n: i64) -> Result<Step, StockFault>
        ensures { rule_value stock_fault result ≡ stock_message a b (stock_message_code self) n }
    {
        check_lot(n)?;
        match self {
            StockMessage::Delivery => keep(a, b, a.saturating_add(n), b.saturating_add(n), None),
            StockMessage::Order => take(a, b, n),
        }
    }
}

impl Application for SegmentStock {
    ghost meaning = { segment_stock };

    ghost operation_numbered = { stock_operation_numbered };

    ghost message_numbered = { stock_message_numbered };

    fn start() -> (i64, i64) {
        (0, 0)
    }

    fn operate(a: i64, b: i64, code: u8, value: i64) -> Result<Step, ApplicationFault> {
        Ok(StockOperation::try_from(code)?.step(a, b, value)?)
    }

    fn receive(a: i64, b: i64, code: u8, value: i64) -> Result<Step, ApplicationFault> {
        Ok(StockMessage::try_from(code)?.step(a, b, value)?)
    }
}
