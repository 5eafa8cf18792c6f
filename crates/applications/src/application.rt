//! What an application is.
ghost use Rattle.std.specs.Prelude.{◌≡◌};
ghost use Rattle.applications.specs.Meaning.{step_value};
ghost use Rattle.applications.specs.Steps.{ApplicationValue, RuleNumbered};

/// A message that a step sends.
#[derive(Clone, Copy, PartialEq, Eq, Debug)]
pub struct Sent {
    pub code: u8,
    pub value: i64,
}

/// The chain's new numbers, and at most one message.
#[derive(Clone, Copy, PartialEq, Eq, Debug)]
pub struct Step {
    pub a: i64,
    pub b: i64,
    pub sent: Option<Sent>,
}

/// The application's own number of a refusal, from 1 to 255. A number, since a call's answer carries it whole.
#[derive(Clone, Copy, PartialEq, Eq, Debug)]
pub struct ApplicationFault {
    pub number: u8,
}

/// An application keeps two numbers, a and b, for each chain. A step depends on these, the code and the
/// value, and on nothing else: its functions take no `self`.
pub trait Application {
    // the numbers of a new chain, and the two rules of steps
    ghost meaning: { ApplicationValue };

    /// The numbers of a new chain.
    fn start() -> (i64, i64)
        ensures { result ≡ (meaning.start_a, meaning.start_b) };

    /// A step by an operation. Its message goes to the command's target.
    fn operate(a: i64, b: i64, code: u8, value: i64) -> Result<Step, ApplicationFault>
        ensures { step_value result ≡ meaning.operation a b code value };

    /// A step by a message. Its reply goes to the sender.
    fn receive(a: i64, b: i64, code: u8, value: i64) -> Result<Step, ApplicationFault>
        ensures { step_value result ≡ meaning.message a b code value };

    ghost operation_numbered: { RuleNumbered meaning.operation };

    ghost message_numbered: { RuleNumbered meaning.message };
}
