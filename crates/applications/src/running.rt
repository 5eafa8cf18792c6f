//! Steps in a row, from the numbers of a new chain.
ghost use Rattle.std.specs.Prelude.{◌≡◌, map};
ghost use Rattle.applications.specs.Meaning.{asked_value, step_value, tally_value};
ghost use Rattle.applications.specs.Tallies.{RingsAreCounted, StockBalances, made, tally_from};

use crate::application::{Application, ApplicationFault, Step};

/// A step that is asked for: an operation of the chain's own block, or a message that it receives.
#[derive(Clone, Copy, PartialEq, Eq, Debug)]
pub enum Asked {
    Operation { code: u8, value: i64 },
    Message { code: u8, value: i64 },
}

/// A step that is refused, by its place in the row.
#[derive(Clone, Copy, PartialEq, Eq, Debug)]
pub struct Stop {
    pub place: usize,
    pub fault: ApplicationFault,
}

/// The two numbers after the steps, or after those before the first refused one.
#[derive(Clone, Copy, PartialEq, Eq, Debug)]
pub struct Tally {
    pub a: i64,
    pub b: i64,
    pub stop: Option<Stop>,
}

fn make_step<A: Application>(a: i64, b: i64, asked: &Asked) -> Result<Step, ApplicationFault>
    ensures { step_value result ≡ made A.Application.meaning a b (asked_value asked.now) }
{
    match asked {
        Asked::Operation { code, value } => A::operate(a, b, *code, *value),
        Asked::Message { code, value } => A::receive(a, b, *code, *value),
    }
}

/// Makes the steps in order, from the numbers of a new chain. Where none is refused, the ring register has counted the rings
/// and those left of the axis, and the segment stock has what was added less what was taken, and what arrived.
pub fn run_steps<A: Application>(steps: &[Asked]) -> Tally
    ensures value { tally_value result ≡ tally_from A.Application.meaning (map asked_value steps.now) 0 A.Application.meaning.start_a A.Application.meaning.start_b }
    ensures rings { RingsAreCounted }
    ensures stock { StockBalances }
{
    let (mut a, mut b) = A::start();
    for (place, asked) in steps.iter().enumerate() {
        match make_step::<A>(a, b, asked) {
            Ok(step) => (a, b) = (step.a, step.b),
            Err(fault) => {
                let stop = Some(Stop { place, fault });
                return Tally { a, b, stop };
            }
        }
    }
    Tally { a, b, stop: None }
}
