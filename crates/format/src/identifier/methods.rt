//! Making an identifier, and looking at its numbers.
ghost use Rattle.std.specs.Prelude.{◌≡◌, [], ◌∷◌};
ghost use Rattle.std.specs.Option.{option_map};
ghost use Rattle.std.specs.Result.{result_ok};
ghost use Rattle.format.specs.Bytes.{identifier_bytes};
ghost use Rattle.format.specs.Identifiers.{Identifies, all_zero, well_formed, identified};
ghost use Rattle.format.specs.Meaning.{identifier_value};
ghost use Rattle.format.specs.Order.{order_identifiers};
ghost use Rattle.format.specs.Same.{first_is_even, same_identifier};

use super::Identifier;
use crate::layout::{IDENTIFIER_LEN, MAX_DEPTH, Number};
use crate::writing::{write_at, write_numbers};
use std::fmt;
use thiserror::Error;

/// The depth is not 1 to 4, or a number past it is not zero.
#[derive(Clone, Copy, PartialEq, Eq, Debug, Error)]
#[error("an identifier has 1 to 4 numbers, and zeros behind them")]
pub struct NotWellFormed;

fn are_zero(numbers: &[Number]) -> bool
    ensures { result ≡ all_zero numbers.now }
{
    numbers.iter().all(|number| *number == 0)
}

fn is_well_formed(depth: u8, numbers: &[Number; MAX_DEPTH]) -> bool
    ensures { result ≡ well_formed depth numbers.now }
{
    let used = usize::from(depth);
    (1..=MAX_DEPTH).contains(&used) && are_zero(&numbers[used..])
}

impl Identifier {
    /// The identifier of the first `depth` numbers, where the others are zero.
    pub fn new(depth: u8, numbers: [Number; MAX_DEPTH]) -> Result<Identifier, NotWellFormed>
        ensures { option_map identifier_value (result_ok result) ≡ identified depth numbers }
    {
        if !is_well_formed(depth, &numbers) {
            return Err(NotWellFormed);
        }
        Ok(Identifier { depth, numbers })
    }

    /// The identifier of one number.
    pub fn root(number: Number) -> Identifier
        ensures { identifier_value result ≡ number ∷ [] }
    {
        let mut numbers = [0; MAX_DEPTH];
        numbers[0] = number;
        Identifier { depth: 1, numbers }
    }

    /// Whether the first number is even.
    pub fn first_is_even(&self) -> bool
        ensures { result ≡ first_is_even (identifier_value self.now) }
    {
        match self.numbers() {
            [first, ..] => *first % 2 == 0,
            [] => true,
        }
    }

    /// The numbers in use. They tell which identifiers are equal, and which is the lesser.
    pub fn numbers(&self) -> &[Number]
        ensures value { result.now ≡ identifier_value self.now }
        ensures equality { (x y : Identifier) → ⟦<Identifier as PartialEq>⟧.eq x y ≡ same_identifier (identifier_value x) (identifier_value y) }
        ensures order { (x y : Identifier) → ⟦<Identifier as Ord>⟧.cmp x y ≡ order_identifiers (identifier_value x) (identifier_value y) }
    {
        &self.numbers[..usize::from(self.depth)]
    }

    /// The depth, then four numbers. Every identifier fits these bytes.
    pub fn to_bytes(&self) -> [u8; IDENTIFIER_LEN]
        ensures bytes { result ≡ identifier_bytes (identifier_value self.now) }
        ensures fits { Identifies (identifier_value self.now) }
    {
        let mut bytes = [0; IDENTIFIER_LEN];
        let at = write_at(&mut bytes, 0, &[self.depth]);
        write_numbers(&mut bytes, at, &self.numbers);
        bytes
    }
}

impl fmt::Display for Identifier {
    // The numbers, joined by dots.
    fn fmt<W: fmt::Write>(&self, f: &mut fmt::Formatter<W>) -> fmt::Result {
        for (i, number) in self.numbers().iter().enumerate() {
            if i > 0 {
                write!(f, ".")?;
            }
            write!(f, "{number}")?;
        }
        Ok(())
    }
}
