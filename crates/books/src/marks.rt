//! Making marks, and looking for minus marks of a chain.
ghost use Rattle.std.specs.Prelude.{◌≡◌};
ghost use Rattle.format.specs.Meaning.{identifier_value, message_value};
ghost use Rattle.books.specs.Lists.{any};
ghost use Rattle.books.specs.Meaning.{mark_value, sign_value};
ghost use Rattle.books.specs.Same.{minus_of, same_mark, same_sign};
ghost use Rattle.books.specs.Values.{marking, minus, plus};

use crate::rows::{Mark, Sign};
use format::{Identifier, Message};

impl Mark {
    /// The mark of a message that arrived and waits.
    pub fn plus(target: Identifier, message: Message) -> Mark
        ensures value { mark_value result ≡ marking (identifier_value target) (message_value message) plus }
        ensures equality { (x y : Mark) → ⟦<Mark as PartialEq>⟧.eq x y ≡ same_mark (mark_value x) (mark_value y) }
        ensures sign_equality { (x y : Sign) → ⟦<Sign as PartialEq>⟧.eq x y ≡ same_sign (sign_value x) (sign_value y) }
    {
        Mark {
            target,
            message,
            sign: Sign::Plus,
        }
    }

    /// The mark of a message that was received before it arrived.
    pub fn minus(target: Identifier, message: Message) -> Mark
        ensures { mark_value result ≡ marking (identifier_value target) (message_value message) minus }
    {
        Mark {
            target,
            message,
            sign: Sign::Minus,
        }
    }
}

fn is_minus_of(mark: &Mark, chain: &Identifier) -> bool
    ensures { result ≡ minus_of (identifier_value chain.now) (mark_value mark.now) }
{
    mark.target == *chain && mark.sign == Sign::Minus
}

/// Whether one of the marks is a minus mark of the chain.
pub fn any_minus(marks: &[Mark], chain: &Identifier) -> bool
    ensures { result ≡ any (λ k. minus_of (identifier_value chain.now) (mark_value k)) marks.now }
{
    marks.iter().any(|mark| is_minus_of(mark, chain))
}
