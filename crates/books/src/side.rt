//! Which chains a question is about.
ghost use Rattle.std.specs.Prelude.{◌≡◌};
ghost use Rattle.format.specs.Meaning.{identifier_value};
ghost use Rattle.books.specs.Sides.{on};

use format::Identifier;

/// All chains, or those whose first number is even or odd.
#[derive(Clone, Copy)]
pub enum Side {
    All,
    Even,
    Odd,
}

impl Side {
    /// Whether a chain lies on the side.
    pub fn has(self, chain: &Identifier) -> bool
        ensures { result ≡ on self (identifier_value chain.now) }
    {
        match self {
            Side::All => true,
            Side::Even => chain.first_is_even(),
            Side::Odd => !chain.first_is_even(),
        }
    }
}
