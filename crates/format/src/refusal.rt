//! What a refused call answers.
ghost use Rattle.std.specs.Prelude.{◌≡◌};
ghost use Rattle.format.specs.Meaning.{refusal_value};
ghost use Rattle.format.specs.Outcomes.{refusal, refusal_at};

/// The number of the refusal, the place of the command or seal that it is about, and the
/// application's own number. Place and inner number are 0 where they do not apply.
// Numbers and no enum: they are the answer's format. The faults that they are made from are enums.
#[derive(Clone, Copy, PartialEq, Eq, Debug)]
pub struct Refusal {
    pub number: u8,
    pub place: usize,
    pub inner: u8,
}

impl Refusal {
    /// A refusal with no place.
    pub fn numbered(number: u8) -> Refusal
        ensures { refusal_value result ≡ refusal number }
    {
        Refusal::at(number, 0)
    }

    /// A refusal of a command or a seal by its place.
    pub fn at(number: u8, place: usize) -> Refusal
        ensures { refusal_value result ≡ refusal_at number place }
    {
        Refusal {
            number,
            place,
            inner: 0,
        }
    }
}
