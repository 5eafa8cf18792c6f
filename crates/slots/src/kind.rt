//! What a slot holds, by its first byte.
ghost use Rattle.std.specs.Prelude.{◌≡◌};
ghost use Rattle.books.specs.Meaning.{load_value, sign_value};
ghost use Rattle.slots.specs.Bytes.{load_byte, sign_byte};
ghost use Rattle.slots.specs.Kinds.{Decodes, kind_byte};

use books::{Load, Sign};

/// What a slot holds.
#[derive(Clone, Copy, PartialEq, Eq, Debug)]
pub enum Kind {
    Free = 0,
    Record = 1,
    Plus = 2,
    Minus = 3,
    Opening = 4,
    Message = 5,
}

/// A byte that stands for no kind.
#[derive(Clone, Copy, PartialEq, Eq, Debug)]
pub struct UnknownKind(pub u8);

impl TryFrom<u8> for Kind {
    type Error = UnknownKind;

    ghost try_from_gives = { Decodes };

    fn try_from(byte: u8) -> Result<Kind, UnknownKind> {
        match byte {
            0 => Ok(Kind::Free),
            1 => Ok(Kind::Record),
            2 => Ok(Kind::Plus),
            3 => Ok(Kind::Minus),
            4 => Ok(Kind::Opening),
            5 => Ok(Kind::Message),
            _ => Err(UnknownKind(byte)),
        }
    }
}

impl From<Kind> for u8 {
    ghost from_gives = { λ kind b. b ≡ kind_byte kind };

    fn from(kind: Kind) -> u8 {
        kind as u8
    }
}

impl From<Sign> for Kind {
    ghost from_gives = { λ sign kind. kind_byte kind ≡ sign_byte (sign_value sign) };

    fn from(sign: Sign) -> Kind {
        match sign {
            Sign::Plus => Kind::Plus,
            Sign::Minus => Kind::Minus,
        }
    }
}

impl From<Load> for Kind {
    ghost from_gives = { λ load kind. kind_byte kind ≡ load_byte (load_value load) };

    fn from(load: Load) -> Kind {
        match load {
            Load::Opening { .. } => Kind::Opening,
            Load::Sent { .. } => Kind::Message,
        }
    }
}
