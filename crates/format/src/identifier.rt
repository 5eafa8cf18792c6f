//! The name of a chain.
ghost use Rattle.std.specs.Prelude.{◌≡◌, true, length};
ghost use Rattle.format.specs.Identifiers.{well_formed};
ghost use Rattle.format.specs.Layout.{max_depth};

use crate::layout::{MAX_DEPTH, Number};

pub mod methods;

/// One to four numbers. The first `depth` of `numbers` are used, and the others are zero; nothing is allocated.
/// The first differing number orders identifiers, and a prefix comes first: where only zeros differ in use, the depth tells.
#[derive(Clone, Copy, PartialEq, Eq, PartialOrd, Ord, Debug)]
pub struct Identifier {
    numbers: [Number; MAX_DEPTH],
    depth: u8,
    ghost full: { length numbers ≡ max_depth },
    ghost ok: { well_formed depth numbers ≡ true },
}
