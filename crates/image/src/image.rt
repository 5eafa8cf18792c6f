//! Books in a lent memory.
ghost use Rattle.std.specs.Prelude.{◌≡◌, true};
ghost use Rattle.image.specs.Memory.{SlotsExact, cells};
ghost use Rattle.slots.specs.Cells.{apart};

pub mod methods;
mod rows;

/// Books whose rows lie in the slots of one memory of bytes. Each slot is all zeros or exactly
/// the bytes of a row, and no two hold rows with one key.
#[derive(Drop)]
pub struct Image<'a> {
    bytes: &'a mut [u8],
    ghost exact: { SlotsExact bytes.now },
    ghost unlike: { apart (cells bytes.now) ≡ true },
}
