//! A cursor over the commands of a block.
ghost use Rattle.std.specs.Prelude.{◌+◌, ◌^◌, ◌<◌, length};

mod moves;

/// The bytes that are left, where they begin in the frame, the place of the next command, and how
/// many commands are left.
#[derive(Clone, Copy)]
pub struct Cursor<'a> {
    rest: &'a [u8],
    at: usize,
    place: usize,
    left: u8,
    ghost ok: { (at + length rest.now < 2 ^ 64) × (place + left < 2 ^ 32) },
}
