//! Writing bytes over a part of a buffer.
ghost use Rattle.std.specs.Prelude.{◌+◌, ◌^◌, ◌<◌, ◌≤◌, length};
ghost use Rattle.std.specs.List.{flat_map, AllByRecursion};
ghost use Rattle.format.specs.Layout.{number_len};
ghost use Rattle.format.specs.Numbers.{to_bytes};
ghost use Rattle.format.specs.Writing.{Wrote};

use crate::layout::Number;

// Writes `bytes` from the place `at` on, and answers the place behind them. Not shared with other crates: a public function
// has no precondition.
pub(crate) fn write_at(buffer: &mut [u8], at: usize, bytes: &[u8]) -> usize
    requires { at + length bytes.now ≤ length buffer.old }
    ensures { Wrote buffer.old at bytes.now buffer.new result }
{
    let end = at + bytes.len();
    buffer[at..end].copy_from_slice(bytes);
    end
}

// Writes numbers one after another. Each has the width of a number.
pub(crate) fn write_numbers(buffer: &mut [u8], from: usize, numbers: &[Number]) -> usize
    requires { from + length (flat_map (to_bytes number_len) numbers.now) ≤ length buffer.old }
    ensures wrote { Wrote buffer.old from (flat_map (to_bytes number_len) numbers.now) buffer.new result }
    ensures fits { AllByRecursion (λ n. n < 256 ^ number_len) numbers.now }
{
    let mut at = from;
    for number in numbers {
        at = write_at(buffer, at, &number.to_be_bytes());
    }
    at
}
