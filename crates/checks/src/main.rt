//! Prints a line for each published example: its number, a blank, and `ok` or `bad`.
#![tactic(auto)]

ghost use Rattle.std.specs.Prelude.{◌≡◌, true};

mod digests;
mod tags;

use digests::DIGESTS;
use std::alloc::Global;
use std::io;
use tags::TAGS;

// A published example.
pub(crate) trait Example {
    // what the example says of the definitions
    ghost stands: { Self → Type 0 };

    // The number of its line.
    fn number(&self) -> u8;

    // Whether the code gives the published value; false also for want of memory.
    fn holds(&self, heap: Global) -> bool
        ensures { result ≡ true → stands self.now };
}

fn report<E: Example>(rt: &HostRuntime, examples: &[E]) -> io::Result<()> {
    for example in examples {
        let number = example.number();
        let verdict = if example.holds(rt.alloc()) {
            "ok"
        } else {
            "bad"
        };
        println!(rt; "{number} {verdict}")?;
    }
    Ok(())
}

fn main(rt: HostRuntime) -> io::Result<()> {
    report(&rt, &DIGESTS)?;
    report(&rt, &TAGS)
}
