//! Values in words.
use format::{Command, Refusal};
use std::fmt;

/// Where a ring lies, by its offset in millimetres; left is negative.
#[derive(Drop)]
pub struct Offset(pub i64);

impl fmt::Display for Offset {
    fn fmt<W: fmt::Write>(&self, f: &mut fmt::Formatter<W>) -> fmt::Result {
        let distance = self.0.unsigned_abs();
        if self.0 < 0 {
            write!(f, "{distance} mm left of the axis")
        } else if self.0 > 0 {
            write!(f, "{distance} mm right of the axis")
        } else {
            write!(f, "on the axis")
        }
    }
}

/// A command in words. A type of another crate is not given a `Display` here, but in a struct.
#[derive(Drop)]
pub struct CommandWords(pub Command);

impl fmt::Display for CommandWords {
    fn fmt<W: fmt::Write>(&self, f: &mut fmt::Formatter<W>) -> fmt::Result {
        match self.0 {
            Command::Open { child, key } => write!(f, "open chain {child} with key {key}"),
            Command::Change { key } => write!(f, "change the owner to key {key}"),
            Command::Close => write!(f, "close the chain"),
            Command::Execute {
                code,
                argument,
                target,
            } => write!(f, "execute {code} with {argument}, target chain {target}"),
            Command::Receive { message } => write!(
                f,
                "receive {} with {}, sent by chain {} at height {}, command {}",
                message.code,
                message.value,
                message.name.sender,
                message.name.height,
                message.name.index
            ),
        }
    }
}

/// Why something is refused, behind the number of the refusal.
pub(crate) fn show_fault<F: Into<Refusal> + fmt::Display + Copy>(
    rt: &HostRuntime,
    fault: F,
) -> anyhow::Result<()> {
    let refusal: Refusal = fault.into();
    println!(rt; "  refused, number {}: {fault}", refusal.number)?;
    Ok(())
}
