//! What books hold, line by line.
use books::{Books, Mark, NewRows, Side};
use format::{Identifier, Name};
use std::fmt::Display;

// The greatest count that is asked for.
const MAX_COUNT: usize = 1_024;

// A row on a line, if one was found.
fn show_found<R: Copy + Display>(rt: &HostRuntime, found: Option<R>) -> anyhow::Result<()> {
    if let Some(row) = found {
        println!(rt; "{row}")?;
    }
    Ok(())
}

/// The record of a chain, if there is one.
pub fn show_record<B: Books>(
    rt: &HostRuntime,
    books: &B,
    chain: &Identifier,
) -> anyhow::Result<()> {
    show_found(rt, books.record(chain))
}

/// A mark, if it is there.
pub fn show_mark<B: Books>(rt: &HostRuntime, books: &B, mark: &Mark) -> anyhow::Result<()> {
    show_found(rt, books.has_mark(mark).then(|| *mark))
}

/// The outgoing row of a name, if there is one.
pub fn show_outgoing<B: Books>(rt: &HostRuntime, books: &B, name: &Name) -> anyhow::Result<()> {
    show_found(rt, books.outgoing(name))
}

/// The outgoing row that waits first.
pub fn show_waiting<B: Books>(rt: &HostRuntime, books: &B) -> anyhow::Result<()> {
    match books.least_outgoing(Side::All) {
        Some(row) => println!(rt; "waiting {}", row)?,
        None => println!(rt; "waiting none")?,
    }
    Ok(())
}

// The greatest count that fits.
fn most<F: Fn(usize) -> bool>(fits: F) -> usize
    requires { F.IsAlwaysCallable fits }
{
    (1..=MAX_COUNT)
        .filter(|count| fits(*count))
        .last()
        .unwrap_or(0)
}

/// The free places of a chain, as `free RECORDS MARKS OUTGOING`.
pub fn show_free<B: Books>(rt: &HostRuntime, books: &B, chain: &Identifier) -> anyhow::Result<()> {
    let fits = |new| books.fits(chain, new);
    let records = most(|records| fits(NewRows {
        records,
        ..NewRows::NONE
    }));
    let marks = most(|marks| fits(NewRows {
        marks,
        ..NewRows::NONE
    }));
    let outgoing = most(|outgoing| fits(NewRows {
        outgoing,
        ..NewRows::NONE
    }));
    println!(rt; "free {records} {marks} {outgoing}")?;
    Ok(())
}
