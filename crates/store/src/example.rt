//! A few rows put into one of each make of books.
use crate::show::{show_free, show_mark, show_outgoing, show_record, show_waiting};
use books::{Books, Load, Mark, Outgoing, Record};
use format::layout::DIGEST_LEN;
use format::{Digest, Height, Identifier, Key, Message, Name};
use image::Image;
use slots::layout::SLOT_LEN;
use split::Split;
use std::fmt::Display;
use tables::Tables;

// The chain of two numbers.
fn child(first: u16, second: u16) -> Identifier {
    Identifier::new(2, [first, second, 0, 0]).unwrap_or(Identifier::root(first))
}

fn digest(byte: u8) -> Digest {
    Digest {
        bytes: [byte; DIGEST_LEN],
    }
}

fn name(sender: Identifier, height: u16, index: u8) -> Name {
    Name {
        sender,
        height: Height(height),
        index,
    }
}

fn message(name: Name, code: u8, value: i64) -> Message {
    Message { name, code, value }
}

fn records() -> [Record; 4] {
    [
        Record {
            identifier: Identifier::root(0),
            owner: Key(5),
            next: Height(3),
            last: digest(0x11),
            a: 3,
            b: 1,
            vote: None,
        },
        Record {
            identifier: child(2, 7),
            owner: Key(0x0a0b_0c0d),
            next: Height(65_535),
            last: digest(0x22),
            a: -1,
            b: 1_000_000_000,
            vote: Some(digest(0x33)),
        },
        Record {
            identifier: Identifier::root(1),
            ..Record::blank()
        },
        Record {
            identifier: child(3, 1),
            owner: Key(9),
            ..Record::blank()
        },
    ]
}

fn marks() -> [Mark; 3] {
    [
        Mark::plus(
            Identifier::root(0),
            message(name(Identifier::root(1), 65_534, 15), 1, -500),
        ),
        Mark::minus(Identifier::root(1), message(name(child(2, 7), 0, 0), 2, 40)),
        Mark::minus(
            child(2, 7),
            message(name(Identifier::root(2), 8, 1), 255, 0),
        ),
    ]
}

fn outgoing() -> [Outgoing; 3] {
    [
        Outgoing {
            name: name(Identifier::root(2), 7, 0),
            target: child(2, 7),
            load: Load::Opening { key: Key(5) },
        },
        Outgoing {
            name: name(child(2, 7), 3, 0),
            target: Identifier::root(1),
            load: Load::Sent {
                code: 2,
                value: 1_000,
            },
        },
        Outgoing {
            name: name(Identifier::root(1), 3, 2),
            target: Identifier::root(0),
            load: Load::Sent {
                code: 1,
                value: -12,
            },
        },
    ]
}

// Says of a row that it did not go in.
fn report<R: Display>(rt: &HostRuntime, row: &R, went_in: bool) -> anyhow::Result<()> {
    if !went_in {
        println!(rt; "no place for {row}")?;
    }
    Ok(())
}

fn put<B: Books>(rt: &HostRuntime, books: &mut B) -> anyhow::Result<()> {
    for row in records() {
        report(rt, &row, books.put_record(row))?;
    }
    for row in marks() {
        report(rt, &row, books.put_mark(row))?;
    }
    for row in outgoing() {
        report(rt, &row, books.put_outgoing(row))?;
    }
    Ok(())
}

// The rows, what waits, and the free places of a chain on each side.
fn show_rows<B: Books>(rt: &HostRuntime, books: &B) -> anyhow::Result<()> {
    for row in records() {
        show_record(rt, books, &row.identifier)?;
    }
    for mark in marks() {
        show_mark(rt, books, &mark)?;
    }
    for row in outgoing() {
        show_outgoing(rt, books, &row.name)?;
    }
    show_waiting(rt, books)?;
    show_free(rt, books, &Identifier::root(0))?;
    show_free(rt, books, &Identifier::root(1))
}

fn show_store<B: Books>(rt: &HostRuntime, title: &str, books: &mut B) -> anyhow::Result<()> {
    println!(rt; "{title}")?;
    put(rt, books)?;
    show_rows(rt, books)
}

fn show_tables(rt: &HostRuntime) -> anyhow::Result<()> {
    let mut records = [Record::blank(); 3];
    let mut marks = [Mark::blank(); 2];
    let mut outgoing = [Outgoing::blank(); 4];
    let mut books = Tables::new(&mut records, &mut marks, &mut outgoing);
    show_store(rt, "Store in tables:", &mut books)
}

fn show_split(rt: &HostRuntime) -> anyhow::Result<()> {
    let mut records = [Record::blank(); 2];
    let mut marks = [Mark::blank(); 2];
    let mut outgoing = [Outgoing::blank(); 2];
    let first = Tables::new(&mut records, &mut marks, &mut outgoing);
    let mut records = [Record::blank(); 2];
    let mut marks = [Mark::blank(); 2];
    let mut outgoing = [Outgoing::blank(); 2];
    let second = Tables::new(&mut records, &mut marks, &mut outgoing);
    let mut books = Split { first, second };
    show_store(rt, "Store of two workers, each with tables:", &mut books)
}

fn show_image(rt: &HostRuntime) -> anyhow::Result<()> {
    let mut bytes = [0; 11 * SLOT_LEN + 5];
    let mut books = Image::new(&mut bytes);
    show_store(rt, "Store in an image of bytes:", &mut books)
}

/// The example rows in each make of books, which has a function of its own.
pub fn show_examples(rt: &HostRuntime) -> anyhow::Result<()> {
    show_tables(rt)?;
    show_split(rt)?;
    show_image(rt)
}
