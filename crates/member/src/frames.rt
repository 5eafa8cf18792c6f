//! Showing what is in a frame.
use crate::show::{CommandWords, show_fault};
use hex_text::Hex;
use reading::{
    Certificate, Cursor, Head, MAX_SEALS, Part, ReadFault, Request, read_block, read_certificate,
    read_request,
};
use seals::{CheckedList, Seals, Tags};
use std::fmt;

/// A scheme of seals, by which a frame is read.
#[derive(Clone, Copy)]
pub enum Scheme {
    Tag,
    List,
}

/// What a frame is.
#[derive(Clone, Copy)]
pub enum Kind {
    Request,
    Certificate,
}

impl fmt::Display for Kind {
    fn fmt<W: fmt::Write>(&self, f: &mut fmt::Formatter<W>) -> fmt::Result {
        f.write_str(match self {
            Kind::Request => "Request",
            Kind::Certificate => "Certificate",
        })
    }
}

/// A frame, what it is, and the scheme to read it by.
#[derive(Drop)]
pub struct Framed {
    pub kind: Kind,
    pub scheme: Scheme,
    pub frame: Vec<u8>,
}

fn show_commands(rt: &HostRuntime, mut cursor: Cursor, head: &Head) -> anyhow::Result<()> {
    for place in 0..head.count {
        let Ok(Some(command)) = cursor.next() else {
            return Ok(());
        };
        if let Some(value) = command.value() {
            println!(rt;
                "  command {place}, operands at {}: {}",
                command.operands.at,
                CommandWords(value)
            )?;
        }
    }
    Ok(())
}

fn show_head(rt: &HostRuntime, head: &Head, at: usize) -> anyhow::Result<()> {
    println!(rt;
        "  block {} of chain {}, at {at}, commands: {}",
        head.height, head.chain, head.count
    )?;
    Ok(())
}

fn show_block(rt: &HostRuntime, block: Part, head: &Head) -> anyhow::Result<()> {
    show_head(rt, head, block.at)?;
    show_commands(rt, Cursor::new(block, head.count), head)
}

fn show_votes(rt: &HostRuntime, certificate: &Certificate) -> anyhow::Result<()> {
    for place in 0..usize::from(MAX_SEALS) {
        let Some(vote) = certificate.vote(place) else {
            return Ok(());
        };
        println!(rt;
            "  member {}'s seal, at {}: {}",
            vote.member,
            vote.seal.at,
            Hex(vote.seal.bytes)
        )?;
    }
    Ok(())
}

// A request, and the head of its block.
fn request_and_head<S: Seals>(frame: &[u8]) -> Result<(Request<'_>, Head), ReadFault> {
    let request = read_request::<S>(frame)?;
    Ok((request, read_block(request.block)?))
}

// A certificate, and the head of its block.
fn certificate_and_head<S: Seals>(frame: &[u8]) -> Result<(Certificate<'_>, Head), ReadFault> {
    let certificate = read_certificate::<S>(frame)?;
    Ok((certificate, read_block(certificate.block)?))
}

// A request and a certificate have nothing in common but the block, so each is shown by its own function.
fn show_request<S: Seals>(rt: &HostRuntime, frame: &[u8]) -> anyhow::Result<()> {
    match request_and_head::<S>(frame) {
        Ok((Request { block, seal }, head)) => {
            show_block(rt, block, &head)?;
            println!(rt; "  the owner's seal, at {}: {}", seal.at, Hex(seal.bytes))?;
            Ok(())
        }
        Err(fault) => show_fault(rt, fault),
    }
}

fn show_certificate<S: Seals>(rt: &HostRuntime, frame: &[u8]) -> anyhow::Result<()> {
    match certificate_and_head::<S>(frame) {
        Ok((certificate, head)) => {
            show_block(rt, certificate.block, &head)?;
            show_votes(rt, &certificate)
        }
        Err(fault) => show_fault(rt, fault),
    }
}

fn show_by<S: Seals>(rt: &HostRuntime, kind: Kind, frame: &[u8]) -> anyhow::Result<()> {
    println!(rt; "{kind} of {} bytes:", frame.len())?;
    match kind {
        Kind::Request => show_request::<S>(rt, frame),
        Kind::Certificate => show_certificate::<S>(rt, frame),
    }
}

/// What is in a frame.
pub(crate) fn show(rt: &HostRuntime, framed: &Framed) -> anyhow::Result<()> {
    let frame = framed.frame.as_slice();
    match framed.scheme {
        Scheme::Tag => show_by::<Tags>(rt, framed.kind, frame),
        Scheme::List => show_by::<CheckedList>(rt, framed.kind, frame),
    }
}
