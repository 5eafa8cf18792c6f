//! Answering a request.
ghost use Rattle.std.specs.Prelude.{◌≤◌, length, IfOk};
ghost use Rattle.format.specs.Meaning.{block_value};
ghost use Rattle.member.specs.Encoding.{Encodes};

use crate::request::{Draft, Request, RequestFault, read_line};
use crate::show::{Offset, show_fault};
use crate::{frames, tally};
use format::layout::MAX_BLOCK_LEN;
use format::{Block, Command, ComposeFault, Digest, Identifier, compose};
use hex_text::Hex;
use seals::{Seals, Secret, Tags};

/// The length of a block in its caller's buffer, and its digest.
#[derive(Clone, Copy)]
pub struct Encoded {
    pub len: usize,
    pub digest: Digest,
}

// Writes a block at the front of the buffer, and answers its length and digest.
fn encode(block: &Block, buffer: &mut [u8]) -> Result<Encoded, ComposeFault>
    ensures bytes { Encodes (block_value block.now) (length buffer.old) result buffer.new }
    ensures fits { IfOk result (λ e. e.len ≤ length buffer.new) }
{
    let len = compose(block, buffer)?;
    let digest = Digest::of(&buffer[0..len]);
    Ok(Encoded { len, digest })
}

// The bytes and the digest of a block, or why it is refused.
fn show_block(rt: &HostRuntime, draft: &Draft) -> anyhow::Result<()> {
    let block = Block {
        chain: draft.chain,
        height: draft.height,
        previous: draft.previous,
        commands: draft.commands.as_slice(),
    };
    let mut buffer = [0; MAX_BLOCK_LEN];
    match encode(&block, &mut buffer) {
        Ok(Encoded { len, digest }) => {
            let bytes = Hex(&buffer[0..len]);
            println!(rt; "  block of {len} bytes: {bytes}")?;
            println!(rt; "  digest: {digest}")?;
        }
        Err(fault) => show_fault(rt, fault)?,
    }
    Ok(())
}

fn show_rings(rt: &HostRuntime, draft: &Draft, target: &Identifier) -> anyhow::Result<()> {
    println!(rt;
        "Ring records of chain {}, block {}, sent on to chain {target}:",
        draft.chain, draft.height
    )?;
    for command in &draft.commands {
        if let Command::Execute { argument, .. } = command {
            println!(rt; "  ring {}", Offset(*argument))?;
        }
    }
    show_block(rt, draft)
}

fn show_commands(rt: &HostRuntime, draft: &Draft) -> anyhow::Result<()> {
    println!(rt;
        "Block {} of chain {}, commands: {}",
        draft.height,
        draft.chain,
        draft.commands.len()
    )?;
    show_block(rt, draft)
}

// Whether the scheme holds the tag, with this one secret in its book.
fn show_tag(rt: &HostRuntime, secret: Secret, digest: &Digest, seal: &[u8]) -> anyhow::Result<()> {
    let key = secret.key;
    let book = [secret];
    let tags = Tags { book: &book };
    let word = if tags.verify(key, digest, seal) {
        "right"
    } else {
        "wrong"
    };
    println!(rt; "The tag of key {key} over digest {digest} is {word}")?;
    Ok(())
}

/// Answers the request in the line of that number.
pub(crate) fn answer(rt: &HostRuntime, number: u64, line: &str) -> anyhow::Result<()> {
    match read_line(rt, line) {
        Ok(Request::Nothing) => Ok(()),
        Ok(Request::Rings { draft, target }) => show_rings(rt, &draft, &target),
        Ok(Request::Compose { draft }) => show_commands(rt, &draft),
        Ok(Request::ShowFrame(framed)) => frames::show(rt, &framed),
        Ok(Request::TallyRings { steps }) => tally::rings(rt, steps.as_slice()),
        Ok(Request::TallyStock { steps }) => tally::stock(rt, steps.as_slice()),
        Ok(
            Request::CheckTag {
                secret,
                digest,
                seal,
            },
        ) => show_tag(rt, secret, &digest, seal.as_slice()),
        Err(RequestFault::NotUnderstood(fault)) => {
            println!(rt; "error in line {number}: {fault}")?;
            Ok(())
        }
        Err(RequestFault::Memory(fault)) => Err(fault.into()),
    }
}
