//! Requests from lines of text.
use crate::frames::{Framed, Kind, Scheme};
use crate::parse;
use crate::parse::ParseFault;
use applications::{Asked, RingOperation};
use format::{Command, Digest, Height, Identifier};
use seals::Secret;
use std::alloc::{AllocError, Global};
use std::fs;
use thiserror::Error;

/// A block's values, with the commands on the heap.
#[derive(Drop)]
pub struct Draft {
    pub chain: Identifier,
    pub height: Height,
    pub previous: Digest,
    pub commands: Vec<Command>,
}

/// What a line asks for.
#[derive(Drop)]
pub enum Request {
    /// An empty line, or a comment.
    Nothing,
    /// A block of ring records that are sent on to the target.
    Rings {
        draft: Draft,
        target: Identifier,
    },
    /// A block of any commands.
    Compose {
        draft: Draft,
    },
    /// What is in a frame.
    ShowFrame(Framed),
    /// The tally of ring records.
    TallyRings {
        steps: Vec<Asked>,
    },
    /// The tally of a segment stock.
    TallyStock {
        steps: Vec<Asked>,
    },
    /// Whether a tag is held.
    CheckTag {
        secret: Secret,
        digest: Digest,
        seal: Vec<u8>,
    },
}

/// Why a line gives no request.
#[derive(Debug, Drop, Error)]
pub enum RequestFault {
    #[error(transparent)]
    NotUnderstood(#[from] ParseFault),
    #[error(transparent)]
    Memory(#[from(alloc)] AllocError),
}

// A draft with no commands, from the words for its other values.
fn head(heap: Global, [chain, height, previous]: &[&str; 3]) -> Result<Draft, ParseFault> {
    Ok(Draft {
        chain: parse::identifier(chain)?,
        height: parse::height(height)?,
        previous: parse::digest(previous)?,
        commands: Vec::new(heap),
    })
}

// An execute for each offset.
fn rings(mut draft: Draft, target: Identifier, offsets: &[&str]) -> Result<Request, RequestFault> {
    for offset in offsets {
        let argument = parse::number(offset)?;
        draft.commands.push(Command::Execute {
            code: RingOperation::RecordAndSend.into(),
            argument,
            target,
        })?;
    }
    Ok(Request::Rings { draft, target })
}

fn commands(mut draft: Draft, words: &[&str]) -> Result<Request, RequestFault> {
    for word in words {
        draft.commands.push(parse::command(word)?)?;
    }
    Ok(Request::Compose { draft })
}

// A step from each word.
fn steps<F: Fn(&str) -> Result<Asked, ParseFault>>(
    heap: Global,
    words: &[&str],
    step: F,
) -> Result<Vec<Asked>, RequestFault>
    requires { F.IsAlwaysCallable step }
{
    words
        .iter()
        .map(|word| -> Result<Asked, RequestFault> { Ok(step(word)?) })
        .try_collect(heap)
}

// Bytes in hexadecimal, or the fault where they are not.
fn hex_bytes(heap: Global, word: &str, fault: ParseFault) -> Result<Vec<u8>, ParseFault> {
    hex_text::bytes_of(heap, word).map_err(|_| fault)
}

fn scheme(word: &str) -> Result<Scheme, ParseFault> {
    match word {
        "tag" => Ok(Scheme::Tag),
        "list" => Ok(Scheme::List),
        _ => Err(ParseFault::Scheme),
    }
}

// A frame in hexadecimal, or in the file that is named behind `@`.
fn frame_bytes(rt: &HostRuntime, word: &str) -> Result<Vec<u8>, ParseFault> {
    match word.strip_prefix('@') {
        Some(path) => fs::read(rt, path).map_err(|_| ParseFault::File),
        None => hex_bytes(rt.alloc(), word, ParseFault::Frame),
    }
}

fn ring_block(heap: Global, words: &[&str]) -> Result<Request, RequestFault> {
    let Some((values, [target, offsets @ ..])) = words.split_first_chunk() else {
        return Err(ParseFault::Missing.into());
    };
    let target = parse::identifier(target)?;
    rings(head(heap, values)?, target, offsets)
}

fn any_block(heap: Global, words: &[&str]) -> Result<Request, RequestFault> {
    let Some((values, words)) = words.split_first_chunk() else {
        return Err(ParseFault::Missing.into());
    };
    commands(head(heap, values)?, words)
}

fn read_frame(rt: &HostRuntime, kind: Kind, words: &[&str]) -> Result<Request, RequestFault> {
    let [word, frame] = words else {
        return Err(ParseFault::Missing.into());
    };
    Ok(Request::ShowFrame(Framed {
        kind,
        scheme: scheme(word)?,
        frame: frame_bytes(rt, frame)?,
    }))
}

fn tag(heap: Global, words: &[&str]) -> Result<Request, RequestFault> {
    let [key, secret, digest, seal] = words else {
        return Err(ParseFault::Missing.into());
    };
    Ok(Request::CheckTag {
        secret: Secret {
            key: parse::key(key)?,
            secret: parse::secret(secret)?,
        },
        digest: parse::digest(digest)?,
        seal: hex_bytes(heap, seal, ParseFault::Seal)?,
    })
}

fn by_word(rt: &HostRuntime, first: &str, words: &[&str]) -> Result<Request, RequestFault> {
    let heap = rt.alloc();
    match first {
        "ring" => ring_block(heap, words),
        "compose" => any_block(heap, words),
        "request" => read_frame(rt, Kind::Request, words),
        "certificate" => read_frame(rt, Kind::Certificate, words),
        "tally" => Ok(Request::TallyRings {
            steps: steps(heap, words, parse::ring_step)?,
        }),
        "stock" => Ok(Request::TallyStock {
            steps: steps(heap, words, parse::stock_step)?,
        }),
        "tag" => tag(heap, words),
        _ => Err(ParseFault::Word.into()),
    }
}

/// The request in a line.
pub(crate) fn read_line(rt: &HostRuntime, line: &str) -> Result<Request, RequestFault> {
    let words: Vec<&str> = line.split_whitespace().collect(rt.alloc())?;
    match words.as_slice() {
        [] => Ok(Request::Nothing),
        [first, ..] if first.starts_with('#') => Ok(Request::Nothing),
        [first, rest @ ..] => by_word(rt, first, rest),
    }
}
