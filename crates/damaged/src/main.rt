//! Reads frames, most of them damaged, one to a line, and says of each what is in it or how it is refused.
//! A line is `request` or `certificate`, the scheme `list` or `tag`, and the frame in hexadecimal.
#![tactic(auto)]

use anyhow::anyhow;
use format::Refusal;
use reading::{
    Cursor, Head, MAX_SEALS, Part, ReadFault, read_block, read_certificate, read_request,
};
use seals::{CheckedList, Seals, Tags};

// What a frame is. Every word but `request` stands for a certificate.
#[derive(Clone, Copy)]
enum Kind {
    Request,
    Certificate,
}

impl Kind {
    fn of(word: &str) -> Kind {
        match word {
            "request" => Kind::Request,
            _ => Kind::Certificate,
        }
    }
}

// The scheme of a frame's seals. Every word but `list` stands for tags.
#[derive(Clone, Copy)]
enum Scheme {
    List,
    Tag,
}

impl Scheme {
    fn of(word: &str) -> Scheme {
        match word {
            "list" => Scheme::List,
            _ => Scheme::Tag,
        }
    }
}

// A frame, and how it is to be read.
#[derive(Clone, Copy)]
struct Framed<'a> {
    kind: Kind,
    scheme: Scheme,
    frame: &'a [u8],
}

// The block of a frame, and how many seals the frame has.
#[derive(Clone, Copy)]
struct Content<'a> {
    block: Part<'a>,
    seals: usize,
}

// A request and a certificate have nothing in common but the block, so each is read by its own function.
fn of_request<'a, S: Seals>(frame: &'a [u8]) -> Result<Content<'a>, ReadFault> {
    let request = read_request::<S>(frame)?;
    Ok(Content {
        block: request.block,
        seals: 1,
    })
}

fn of_certificate<'a, S: Seals>(frame: &'a [u8]) -> Result<Content<'a>, ReadFault> {
    let certificate = read_certificate::<S>(frame)?;
    let seals = (0..usize::from(MAX_SEALS))
        .filter(|place| certificate.vote(*place).is_some())
        .count();
    Ok(Content {
        block: certificate.block,
        seals,
    })
}

impl<'a> Framed<'a> {
    fn read_by<S: Seals>(self) -> Result<Content<'a>, ReadFault> {
        match self.kind {
            Kind::Request => of_request::<S>(self.frame),
            Kind::Certificate => of_certificate::<S>(self.frame),
        }
    }

    // The scheme chooses a type.
    fn read(self) -> Result<Content<'a>, ReadFault> {
        match self.scheme {
            Scheme::List => self.read_by::<CheckedList>(),
            Scheme::Tag => self.read_by::<Tags>(),
        }
    }

    // What is in a frame, and the head of its block.
    fn read_whole(self) -> Result<(Content<'a>, Head), ReadFault> {
        let content = self.read()?;
        Ok((content, read_block(content.block)?))
    }
}

// The byte and the place of the operands of each command.
fn show_commands(rt: &HostRuntime, mut cursor: Cursor, head: &Head) -> anyhow::Result<()> {
    for _ in 0..head.count {
        let Ok(Some(command)) = cursor.next() else {
            return Ok(());
        };
        print!(rt; " {}@{}", command.byte, command.operands.at)?;
    }
    Ok(())
}

// `ok`, the chain, the height, the count of seals, and the commands.
fn show_content(rt: &HostRuntime, content: Content, head: &Head) -> anyhow::Result<()> {
    print!(rt; "ok")?;
    for number in head.chain.numbers() {
        print!(rt; " {number}")?;
    }
    print!(rt; " height {} seals {}", head.height, content.seals)?;
    show_commands(rt, Cursor::new(content.block, head.count), head)?;
    println!(rt; "")?;
    Ok(())
}

fn show_frame(rt: &HostRuntime, framed: Framed) -> anyhow::Result<()> {
    match framed.read_whole() {
        Ok((content, head)) => show_content(rt, content, &head),
        Err(fault) => {
            let refusal = Refusal::from(fault);
            println!(rt; "refused {} {}", refusal.number, refusal.place)?;
            Ok(())
        }
    }
}

fn run(rt: &HostRuntime) -> anyhow::Result<()> {
    for line in rt.lines(rt.alloc()) {
        let line = line?;
        let words: Vec<&str> = line.split_whitespace().collect(rt.alloc())?;
        let (kind, scheme, text) = match words.as_slice() {
            [kind, scheme] => (*kind, *scheme, ""),
            [kind, scheme, text] => (*kind, *scheme, *text),
            _ => return Err(anyhow!("a line has two or three words")),
        };
        let frame = hex_text::bytes_of(rt.alloc(), text).map_err(|_| anyhow!(
            "a frame is not in hexadecimal"
        ))?;
        let framed = Framed {
            kind: Kind::of(kind),
            scheme: Scheme::of(scheme),
            frame: frame.as_slice(),
        };
        show_frame(rt, framed)?;
    }
    Ok(())
}

fn main(rt: HostRuntime) -> anyhow::Result<()> {
    run(&rt)
}
