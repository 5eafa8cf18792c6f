//! Rows as lines of text.
use crate::rows::{Load, Mark, Outgoing, Record, Sign};
use std::fmt;

impl fmt::Display for Record {
    // `record ID OWNER NEXT DIGEST A B VOTE`, with `none` for no vote.
    fn fmt<W: fmt::Write>(&self, f: &mut fmt::Formatter<W>) -> fmt::Result {
        write!(
            f,
            "record {} {} {} {} {} {} ",
            self.identifier, self.owner, self.next, self.last, self.a, self.b
        )?;
        match self.vote {
            Some(digest) => write!(f, "{digest}"),
            None => write!(f, "none"),
        }
    }
}

impl fmt::Display for Sign {
    fn fmt<W: fmt::Write>(&self, f: &mut fmt::Formatter<W>) -> fmt::Result {
        match self {
            Sign::Plus => write!(f, "plus"),
            Sign::Minus => write!(f, "minus"),
        }
    }
}

impl fmt::Display for Mark {
    // `plus TARGET SENDER HEIGHT INDEX CODE VALUE`, or with `minus`.
    fn fmt<W: fmt::Write>(&self, f: &mut fmt::Formatter<W>) -> fmt::Result {
        write!(f, "{} {} {}", self.sign, self.target, self.message)
    }
}

impl fmt::Display for Outgoing {
    // `opening SENDER HEIGHT INDEX TARGET KEY` or `message SENDER HEIGHT INDEX TARGET CODE VALUE`.
    fn fmt<W: fmt::Write>(&self, f: &mut fmt::Formatter<W>) -> fmt::Result {
        match self.load {
            Load::Opening { key } => write!(f, "opening {} {} {key}", self.name, self.target),
            Load::Sent { code, value } => {
                write!(f, "message {} {} {code} {value}", self.name, self.target)
            }
        }
    }
}
