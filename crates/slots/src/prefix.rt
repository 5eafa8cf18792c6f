//! What the slots that are looked for begin with.
use crate::kind::Kind;
use crate::layout::MAX_PREFIX_LEN;
use crate::writer::Writer;

pub mod methods;

/// A first byte from that of `first` to that of `last`, and then the bytes of `key`.
#[derive(Clone, Copy)]
pub struct Prefix {
    first: Kind,
    last: Kind,
    key: Writer<MAX_PREFIX_LEN>,
}
