//! Writing fields one after another.
ghost use Rattle.std.specs.Prelude.{◌≡◌, ◌+◌, ◌-◌, ◌≤◌, [], ◌++◌, length, take, drop, replicate};

// Bytes one behind the other, and zeros behind them. A prefix is `Copy`, which an `ArrayVec` is
// not, so that the length stands beside the bytes.
#[derive(Clone, Copy)]
pub(crate) struct Writer<const N: usize> {
    bytes: [u8; N],
    len: usize,
    ghost within: { len ≤ N },
    ghost zeros: { drop len bytes ≡ replicate (N - len) 0 },
}

impl<const N: usize> Writer<N> {
    ghost use Rattle.slots.specs.Written.{Adds, contents};

    pub(crate) fn new() -> Writer<N>
        ensures { contents result ≡ [] }
    {
        Writer {
            bytes: [0; N],
            len: 0,
        }
    }

    // What is written.
    pub(crate) fn as_slice(&self) -> &[u8]
        ensures { result.now ≡ contents self.now }
    {
        &self.bytes[..self.len]
    }

    // Writes bytes behind the others.
    pub(crate) fn add(&mut self, bytes: &[u8])
        requires { length (contents self.old) + length bytes.now ≤ N }
        ensures { Adds self.old bytes.now self.new }
    {
        let end = self.len + bytes.len();
        let all = &mut self.bytes[..];
        all[self.len..end].copy_from_slice(bytes);
        self.len = end;
    }

    // All bytes, with the zeros.
    pub(crate) fn into_bytes(self) -> [u8; N]
        ensures { result ≡ contents self.entry ++ replicate (N - length (contents self.entry)) 0 }
    {
        self.bytes
    }
}
