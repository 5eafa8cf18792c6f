// NIST's examples of SHA-256.
ghost use Rattle.checks.specs.Examples.{DigestStands};

use crate::Example;
use std::alloc::Global;

pub(crate) struct DigestExample {
    number: u8,
    message: &'static str,
    // in hexadecimal
    digest: &'static str,
}

impl Example for DigestExample {
    ghost stands = { λ e. DigestStands e.message.now e.digest.now };

    fn number(&self) -> u8 {
        self.number
    }

    fn holds(&self, heap: Global) -> bool {
        let Ok(digest) = hex_text::bytes_of(heap, self.digest) else {
            return false;
        };
        digest.as_slice() == hash::sha256(self.message.as_bytes()).as_slice()
    }
}

pub(crate) static DIGESTS: [DigestExample; 2] = [
    DigestExample {
        number: 8,
        message: "abc",
        digest: "ba7816bf8f01cfea414140de5dae2223b00361a396177a9cb410ff61f20015ad",
    },
    DigestExample {
        number: 9,
        message: "abcdbcdecdefdefgefghfghighijhijkijkljklmklmnlmnomnopnopq",
        digest: "248d6a61d20638b8e5c026930c3e6039a33ce45964ff2167f6ecedd419db06c1",
    },
];
