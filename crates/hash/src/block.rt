// One block: what is written into it, and its compression into a hash value.
ghost use Rattle.std.specs.Prelude.{◌≡◌, ◌+◌, ◌≤◌, length};
ghost use Rattle.hash.specs.Sizes.{block_len, block_words};
ghost use Rattle.hash.specs.Written.{written};
ghost use Rattle.hash.specs.Words.{add_words};
ghost use Rattle.hash.specs.Sha256.{words_of, words_after, word_after, after_round, after_rounds, compressed};

use crate::sizes::{BLOCK_LEN, BLOCK_WORDS, HASH_WORDS, ROUND_GROUPS, WORD_LEN};
use crate::words::{big_sigma0, big_sigma1, ch, maj, small_sigma0, small_sigma1};

// The constants of the rounds, a group to a row.
static K: [[u32; BLOCK_WORDS]; ROUND_GROUPS] = [
    [
        0x428a2f98, 0x71374491, 0xb5c0fbcf, 0xe9b5dba5, 0x3956c25b, 0x59f111f1, 0x923f82a4,
        0xab1c5ed5, 0xd807aa98, 0x12835b01, 0x243185be, 0x550c7dc3, 0x72be5d74, 0x80deb1fe,
        0x9bdc06a7, 0xc19bf174,
    ],
    [
        0xe49b69c1, 0xefbe4786, 0x0fc19dc6, 0x240ca1cc, 0x2de92c6f, 0x4a7484aa, 0x5cb0a9dc,
        0x76f988da, 0x983e5152, 0xa831c66d, 0xb00327c8, 0xbf597fc7, 0xc6e00bf3, 0xd5a79147,
        0x06ca6351, 0x14292967,
    ],
    [
        0x27b70a85, 0x2e1b2138, 0x4d2c6dfc, 0x53380d13, 0x650a7354, 0x766a0abb, 0x81c2c92e,
        0x92722c85, 0xa2bfe8a1, 0xa81a664b, 0xc24b8b70, 0xc76c51a3, 0xd192e819, 0xd6990624,
        0xf40e3585, 0x106aa070,
    ],
    [
        0x19a4c116, 0x1e376c08, 0x2748774c, 0x34b0bcb5, 0x391c0cb3, 0x4ed8aa4a, 0x5b9cca4f,
        0x682e6ff3, 0x748f82ee, 0x78a5636f, 0x84c87814, 0x8cc70208, 0x90befffa, 0xa4506ceb,
        0xbef9a3f7, 0xc67178f2,
    ],
];

// Writes `part` into a block from the place `at` on. Not shared with other crates: a public function has no precondition.
pub(crate) fn put(block: &mut [u8; BLOCK_LEN], at: usize, part: &[u8])
    requires { at + length part.now ≤ block_len }
    ensures { block.new ≡ written block.old at part.now }
{
    let end = at + part.len();
    block[at..end].copy_from_slice(part);
}

// The words of a block, which begin its message schedule. No `map` over the array: it stays a loop of sixteen turns in the
// machine code, and a digest then takes longer than in C.
fn words_of(block: &[u8; BLOCK_LEN]) -> [u32; BLOCK_WORDS]
    ensures { result ≡ words_of block.now }
{
    let (words, _) = block.as_chunks::<WORD_LEN>();
    let mut w = [0; BLOCK_WORDS];
    for (t, bytes) in words.iter().enumerate() {
        w[t] = u32::from_be_bytes(*bytes);
    }
    w
}

// The word of a message schedule by those that stand 16, 15, 7 and 2 before it.
fn word_after(w16: u32, w15: u32, w7: u32, w2: u32) -> u32
    ensures { result ≡ word_after w16 w15 w7 w2 }
{
    small_sigma1(w2)
        .wrapping_add(w7)
        .wrapping_add(small_sigma0(w15))
        .wrapping_add(w16)
}

// The sixteen words of a message schedule that follow sixteen: each takes the place of the one 16 before it.
fn words_after(words: &[u32; BLOCK_WORDS]) -> [u32; BLOCK_WORDS]
    ensures { result ≡ words_after words.now }
{
    let [a, b, c, d, e, f, g, h, i, j, k, l, m, n, o, p] = *words;
    let a = word_after(a, b, j, o);
    let b = word_after(b, c, k, p);
    let c = word_after(c, d, l, a);
    let d = word_after(d, e, m, b);
    let e = word_after(e, f, n, c);
    let f = word_after(f, g, o, d);
    let g = word_after(g, h, p, e);
    let h = word_after(h, i, a, f);
    let i = word_after(i, j, b, g);
    let j = word_after(j, k, c, h);
    let k = word_after(k, l, d, i);
    let l = word_after(l, m, e, j);
    let m = word_after(m, n, f, k);
    let n = word_after(n, o, g, l);
    let o = word_after(o, p, h, m);
    let p = word_after(p, a, i, n);
    [a, b, c, d, e, f, g, h, i, j, k, l, m, n, o, p]
}

// One round on the working variables a to h.
fn round(v: [u32; HASH_WORDS], k: u32, w: u32) -> [u32; HASH_WORDS]
    ensures { result ≡ after_round k w v }
{
    let [a, b, c, d, e, f, g, h] = v;
    let t1 = h
        .wrapping_add(big_sigma1(e))
        .wrapping_add(ch(e, f, g))
        .wrapping_add(k)
        .wrapping_add(w);
    let t2 = big_sigma0(a).wrapping_add(maj(a, b, c));
    [t1.wrapping_add(t2), a, b, c, d.wrapping_add(t1), e, f, g]
}

// A group of rounds, written out so that the working variables change places in name only. A `for` has no proof here ("a
// call's result is laid in a local that is lent, or holds a reference or an array"), and `search` does not close a `fold`.
fn rounds(v: [u32; HASH_WORDS], k: &[u32; BLOCK_WORDS], w: &[u32; BLOCK_WORDS]) -> [u32; HASH_WORDS]
    ensures { result ≡ after_rounds block_words k.now w.now v }
{
    let v = round(v, k[0], w[0]);
    let v = round(v, k[1], w[1]);
    let v = round(v, k[2], w[2]);
    let v = round(v, k[3], w[3]);
    let v = round(v, k[4], w[4]);
    let v = round(v, k[5], w[5]);
    let v = round(v, k[6], w[6]);
    let v = round(v, k[7], w[7]);
    let v = round(v, k[8], w[8]);
    let v = round(v, k[9], w[9]);
    let v = round(v, k[10], w[10]);
    let v = round(v, k[11], w[11]);
    let v = round(v, k[12], w[12]);
    let v = round(v, k[13], w[13]);
    let v = round(v, k[14], w[14]);
    let v = round(v, k[15], w[15]);
    v
}

// Two hash values, added word by word.
fn added(x: [u32; HASH_WORDS], y: [u32; HASH_WORDS]) -> [u32; HASH_WORDS]
    ensures { result ≡ add_words x y }
{
    let [a, b, c, d, e, f, g, h] = y;
    [
        x[0].wrapping_add(a),
        x[1].wrapping_add(b),
        x[2].wrapping_add(c),
        x[3].wrapping_add(d),
        x[4].wrapping_add(e),
        x[5].wrapping_add(f),
        x[6].wrapping_add(g),
        x[7].wrapping_add(h),
    ]
}

// Compresses a block into a hash value.
pub(crate) fn compress(hash: &mut [u32; HASH_WORDS], block: &[u8; BLOCK_LEN])
    ensures { hash.new ≡ compressed hash.old block.now }
{
    let w = words_of(block);
    let v = rounds(*hash, &K[0], &w);
    let w = words_after(&w);
    let v = rounds(v, &K[1], &w);
    let w = words_after(&w);
    let v = rounds(v, &K[2], &w);
    let w = words_after(&w);
    let v = rounds(v, &K[3], &w);
    *hash = added(*hash, v);
}
