//! The functions of the libraries for callers in C: for benchmarks and for tests from outside.
//! A slice is passed as a pointer and then a length. A function that is handed a buffer answers whether it had room, as a
//! `bool`: C has no `Result`.
#![tactic(auto)]

ghost use Rattle.hash.specs.Sha256.{sha256_of};
ghost use Rattle.hash.specs.Hmac.{hmac_of};
ghost use Rattle.exports.specs.Answered.{Answered};

use hash::DIGEST_LEN;

mod images;

pub use images::limedistaff_image_find;

// Writes a digest to the front of a buffer, if it has room.
fn answer(digest: &[u8; DIGEST_LEN], out: &mut [u8]) -> bool
    ensures { Answered digest.now out.old result out.new }
{
    if out.len() < DIGEST_LEN {
        return false;
    }
    out[0..DIGEST_LEN].copy_from_slice(digest);
    true
}

#[unsafe(no_mangle)]
pub extern "C" fn limedistaff_sha256(message: &[u8], out: &mut [u8]) -> bool
    ensures { Answered (sha256_of message.now) out.old result out.new }
{
    answer(&hash::sha256(message), out)
}

#[unsafe(no_mangle)]
pub extern "C" fn limedistaff_hmac(key: &[u8], message: &[u8], out: &mut [u8]) -> bool
    ensures { Answered (hmac_of key.now message.now) out.old result out.new }
{
    answer(&hash::hmac(key, message), out)
}
