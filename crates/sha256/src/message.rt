//! The hash of a message, or of what is left of one.

ghost use Rattle.std.specs.Prelude.{◌≡◌, ◌*◌, ◌%◌, ◌^◌, length};
ghost use Rattle.sha256.specs.Hash.{finished, sha256};

use crate::compression::compress;
use crate::constants::INITIAL;
use crate::padding::close;

/// The SHA-256 hash of a message.
pub fn hash(message: &[u8]) -> [u8; 32]
    ensures { result ≡ sha256 message.now }
{
    finish(INITIAL, message, bit_count(message))
}

/// The hash of a message whose whole blocks up to here gave `state`, of which `rest` is left, and which has `bits` bits in all.
pub fn finish(state: [u32; 8], rest: &[u8], bits: u64) -> [u8; 32]
    ensures { result ≡ finished state rest.now bits }
{
    let mut h = state;
    let mut left = rest;
    while let Some((block, after)) = left.split_first_chunk::<64>() {
        let next = compress(h, block);
        h = next;
        left = after;
    }
    close(h, left, bits)
}

/// How many bits a message has, as the padding counts them.
fn bit_count(message: &[u8]) -> u64
    ensures { result ≡ 8 * length message.now % 2 ^ 64 }
{
    (message.len() as u64).wrapping_mul(8)
}
