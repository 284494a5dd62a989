//! The last blocks of a message, with the padding.

ghost use Rattle.std.specs.Prelude.{◌≡◌, ◌-◌, ◌<◌, ◌∷◌, ◌++◌, length, take, replicate};
ghost use Rattle.sha256.specs.Hash.{bytes8, finished};

use crate::compression::compress;
use crate::digest::digest;

/// The hash of a message whose blocks so far gave `state`, of which less than a block is left, and which has `bits` bits in all.
pub(crate) fn close(state: [u32; 8], rest: &[u8], bits: u64) -> [u8; 32]
    requires { length rest.now < 64 }
    ensures { result ≡ finished state rest.now bits }
{
    let block = marked(rest);
    if rest.len() < 56 {
        digest(compress(state, &counted(block, bits)))
    } else {
        digest(compress(compress(state, &block), &counted([0; 64], bits)))
    }
}

/// A block with the end of a message, the bit 1 behind it, and zeros.
fn marked(rest: &[u8]) -> [u8; 64]
    requires { length rest.now < 64 }
    ensures { result ≡ rest.now ++ 0x80 ∷ replicate (63 - length rest.now) 0 }
{
    let n = rest.len();
    let mut block = [0u8; 64];
    block[..n].copy_from_slice(rest);
    block[n] = 0x80;
    block
}

/// A block with the count of bits at its end.
fn counted(block: [u8; 64], bits: u64) -> [u8; 64]
    ensures { result ≡ take 56 block ++ bytes8 bits }
{
    let mut last = block;
    last[56..].copy_from_slice(&count(bits));
    last
}

/// The count of bits as it stands in a block.
fn count(bits: u64) -> [u8; 8]
    ensures { result ≡ bytes8 bits }
{
    bits.to_be_bytes()
}
