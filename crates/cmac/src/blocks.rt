//! Blocks of sixteen bytes: sum, padding and doubling.

ghost use Rattle.std.specs.Prelude.{◌≡◌, ◌<◌, length};
ghost use Rattle.authenticator.specs.Meaning.{padded};
ghost use Rattle.cmac.specs.Blocks.{xored};
ghost use Rattle.cmac.specs.Cmac.{padding, twice, doubled};

use std::array;

/// The sum of two blocks.
pub(crate) fn xor(a: &[u8; 16], b: &[u8; 16]) -> [u8; 16]
    ensures { result ≡ xored a.now b.now }
{
    array::from_fn(|i| a[i] ^ b[i])
}

// SHA-256 pads its blocks in the same way. No crate stands below both, and one for five lines would be no plainer.
/// Less than a block, padded.
pub(crate) fn pad(rest: &[u8]) -> [u8; 16]
    requires { length rest.now < 16 }
    ensures { result ≡ padding rest.now }
{
    let n = rest.len();
    let mut block = [0u8; 16];
    block[..n].copy_from_slice(rest);
    block[n] = 0x80;
    block
}

/// The block that stands for twice the number of `block`.
pub(crate) fn double(block: &[u8; 16]) -> [u8; 16]
    ensures { result ≡ doubled block.now }
{
    move_up(u128::from_be_bytes(*block)).to_be_bytes()
}

/// The bits of `n` moved by one to the left, with 0x87 added where a bit falls out.
fn move_up(n: u128) -> u128
    ensures { result ≡ twice n }
{
    if n >> 127 == 1 {
        (n << 1) ^ 0x87
    } else {
        n << 1
    }
}

/// A tag with zeros behind it.
pub(crate) fn widen(tag: [u8; 16]) -> [u8; 32]
    ensures { result ≡ padded tag }
{
    let mut out = [0u8; 32];
    out[..16].copy_from_slice(&tag);
    out
}
