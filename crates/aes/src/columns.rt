//! The state as four words, one for each column, and the steps of a round on them.

ghost use Rattle.std.specs.Prelude.{◌≡◌, ◌<◌, [], ◌∷◌};
ghost use Rattle.aes.specs.Field.{sbox};
ghost use Rattle.aes.specs.Words.{word, byte, bytes_of, columns};
ghost use Rattle.aes.specs.Cipher.{mixed, sub_bytes, shift_rows, mix_columns, add_round_key, key_words};

use crate::tables::{mix, sub};
use std::array;

/// The columns of a block.
pub(crate) fn load(block: &[u8; 16]) -> [u32; 4]
    ensures words { result ≡ key_words block.now }
    ensures columns { columns result ≡ block.now }
{
    // Written out: each column takes four bytes, and its contract names them.
    [
        column(block[0], block[1], block[2], block[3]),
        column(block[4], block[5], block[6], block[7]),
        column(block[8], block[9], block[10], block[11]),
        column(block[12], block[13], block[14], block[15]),
    ]
}

/// The column of four bytes.
pub(crate) fn column(a: u8, b: u8, c: u8, d: u8) -> u32
    ensures word { result ≡ word a b c d }
    ensures bytes { bytes_of result ≡ a ∷ b ∷ c ∷ d ∷ [] }
{
    u32::from_be_bytes([a, b, c, d])
}

// SHA-256 writes its words in the same way. No crate stands below both, and one for three lines would be no plainer.
/// The block whose columns are `s`.
pub(crate) fn store(s: [u32; 4]) -> [u8; 16]
    ensures { result ≡ columns s }
{
    let mut block = [0; 16];
    block.copy_from_slice(s.map(u32::to_be_bytes).as_flattened());
    block
}

/// AddRoundKey, with round key `n`.
pub(crate) fn add_round_key(s: [u32; 4], keys: &[u32; 44], n: usize) -> [u32; 4]
    requires { n < 11 }
    ensures { columns result ≡ add_round_key (columns s) keys.now n }
{
    array::from_fn(|c| s[c] ^ keys[4 * n + c])
}

/// SubBytes and ShiftRows.
pub(crate) fn sub_shift(s: [u32; 4]) -> [u32; 4]
    ensures { columns result ≡ shift_rows (sub_bytes (columns s)) }
{
    let [a, b, c, d] = s;
    [
        sub_column(a, b, c, d),
        sub_column(b, c, d, a),
        sub_column(c, d, a, b),
        sub_column(d, a, b, c),
    ]
}

/// SubBytes, ShiftRows and MixColumns.
pub(crate) fn sub_shift_mix(s: [u32; 4]) -> [u32; 4]
    ensures { columns result ≡ mix_columns (shift_rows (sub_bytes (columns s))) }
{
    let [a, b, c, d] = s;
    [
        mix_column(a, b, c, d),
        mix_column(b, c, d, a),
        mix_column(c, d, a, b),
        mix_column(d, a, b, c),
    ]
}

// Two steps for a column, and a function of the state for each: only the last round leaves out the mixing, and a step as
// a parameter would be no plainer.

// By shifts, since each word gives one byte alone.
/// The column to which `a`, `b`, `c` and `d` each give the byte of their row.
fn sub_column(a: u32, b: u32, c: u32, d: u32) -> u32
    ensures { bytes_of result ≡ sbox (byte 0 a) ∷ sbox (byte 1 b) ∷ sbox (byte 2 c) ∷ sbox (byte 3 d) ∷ [] }
{
    column(
        sub((a >> 24) as u8),
        sub(((b >> 16) % 256) as u8),
        sub(((c >> 8) % 256) as u8),
        sub((d % 256) as u8),
    )
}

/// The same column mixed.
fn mix_column(a: u32, b: u32, c: u32, d: u32) -> u32
    ensures { bytes_of result ≡ mixed (sbox (byte 0 a)) (sbox (byte 1 b)) (sbox (byte 2 c)) (sbox (byte 3 d)) }
{
    mix((a >> 24) as u8)
        ^ mix(((b >> 16) % 256) as u8).rotate_right(8)
        ^ mix(((c >> 8) % 256) as u8).rotate_right(16)
        ^ mix((d % 256) as u8).rotate_right(24)
}
