//! The key schedule.

ghost use Rattle.std.specs.Prelude.{◌≡◌, ◌<◌, ◌≤◌, take};
ghost use Rattle.aes.specs.Words.{columns};
ghost use Rattle.aes.specs.Cipher.{sub_word, rot_word, scheduled, expanded};

use crate::columns::{column, load};
use crate::tables::{constant, sub};

/// The round keys of a key, of which the first is the key itself.
pub(crate) fn expand(key: &[u8; 16]) -> [u32; 44]
    ensures words { result ≡ expanded key.now }
    ensures key { columns result ≡ key.now }
{
    let first = load(key);
    let mut w = [0; 44];
    w[..4].copy_from_slice(&first);
    // By index: each word follows from earlier words of the same array.
    for i in 4..44usize {
        w[i] = next(&w, i);
    }
    w
}

/// Word `i`, from those before it.
fn next(w: &[u32; 44], i: usize) -> u32
    requires { (4 ≤ i) × (i < 44) }
    ensures { result ≡ scheduled (take i w.now) i }
{
    if i % 4 == 0 {
        w[i - 4] ^ (turned(w[i - 1]) ^ column(constant(i / 4 - 1), 0, 0, 0))
    } else {
        w[i - 4] ^ w[i - 1]
    }
}

/// SubWord of RotWord.
fn turned(w: u32) -> u32
    ensures { result ≡ sub_word (rot_word w) }
{
    let [a, b, c, d] = w.to_be_bytes();
    column(sub(b), sub(c), sub(d), sub(a))
}
