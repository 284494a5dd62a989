//! The message schedule: a block's 64 words.

ghost use Rattle.std.specs.Prelude.{◌≡◌, ℕ, ◌+◌, ◌<◌, ◌≤◌, List, take};
ghost use Rattle.sha256.specs.Compression.{loaded, extended, schedule as scheduled};

use crate::functions::{small_sigma0, small_sigma1};
use std::array;

/// The schedule of a block.
pub(crate) fn schedule(block: &[u8; 64]) -> [u32; 64]
    ensures { result ≡ scheduled 64 block.now }
{
    let loaded: [u32; 16] = array::from_fn(|t| loaded_word(block, t));
    let mut words = [0; 64];
    words[..16].copy_from_slice(&loaded);
    // By index: each word follows from earlier words of the same array.
    for i in 2..8usize {
        extend_by_eight(&mut words, 8 * i);
    }
    words
}

/// The word at place `t` of a block.
fn loaded_word(block: &[u8; 64], t: usize) -> u32
    requires { t < 16 }
    ensures { result ≡ loaded block.now t }
{
    // By index: the schedule's definition takes a word by its place.
    u32::from_be_bytes([
        block[4 * t],
        block[4 * t + 1],
        block[4 * t + 2],
        block[4 * t + 3],
    ])
}

/// Writes the eight words from place `t` on, from those before them.
fn extend_by_eight(words: &mut [u32; 64], t: usize)
    requires { (16 ≤ t) × (t + 8 ≤ 64) }
    ensures { (block : List ℕ) → take t words.old ≡ scheduled t block → take (t + 8) words.new ≡ scheduled (t + 8) block }
{
    words[t] = extended_word(words, t);
    words[t + 1] = extended_word(words, t + 1);
    words[t + 2] = extended_word(words, t + 2);
    words[t + 3] = extended_word(words, t + 3);
    words[t + 4] = extended_word(words, t + 4);
    words[t + 5] = extended_word(words, t + 5);
    words[t + 6] = extended_word(words, t + 6);
    words[t + 7] = extended_word(words, t + 7);
}

/// The word at place `t`, from those before it.
fn extended_word(words: &[u32; 64], t: usize) -> u32
    requires { (16 ≤ t) × (t < 64) }
    ensures { result ≡ extended (take t words.now) t }
{
    small_sigma1(words[t - 2])
        .wrapping_add(words[t - 7])
        .wrapping_add(small_sigma0(words[t - 15]))
        .wrapping_add(words[t - 16])
}
