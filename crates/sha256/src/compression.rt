//! The compression of a block into the chaining value.

ghost use Rattle.std.specs.Prelude.{◌≡◌, ℕ, ◌+◌, ◌≤◌, List};
ghost use Rattle.sha256.specs.Compression.{rounded, rounds, added, compressed};
ghost use Rattle.sha256.specs.Hash.{initial};

use crate::constants::{INITIAL, constant};
use crate::functions::{big_sigma0, big_sigma1, choose, majority};
use crate::schedule::schedule;
use std::array;

/// The chaining value after `state` and one block more.
pub fn compress(state: [u32; 8], block: &[u8; 64]) -> [u32; 8]
    ensures { result ≡ compressed state block.now }
{
    let words = schedule(block);
    let mut s = state;
    // By index: a round takes its constant and its word by its number.
    for i in 0..8usize {
        let next = eight_rounds(s, &words, 8 * i);
        s = next;
    }
    add(state, s)
}

/// The chaining value after the first block of a message.
pub fn first(block: &[u8; 64]) -> [u32; 8]
    ensures { result ≡ compressed initial block.now }
{
    compress(INITIAL, block)
}

/// Eight rounds, from round `t` on. In a row, so that no value moves from one variable to another between them.
fn eight_rounds(s: [u32; 8], words: &[u32; 64], t: usize) -> [u32; 8]
    requires { t + 8 ≤ 64 }
    ensures { (from : List ℕ) → s ≡ rounds t words.now from → result ≡ rounds (t + 8) words.now from }
{
    let s1 = round(s, constant(t), words[t]);
    let s2 = round(s1, constant(t + 1), words[t + 1]);
    let s3 = round(s2, constant(t + 2), words[t + 2]);
    let s4 = round(s3, constant(t + 3), words[t + 3]);
    let s5 = round(s4, constant(t + 4), words[t + 4]);
    let s6 = round(s5, constant(t + 5), words[t + 5]);
    let s7 = round(s6, constant(t + 6), words[t + 6]);
    round(s7, constant(t + 7), words[t + 7])
}

/// One round, with its constant and its word of the schedule.
fn round(s: [u32; 8], k: u32, w: u32) -> [u32; 8]
    ensures { result ≡ rounded s k w }
{
    let [a, b, c, d, e, f, g, h] = s;
    let t1 = h
        .wrapping_add(big_sigma1(e))
        .wrapping_add(choose(e, f, g))
        .wrapping_add(k)
        .wrapping_add(w);
    let t2 = big_sigma0(a).wrapping_add(majority(a, b, c));
    [t1.wrapping_add(t2), a, b, c, d.wrapping_add(t1), e, f, g]
}

/// The sums of the words at the same places.
fn add(s: [u32; 8], t: [u32; 8]) -> [u32; 8]
    ensures { result ≡ added s t }
{
    array::from_fn(|i| s[i].wrapping_add(t[i]))
}
