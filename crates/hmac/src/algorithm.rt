//! HMAC as a block algorithm.

ghost use Rattle.std.specs.Prelude.{refl};
ghost use Rattle.std.proofs.Common.{lit<};
ghost use Rattle.hmac.specs.Chains.{hmac_chaining};

use authenticator::BlockCore;
use sha256::{compress, finish};

/// The bits of one block, as which each key pad counts.
const BLOCK_BITS: u64 = 512;

/// The bits of the outer message: a key pad and a hash.
const OUTER_BITS: u64 = 768;

/// The chaining values of a key, and the inner hash of a message so far. Of the key itself nothing else is kept.
#[derive(Drop)]
pub struct HmacCore {
    pub(crate) inner: [u32; 8],
    pub(crate) outer: [u32; 8],
    pub(crate) words: [u32; 8],
    pub(crate) bits: u64,
}

impl BlockCore<64> for HmacCore {
    const TAG: usize = 32;

    ghost TAG = { 32 };

    ghost chaining = { hmac_chaining };

    ghost key = { λ c. record { inner = c.inner; outer = c.outer } };

    ghost value = { λ c. record { words = c.words; bits = c.bits } };

    ghost tag = { refl };

    ghost wide = { lit< tt };

    fn start(&mut self) {
        self.words = self.inner;
        self.bits = BLOCK_BITS;
    }

    fn step(&mut self, block: &[u8; 64]) {
        self.words = compress(self.words, block);
        self.bits = self.bits.wrapping_add(BLOCK_BITS);
    }

    fn finish(&self, block: &[u8; 64], used: usize) -> [u8; 32] {
        let rest = &block[..used.min(64)];
        let bits = self.bits.wrapping_add(8 * rest.len() as u64);
        let inner = finish(self.words, rest, bits);
        finish(self.outer, &inner, OUTER_BITS)
    }
}
