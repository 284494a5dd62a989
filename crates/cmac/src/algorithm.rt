//! CMAC as a block algorithm.

ghost use Rattle.std.specs.Prelude.{◌≡◌, take, refl};
ghost use Rattle.std.proofs.Common.{lit<};
ghost use Rattle.aes.specs.Keys.{key_of};
ghost use Rattle.cmac.specs.Cmac.{subkey1, subkey2, last};
ghost use Rattle.cmac.specs.Chains.{cmac_chaining};

use crate::blocks::{pad, widen, xor};
use crate::keys::derive;
use aes::Aes128;
use authenticator::BlockCore;

/// The length of a block.
const BLOCK: usize = 16;

/// A key, as the round keys and the subkeys that follow from it, and the chain over a message so far.
#[derive(Drop)]
pub struct CmacCore {
    pub(crate) aes: Aes128,
    pub(crate) first: [u8; 16],
    pub(crate) second: [u8; 16],
    pub(crate) chain: [u8; 16],
    ghost whole: { first ≡ subkey1 (key_of aes) },
    ghost part: { second ≡ subkey2 (key_of aes) },
}

impl CmacCore {
    /// The block algorithm under `key`.
    pub(crate) fn new(key: &[u8; 16]) -> CmacCore
        ensures { key_of result.aes ≡ key.now }
    {
        let aes = Aes128::new(key);
        let (first, second) = derive(&aes);
        CmacCore {
            aes,
            first,
            second,
            chain: [0; 16],
        }
    }

    // A whole block and a count, as `finish` is given them.
    /// The last block with its subkey, where the first `used` bytes of `block` are what is left of the message.
    fn last(&self, block: &[u8; 16], used: usize) -> [u8; 16]
        ensures { result ≡ last (key_of self.now.aes) (take used block.now) }
    {
        if used < BLOCK {
            xor(&pad(&block[..used]), &self.second)
        } else {
            xor(block, &self.first)
        }
    }
}

impl BlockCore<16> for CmacCore {
    const TAG: usize = 16;

    ghost TAG = { 16 };

    ghost chaining = { cmac_chaining };

    ghost key = { λ c. key_of c.aes };

    ghost value = { λ c. c.chain };

    ghost tag = { refl };

    ghost wide = { lit< tt };

    fn start(&mut self) {
        self.chain = [0; 16];
    }

    fn step(&mut self, block: &[u8; 16]) {
        self.chain = self.aes.encrypt(xor(&self.chain, block));
    }

    fn finish(&self, block: &[u8; 16], used: usize) -> [u8; 32] {
        let last = self.last(block, used);
        widen(self.aes.encrypt(xor(&last, &self.chain)))
    }
}
