//! The encryption of a block.

ghost use Rattle.std.specs.Prelude.{◌≡◌};
ghost use Rattle.aes.specs.Cipher.{encrypted, cipher};
ghost use Rattle.aes.specs.Keys.{key_of};

use crate::aes128::Aes128;
use crate::columns::{add_round_key, load, store, sub_shift, sub_shift_mix};
use crate::schedule::expand;

impl Aes128 {
    /// AES-128 under `key`.
    pub fn new(key: &[u8; 16]) -> Aes128
        ensures { key_of result ≡ key.now }
    {
        Aes128 { keys: expand(key) }
    }

    /// The block encrypted.
    pub fn encrypt(&self, block: [u8; 16]) -> [u8; 16]
        ensures { result ≡ cipher (key_of self.now) block }
    {
        encrypt(&self.keys, block)
    }
}

/// The block encrypted under a key schedule.
fn encrypt(keys: &[u32; 44], block: [u8; 16]) -> [u8; 16]
    ensures { result ≡ encrypted keys.now block }
{
    let mut s = add_round_key(load(&block), keys, 0);
    // By index: a round takes its key by its number.
    for n in 1..10usize {
        let next = add_round_key(sub_shift_mix(s), keys, n);
        s = next;
    }
    store(add_round_key(sub_shift(s), keys, 10))
}
