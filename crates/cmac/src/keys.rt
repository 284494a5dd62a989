//! The subkeys.

ghost use Rattle.std.specs.Prelude.{◌≡◌};
ghost use Rattle.aes.specs.Keys.{key_of};
ghost use Rattle.cmac.specs.Cmac.{subkey1, subkey2};

use crate::blocks::double;
use aes::Aes128;

/// The subkeys of `key`, first that for a complete last block.
pub fn subkeys(key: &[u8; 16]) -> ([u8; 16], [u8; 16])
    ensures first { result.0 ≡ subkey1 key.now }
    ensures second { result.1 ≡ subkey2 key.now }
{
    derive(&Aes128::new(key))
}

/// The subkeys of the key that `aes` keeps.
pub(crate) fn derive(aes: &Aes128) -> ([u8; 16], [u8; 16])
    ensures first { result.0 ≡ subkey1 (key_of aes.now) }
    ensures second { result.1 ≡ subkey2 (key_of aes.now) }
{
    let first = double(&aes.encrypt([0; 16]));
    let second = double(&first);
    (first, second)
}
