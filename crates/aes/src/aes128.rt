//! The key schedule as it is kept.

ghost use Rattle.std.specs.Prelude.{◌≡◌};
ghost use Rattle.aes.specs.Words.{columns};
ghost use Rattle.aes.specs.Cipher.{expanded};

/// AES-128 under one key. Its first round key is the key itself, and the others follow from it.
#[derive(Drop)]
pub struct Aes128 {
    pub(crate) keys: [u32; 44],
    ghost follow: { keys ≡ expanded (columns keys) },
}
