//! The digest: a chaining value as bytes.

ghost use Rattle.std.specs.Prelude.{◌≡◌};
ghost use Rattle.sha256.specs.Hash.{digest as digested};

/// The words as bytes, the highest of each first.
pub(crate) fn digest(state: [u32; 8]) -> [u8; 32]
    ensures { result ≡ digested state }
{
    let mut out = [0; 32];
    out.copy_from_slice(state.map(u32::to_be_bytes).as_flattened());
    out
}
