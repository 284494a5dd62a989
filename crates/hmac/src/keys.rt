//! What is kept of a key, and the lent bytes in which its pads are formed.

ghost use Rattle.std.specs.Prelude.{◌≡◌, length, replicate};
ghost use Rattle.sha256.specs.Compression.{compressed};
ghost use Rattle.sha256.specs.Hash.{initial};
ghost use Rattle.hmac.specs.Hmac.{pad};

use sha256::first;

/// The length of a key.
pub const KEY: usize = 32;

/// The length of the bytes in which a key pad is formed: one block.
pub const PADS: usize = 64;

/// Holds the lent bytes in which key pads are formed, and zeroes them at its end, so that no way out leaves a trace
/// of the key there.
pub struct Wiped<'a> {
    pub pads: &'a mut [u8; PADS],
}

impl Drop for Wiped<'_> {
    fn drop(self)
        ensures { self.exit.0.now ≡ replicate 64 0 }
    {
        self.pads.fill(0);
        let Wiped { pads: _ } = self;
    }
}

// The mark is the byte that the standard sums with the key, and names no kind.
/// The chaining value after a key pad, which is formed in `pads`.
pub(crate) fn chain(pads: &mut [u8; PADS], key: &[u8; KEY], mark: u8) -> [u32; 8]
    ensures { result ≡ compressed initial (pad mark key.now) }
{
    form(pads, key, mark);
    first(pads)
}

// In place, so that no copy of the key is left elsewhere.
fn form(pads: &mut [u8; PADS], key: &[u8; KEY], mark: u8)
    ensures { pads.new ≡ pad mark key.now }
{
    pads.fill(0);
    pads[..KEY].copy_from_slice(key);
    for byte in pads.iter_mut() {
        *byte ^= mark;
    }
}
