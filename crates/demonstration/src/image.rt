//! The programs of the demonstration.

ghost use Rattle.std.specs.Prelude.{◌+◌, ◌≤◌, length};

/// The length of an image: two blocks.
pub(crate) const LEN: usize = 600;

/// The version that the factory loads, and the one that takes its place.
pub(crate) const OLD: u8 = 7;

pub(crate) const NEW: u8 = 8;

/// The nonce of a version.
pub(crate) fn nonce(version: u8) -> [u8; 8] {
    [version, 1, 2, 3, 4, 5, 6, 7]
}

/// The image of a version: its program is the version's number, over and over.
pub(crate) fn image(version: u8) -> [u8; LEN] {
    let mut bytes = [version; LEN];
    lay(&mut bytes, 0, &(LEN as u16).to_le_bytes());
    lay(&mut bytes, 2, &[version, 0]);
    lay(&mut bytes, 4, &nonce(version));
    lay(&mut bytes, LEN - 32, &[0xFF; 32]);
    bytes
}

fn lay(bytes: &mut [u8], at: usize, part: &[u8])
    requires { at + length part.now ≤ length bytes.old }
{
    bytes[at..at + part.len()].copy_from_slice(part);
}
