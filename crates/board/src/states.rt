//! The states of a board. None can be copied, and only the calls make one: a call in the wrong state does not build.

use layout::{NONCE_LEN, Place};

/// Nothing runs.
pub struct Cold {}

/// An image runs.
pub struct Running {
    pub(crate) place: Place,
    pub(crate) version: u16,
}

/// An image runs, and another one, whose token was the tag, may be installed.
pub struct Matched {
    pub(crate) running: Running,
    pub(crate) place: Place,
    pub(crate) version: u16,
    pub(crate) nonce: [u8; NONCE_LEN],
    /// The 32 bytes of its interrupt vectors, eight to a word, low byte first.
    pub(crate) vectors: [u64; 4],
}
