//! What a board knows.

ghost use Rattle.std.specs.Prelude.{◌≡◌};

use crate::states::{Matched, Running};
use layout::{NONCE_LEN, Place};

impl Running {
    /// Where the image that runs lies.
    pub fn place(&self) -> Place
        ensures { result ≡ self.now.place }
    {
        self.place
    }

    /// Its version.
    pub fn version(&self) -> u16
        ensures { result ≡ self.now.version }
    {
        self.version
    }
}

impl Matched {
    /// What runs.
    pub fn running(&self) -> &Running
        ensures { result.now ≡ self.now.running }
    {
        &self.running
    }

    /// Where the image that was offered lies.
    pub fn place(&self) -> Place
        ensures { result ≡ self.now.place }
    {
        self.place
    }

    /// Its version.
    pub fn version(&self) -> u16
        ensures { result ≡ self.now.version }
    {
        self.version
    }

    /// Its nonce.
    pub fn nonce(&self) -> [u8; NONCE_LEN]
        ensures { result ≡ self.now.nonce }
    {
        self.nonce
    }

    /// Its interrupt vectors, eight bytes to a word, low byte first.
    pub fn vectors(&self) -> [u64; 4]
        ensures { result ≡ self.now.vectors }
    {
        self.vectors
    }
}
