//! Reads of a live store: its blocks, and an image in them.

ghost use Rattle.std.specs.Prelude.{◌≡◌, ◌<◌, ◌≤◌, length};
ghost use Rattle.control.specs.Blocks.{block_of};
ghost use Rattle.layout.specs.Header.{header_of};
ghost use Rattle.layout.specs.Image.{nonce_of, vectors_of};
ghost use Rattle.layout.specs.Placing.{Lies};
ghost use Rattle.store.specs.Medium.{held};
ghost use Rattle.board.specs.Readable.{Readable};
ghost use Rattle.board.specs.States.{bytes_of};
ghost use Rattle.board.specs.Stored.{image_on};

use crate::vectors::words_of;
use control::Control;
use layout::{BLOCK, Header, NONCE_LEN, Place, VECTORS_LEN};
use store::Store;

/// A live store, which has the control blocks.
// The scratch buffer is passed beside it: loans are not proved where a `&mut` stands beside a ghost field.
#[derive(Drop)]
pub(crate) struct Reader<'a, S: Store> {
    pub(crate) store: &'a S,
    ghost readable: { Readable (S.medium store.now) },
    ghost controls: { 4 ≤ length (S.medium store.now).blocks },
}

impl<S: Store> Reader<'_, S> {
    /// The number of blocks.
    pub(crate) fn count(&self) -> usize
        ensures { result ≡ length (S.medium self.now.store.now).blocks }
    {
        self.store.count()
    }

    /// Reads a block.
    pub(crate) fn fetch(&self, block: usize, scratch: &mut [u8; BLOCK])
        requires { block < length (S.medium self.now.store.now).blocks }
        ensures { scratch.new ≡ held (S.medium self.now.store.now) block }
    {
        self.store.read(block, scratch).unwrap();
    }

    /// Reads a control block.
    pub(crate) fn fetch_control(&self, control: Control, scratch: &mut [u8; BLOCK])
        ensures { scratch.new ≡ held (S.medium self.now.store.now) (block_of control) }
    {
        self.fetch(control.block(), scratch);
    }
}

/// The header of the image that begins with a block.
pub(crate) fn header(block: &[u8; BLOCK]) -> Header
    ensures { result ≡ header_of block.now }
{
    Header::from(block.first_chunk().unwrap())
}

/// An image in a live store.
#[derive(Drop)]
pub(crate) struct Stored<'a, S: Store> {
    pub(crate) reader: Reader<'a, S>,
    pub(crate) place: Place,
    ghost lies: { Lies (length (S.medium reader.store.now).blocks) place.first place.len },
}

impl<S: Store> Stored<'_, S> {
    /// Its nonce.
    pub(crate) fn nonce(&self, scratch: &mut [u8; BLOCK]) -> [u8; NONCE_LEN]
        ensures { result ≡ nonce_of (image_on (S.medium self.now.reader.store.now) self.now.place) }
    {
        self.reader.fetch(self.place.first, scratch);
        header(scratch).nonce
    }

    /// Its interrupt vectors.
    pub(crate) fn vectors(&self, scratch: &mut [u8; BLOCK]) -> [u64; 4]
        ensures { bytes_of result ≡ vectors_of (image_on (S.medium self.now.reader.store.now) self.now.place) }
    {
        words_of(&self.tail(scratch))
    }

    // Its last bytes, which lie in one block or in two.
    fn tail(&self, scratch: &mut [u8; BLOCK]) -> [u8; VECTORS_LEN]
        ensures { result ≡ vectors_of (image_on (S.medium self.now.reader.store.now) self.now.place) }
    {
        let begin = self.place.len as usize - VECTORS_LEN;
        let block = self.place.first + begin / BLOCK;
        let from = begin % BLOCK;
        let mut bytes = [0; VECTORS_LEN];
        self.reader.fetch(block, scratch);
        if from <= BLOCK - VECTORS_LEN {
            bytes.copy_from_slice(&scratch[from..from + VECTORS_LEN]);
            return bytes;
        }
        let (front, back) = bytes.split_at_mut(BLOCK - from);
        front.copy_from_slice(&scratch[from..]);
        self.reader.fetch(block + 1, scratch);
        back.copy_from_slice(&scratch[..from + VECTORS_LEN - BLOCK]);
        bytes
    }
}
