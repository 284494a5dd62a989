//! The store: what every implementation owes, and all that generic code knows of one.

ghost use Rattle.std.specs.Prelude.{◌≡◌, length};
ghost use Rattle.store.specs.Medium.{Medium, Whole, woken};
ghost use Rattle.store.specs.Calls.{Fitting, Admitting, Reading, Writing};

use crate::fault::{Cause, Fault};

// `layout` has the same number for a board's blocks, and stands on no store.
/// The length of a block.
pub const BLOCK_LEN: usize = 512;

/// Blocks of 512 bytes, whose number never changes, and a mark: live, or dark until the store is woken.
pub trait Store {
    ghost medium: { Self → Medium };

    /// The number of blocks. Every block has 512 bytes.
    fn count(&self) -> usize
        ensures number { result ≡ length (medium self.now).blocks }
        ensures whole { Whole (medium self.now).blocks };

    /// Makes the store live and keeps its blocks.
    fn wake(&mut self)
        ensures { medium self.new ≡ woken (medium self.old) };

    /// Copies a block into `buffer`. Refused where `buffer` has not 512 bytes, where there is no such block, or
    /// where the store is dark, tested in this order; then `buffer` stays as it was.
    fn read(&self, block: usize, buffer: &mut [u8]) -> Result<(), Fault>
        ensures { Reading (medium self.now) block buffer.old result buffer.new };

    /// Puts `bytes` into a block. Refused as a read is; then nothing has changed. A live store may still answer that
    /// it went dark: then that block, and no other, holds any 512 bytes.
    fn write(&mut self, block: usize, bytes: &[u8]) -> Result<(), Fault>
        ensures { Writing (medium self.old) block bytes.now result (medium self.new) };
}

/// A store that can be told where its supply fails.
pub trait Planned: Store {
    /// When it fails, and what that leaves.
    type Plan;

    /// Sets the plan, in place of any other. What the store means stays as it was.
    fn plan(&mut self, plan: Self::Plan)
        ensures { Self.Store.medium self.new ≡ Self.Store.medium self.old };
}

/// The refusals that every layer raises itself, for a buffer of `len` bytes and a block among `count`.
pub fn fit(len: usize, block: usize, count: usize) -> Result<(), Fault>
    ensures { Fitting len block count result }
{
    if len != BLOCK_LEN {
        return Err(Fault::new(Cause::WrongBuffer, block));
    }
    if block >= count {
        return Err(Fault::new(Cause::NoSuchBlock, block));
    }
    Ok(())
}

/// All refusals of a store that lies over no other.
pub fn admit(len: usize, block: usize, count: usize, live: bool) -> Result<(), Fault>
    ensures { Admitting len block count live result }
{
    fit(len, block, count)?;
    if !live {
        return Err(Fault::new(Cause::Dark, block));
    }
    Ok(())
}
