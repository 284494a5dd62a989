//! Addresses: where blocks, and an image in them, lie on the bus.

ghost use Rattle.std.specs.Prelude.{◌≡◌, ◌<◌, ◌⊎◌, Decides, MatchOption};
ghost use Rattle.layout.specs.Address.{InTcr, Addressed, InBlocks, address_of, ermin, ermax, entry};
ghost use Rattle.layout.specs.Running.{Executable, Guarded};

use crate::place::Place;
use crate::placing::{ADDRESSED, BLOCK, BLOCKS_BEGIN, blocks_of};

/// The end of the core's own region, the trusted code region.
pub const TCR_END: u16 = 2048;

/// The number of guarded control blocks: pointer, vectors and flag.
pub const CONTROL_GUARDED: usize = 3;

// Where the program begins in its image.
const PROGRAM: u16 = 12;

/// Whether `address` lies in the core's own region.
pub fn in_tcr(address: u16) -> bool
    ensures { Decides result (InTcr address) }
{
    address < TCR_END
}

/// The address of byte `i` of `block`, if it has one.
pub fn address(block: usize, i: usize) -> Option<u16>
    ensures { MatchOption result (Addressed block × (i < 512) → ⊥) (λ a. Addressed block × (i < 512) × (a ≡ address_of block i)) }
{
    if block < ADDRESSED && i < BLOCK {
        Some(BLOCKS_BEGIN + (block * BLOCK + i) as u16)
    } else {
        None
    }
}

impl Place {
    /// ERmin: the address of the image's first byte.
    pub fn min(self) -> u16
        ensures { result ≡ ermin self.first }
    {
        BLOCKS_BEGIN + (self.first * BLOCK) as u16
    }

    /// ERmax: the address of its last byte.
    pub fn max(self) -> u16
        ensures { result ≡ ermax self.first self.len }
    {
        self.min() + (self.len - 1)
    }

    /// The address at which its program begins.
    pub fn entry(self) -> u16
        ensures { result ≡ entry self.first }
    {
        self.min() + PROGRAM
    }
}

/// Whether `address` may be executed outside the core while `running` runs.
pub fn executable(running: Option<Place>, address: u16) -> bool
    ensures { Decides result (Executable running address) }
{
    running.is_some_and(|place| place.min() <= address && address <= place.max())
}

/// Whether only the core may write to `address` while `running` runs.
pub fn guarded(running: Option<Place>, address: u16) -> bool
    ensures { Decides result (Guarded running address) }
{
    in_blocks(0, CONTROL_GUARDED, address)
        || running.is_some_and(|place| in_blocks(place.first, blocks_of(place.len), address))
}

// Whether `address` lies in the `n` blocks from block `first` on.
fn in_blocks(first: usize, n: usize, address: u16) -> bool
    ensures { Decides result (InBlocks first n address) }
{
    if address < BLOCKS_BEGIN {
        return false;
    }
    let block = (address - BLOCKS_BEGIN) as usize / BLOCK;
    first <= block && block - first < n
}
