//! Where an image may lie.

ghost use Rattle.std.specs.Prelude.{◌≡◌, Decides};
ghost use Rattle.layout.specs.Address.{blocks_of};
ghost use Rattle.layout.specs.Placing.{Open, GoesPast, Share, Newer};
ghost use Rattle.layout.specs.Places.{Placed, Between};

use crate::header::LEAST_LEN;
use crate::place::Place;

/// The first block behind the control blocks.
pub const FIRST_FREE: usize = 4;

/// The number of blocks that have addresses.
pub const ADDRESSED: usize = 112;

/// The length of a block.
pub const BLOCK: usize = 512;

/// The address of the first byte of block 0.
pub const BLOCKS_BEGIN: u16 = 8192;

/// The number of blocks that an image of `len` bytes fills.
pub fn blocks_of(len: u16) -> usize
    ensures { result ≡ blocks_of len }
{
    (len as usize).div_ceil(BLOCK)
}

/// Whether `block` may be staged or offered in a store of `count` blocks.
pub fn is_open(block: usize, count: usize) -> bool
    ensures { Decides result (Open count block) }
{
    (FIRST_FREE..count.min(ADDRESSED)).contains(&block)
}

/// Whether an image of `len` bytes from block `first` on goes past the end of a store of `count` blocks, or of the
/// addresses.
pub fn goes_past(first: usize, len: u16, count: usize) -> bool
    ensures { Decides result (GoesPast count first len) }
{
    let end = count.min(ADDRESSED);
    let blocks = blocks_of(len);
    end < blocks || end - blocks < first
}

/// Whether a program of `version` may take the place of one of `running`.
pub fn is_newer(version: u16, running: u16) -> bool
    ensures { Decides result (Newer version running) }
{
    running < version
}

// Of any numbers: what is asked of two images is asked whether they are places or not.
/// Whether the image of `len` bytes from block `first` on shares a block with the one of `other_len` bytes from
/// `other` on.
pub fn shares(first: usize, len: u16, other: usize, other_len: u16) -> bool
    ensures { Decides result (Share first len other other_len) }
{
    if first <= other {
        other - first < blocks_of(len) && other_len > 0
    } else {
        first - other < blocks_of(other_len) && len > 0
    }
}

impl Place {
    /// The place of an image of `len` bytes from block `first` on in a store of `count` blocks, if it is one.
    pub fn new(first: usize, len: u16, count: usize) -> Option<Place>
        ensures { Placed count first len result }
    {
        if first < FIRST_FREE || len < LEAST_LEN || goes_past(first, len, count) {
            return None;
        }
        Some(Place { first, len })
    }

    /// The place from the address `min` to the address `max` in a store of `count` blocks, if it is one.
    pub fn between(min: u16, max: u16, count: usize) -> Option<Place>
        ensures { Between count min max result }
    {
        if min < BLOCKS_BEGIN
            || (min - BLOCKS_BEGIN) as usize % BLOCK != 0
            || max < min
            || max - min == u16::MAX
        {
            return None;
        }
        Place::new((min - BLOCKS_BEGIN) as usize / BLOCK, max - min + 1, count)
    }
}
