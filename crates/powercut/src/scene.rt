//! The memory of a trial: five blocks and some bytes past the last one. Blocks 1, 2 and 3 are written, in this order.

use std::array;
use std::ops::Range;
use store::BLOCK_LEN;

/// The length of the memory: five blocks, and 100 bytes.
pub const MEMORY_LEN: usize = 2660;

/// The blocks that are written.
pub const WRITTEN: Range<usize> = 1..4;

/// What the blocks hold at first, in their high five bits. A flash chip has to erase blocks 1 and 3 for their new
/// bytes, and not block 2.
const OLD: [u8; 5] = [0x50, 0x08, 0xf8, 0x00, 0xa0];

// Not beside `OLD` in pairs: two blocks are never written.
/// What blocks 1, 2 and 3 are to hold.
const NEW: [u8; 3] = [0xf0, 0x38, 0x80];

/// The bytes past the last block.
const PAST: u8 = 0x77;

/// A block whose bytes tell their place in their low three bits.
fn patterned(high: u8) -> [u8; BLOCK_LEN] {
    array::from_fn(|i| high | (i % 8) as u8)
}

/// What a block holds at first.
pub fn old(block: usize) -> [u8; BLOCK_LEN] {
    match OLD.get(block) {
        Some(high) => patterned(*high),
        None => [PAST; BLOCK_LEN],
    }
}

/// What a block is to hold; those that are not written stay as they are.
pub fn new(block: usize) -> [u8; BLOCK_LEN] {
    let high = block.checked_sub(WRITTEN.start).and_then(|i| NEW.get(i));
    match high {
        Some(high) => patterned(*high),
        None => old(block),
    }
}

/// The memory ahead of a trial.
pub fn memory() -> [u8; MEMORY_LEN] {
    let mut memory = [PAST; MEMORY_LEN];
    for (block, place) in memory.chunks_exact_mut(BLOCK_LEN).enumerate() {
        place.copy_from_slice(&old(block));
    }
    memory
}
