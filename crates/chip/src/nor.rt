//! NOR flash: a write goes operation by operation, and a plan counts operations.

ghost use Rattle.std.specs.Prelude.{◌≡◌, ◌≤◌};
ghost use Rattle.chip.specs.Chip.{rises, programmed, operations as operations_of, worked, chip_cutting};

use store::{BLOCK_LEN, Make};

/// A byte as an erasure leaves it.
const ERASED: u8 = 0xff;

/// Memory that turns bits only from 1 to 0, but for an erasure, which sets a whole block to ones.
pub struct Nor;

// The block, its new bytes and the plan: what one write is about, and three things of three owners.
impl Make for Nor {
    /// How many operations are done before the cut. An erasure is one, and so is each programmed byte.
    type Plan = usize;

    ghost cutting = { chip_cutting };

    fn write(block: &mut [u8; BLOCK_LEN], bytes: &[u8; BLOCK_LEN]) {
        let erases = must_erase(block, bytes);
        work(block, bytes, erases, operations(erases));
    }

    fn write_by(
        plan: usize,
        block: &mut [u8; BLOCK_LEN],
        bytes: &[u8; BLOCK_LEN],
    ) -> Option<usize> {
        let erases = must_erase(block, bytes);
        let needed = operations(erases);
        work(block, bytes, erases, plan.min(needed));
        plan.checked_sub(needed)
    }
}

/// Whether some bit must rise, which an erasure alone can do.
fn must_erase(old: &[u8; BLOCK_LEN], new: &[u8; BLOCK_LEN]) -> bool
    ensures { result ≡ rises old.now new.now }
{
    old.iter().zip(new).any(|(old, new)| *old & *new != *new)
}

/// How many operations a whole write takes.
fn operations(erases: bool) -> usize
    ensures { result ≡ operations_of erases }
{
    if erases { 1 + BLOCK_LEN } else { BLOCK_LEN }
}

/// The first `count` operations of a write.
fn work(block: &mut [u8; BLOCK_LEN], bytes: &[u8; BLOCK_LEN], erases: bool, count: usize)
    requires { count ≤ operations_of erases }
    ensures { block.new ≡ worked erases count block.old bytes.now }
{
    if !erases {
        program(block, bytes, count);
    } else if count > 0 {
        *block = [ERASED; BLOCK_LEN];
        program(block, bytes, count - 1);
    }
}

/// Programs the first `count` bytes, in order.
fn program(block: &mut [u8; BLOCK_LEN], bytes: &[u8; BLOCK_LEN], count: usize)
    requires { count ≤ 512 }
    ensures { block.new ≡ programmed count block.old bytes.now }
{
    for (i, byte) in bytes[..count].iter().enumerate() {
        block[i] &= *byte;
    }
}
