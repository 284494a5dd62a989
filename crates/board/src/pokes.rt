//! Single bytes are put into blocks.

ghost use Rattle.std.specs.Prelude.{◌≡◌, ◌+◌, ◌-◌, ◌/◌, ◌<◌, ◌≤◌, true, false, ◌&&◌, [], ◌∷◌, length, MatchResult, nat_le, nat_lt, slice_set};
ghost use Rattle.store.specs.Medium.{held};
ghost use Rattle.board.specs.Calls.{poking, poke_if, pokes_of};
ghost use Rattle.board.specs.Poked.{Poked, ReadRow, unread};
ghost use Rattle.board.specs.Writes.{put as plan};

use crate::answers::Supply;
use crate::writes::{put, read};
use layout::{BLOCK, BLOCKS_BEGIN};
use store::Store;
use watch::Cycle;

/// Puts the bytes of a cycle into their blocks: the core's, then the one of DMA.
pub(crate) fn poke_all<S: Store>(
    store: &mut S,
    cycle: Cycle,
    byte: u8,
    dma_byte: u8,
    scratch: &mut [u8; BLOCK],
) -> Result<(), Supply>
    ensures { ReadRow 1 (poking (S.medium store.old).blocks (pokes_of cycle byte dma_byte)) (S.medium store.old) result (S.medium store.new) }
{
    let next = poke(store, 1, cycle.write_at, byte, scratch)?;
    poke(store, next, cycle.dma_at, dma_byte, scratch)?;
    Ok(())
}

// Puts a byte at an address, if there is one and it lies in a block, as write number `write`. Answers the number
// of the next write. Inlined, since most cycles have no address and are not to pay for a call.
#[inline(always)]
fn poke<S: Store>(
    store: &mut S,
    write: u8,
    at: Option<u16>,
    byte: u8,
    scratch: &mut [u8; BLOCK],
) -> Result<u8, Supply>
    requires { write ≤ 2 }
    ensures { Poked write (poking (S.medium store.old).blocks (poke_if at byte [])) (S.medium store.old) result (S.medium store.new) }
{
    let Some(at) = at else {
        return Ok(write);
    };
    if !in_store(at, store.count()) {
        return Ok(write);
    }
    let offset = (at - BLOCKS_BEGIN) as usize;
    rewrite(store, write, offset / BLOCK, offset % BLOCK, byte, scratch)?;
    Ok(write + 1)
}

// Whether an address lies in one of `count` blocks. As `layout` tests what is guarded, but for blocks without addresses, too.
fn in_store(at: u16, count: usize) -> bool
    ensures { result ≡ nat_le 8192 at && nat_lt ((at - 8192) / 512) count }
{
    BLOCKS_BEGIN <= at && (at - BLOCKS_BEGIN) as usize / BLOCK < count
}

// Puts a byte into a block, as write number `write`. Store, byte and scratch buffer come from three places; that there is such a
// block, `poke` has just tested.
fn rewrite<S: Store>(
    store: &mut S,
    write: u8,
    block: usize,
    offset: usize,
    byte: u8,
    scratch: &mut [u8; BLOCK],
) -> Result<(), Supply>
    requires { (block < length (S.medium store.old).blocks) × (offset < 512) }
    ensures { ReadRow write (plan block (slice_set (held (S.medium store.old) block) offset byte) ∷ []) (S.medium store.old) result (S.medium store.new) }
{
    read(store, block, scratch)?;
    scratch[offset] = byte;
    put(store, write, block, scratch)
}
