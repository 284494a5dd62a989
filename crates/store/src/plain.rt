//! The plain store: a write is a copy, and a plan counts writes.

ghost use Rattle.store.specs.Plain.{plain_cutting};

use crate::meaning::BLOCK_LEN;
use crate::memory::{Make, MemoryStore};

/// What a cut leaves in the block.
#[derive(Clone, Copy, PartialEq, Eq, Debug)]
pub enum Residue {
    /// What it held.
    Old,
    /// What it was to hold.
    New,
    /// One byte, 512 times.
    Repeated(u8),
}

/// When a plain store goes dark.
#[derive(Clone, Copy, PartialEq, Eq, Debug)]
pub struct CutPlan {
    /// How many writes are done; the next one is cut.
    pub writes: usize,
    pub leaves: Residue,
}

/// Memory that is written by copying.
pub struct Plain;

/// A store in plain memory.
pub type PlainStore<'a> = MemoryStore<'a, Plain>;

impl Make for Plain {
    type Plan = CutPlan;

    ghost cutting = { plain_cutting };

    fn write(block: &mut [u8; BLOCK_LEN], bytes: &[u8; BLOCK_LEN]) {
        *block = *bytes;
    }

    fn write_by(
        plan: CutPlan,
        block: &mut [u8; BLOCK_LEN],
        bytes: &[u8; BLOCK_LEN],
    ) -> Option<CutPlan> {
        let Some(writes) = plan.writes.checked_sub(1) else {
            match plan.leaves {
                Residue::Old => {}
                Residue::New => Self::write(block, bytes),
                Residue::Repeated(byte) => *block = [byte; BLOCK_LEN],
            }
            return None;
        };
        Self::write(block, bytes);
        Some(CutPlan { writes, ..plan })
    }
}
