//! Stores in borrowed memory: block b is the memory's bytes from 512 · b on, and a plan may cut a write.

ghost use Rattle.std.specs.Prelude.{◌≡◌, ◌/◌, ◌<◌, true, length, None, MatchResult};
ghost use Rattle.store.specs.Bank.{bank, bank_of, meaning, awake, planned, Cutting, Ending, Spares, Storing, Tears};
ghost use Rattle.store.specs.declared.fault.Cause.TheVariants.{Dark};
ghost use Rattle.store.specs.Calls.{Reading, Writing};
ghost use Rattle.store.specs.Medium.{Whole, woken};
ghost use Rattle.store.specs.Memory.{block_at, blocks_in, laid, lowest, remainder};

use crate::fault::{Cause, Fault};
use crate::meaning::{BLOCK_LEN, Planned, Store, admit};

/// How many whole blocks a memory has.
pub fn count_in(memory: &[u8]) -> usize
    ensures number { result ≡ length (blocks_in memory.now) }
    ensures whole { Whole (blocks_in memory.now) }
{
    memory.len() / BLOCK_LEN
}

/// What a store in a memory answers to a read.
pub fn read_from(memory: &[u8], live: bool, block: usize, buffer: &mut [u8]) -> Result<(), Fault>
    ensures { Reading (lowest memory.now live) block buffer.old result buffer.new }
{
    admit(buffer.len(), block, memory.len() / BLOCK_LEN, live)?;
    buffer.copy_from_slice(held(memory, block));
    Ok(())
}

/// What a block holds.
fn held(memory: &[u8], block: usize) -> &[u8; BLOCK_LEN]
    requires { block < length memory.now / 512 }
    ensures { result.now ≡ block_at memory.now block }
{
    let from = BLOCK_LEN * block;
    memory[from..from + BLOCK_LEN].as_array().unwrap()
}

/// How blocks are written in a memory of one kind, and how a plan cuts a write.
pub trait Make {
    /// When a write is cut, and what that leaves.
    type Plan: Copy;

    ghost cutting: { Cutting Self.Plan };

    /// Writes `bytes` over a block.
    fn write(block: &mut [u8; BLOCK_LEN], bytes: &[u8; BLOCK_LEN])
        ensures { block.new ≡ bytes.now };

    /// Writes `bytes` over a block as far as the plan lets it. What is left of the plan, or none where it cut the
    /// write.
    fn write_by(
        plan: Self::Plan,
        block: &mut [u8; BLOCK_LEN],
        bytes: &[u8; BLOCK_LEN],
    ) -> Option<Self::Plan>
        ensures { Ending cutting plan block.old bytes.now result block.new };
}

/// Writes `bytes` over a block as far as the plan, if there is one, lets it be done, and leaves what is left of it. A
/// write that is cut uses the plan up, and the supply is gone.
fn write_in<M: Make>(
    plan: &mut Option<M::Plan>,
    block: &mut [u8; BLOCK_LEN],
    bytes: &[u8; BLOCK_LEN],
) -> Result<(), Cause>
    ensures { MatchResult result (λ _. Spares M.cutting plan.old block.old bytes.now plan.new × (block.new ≡ bytes.now)) (λ e. (e ≡ Dark) × Tears M.cutting plan.old block.old bytes.now block.new × (plan.new ≡ None)) }
{
    let Some(given) = *plan else {
        M::write(block, bytes);
        return Ok(());
    };
    *plan = M::write_by(given, block, bytes);
    if plan.is_none() {
        return Err(Cause::Dark);
    }
    Ok(())
}

// In place: a block that is copied out and back costs two copies more.
/// The same over the part of a memory that a block is.
fn write_part<M: Make>(
    plan: &mut Option<M::Plan>,
    part: &mut [u8],
    bytes: &[u8; BLOCK_LEN],
) -> Result<(), Cause>
    requires { length part.old ≡ 512 }
    ensures whole { length part.new ≡ 512 }
    ensures written { MatchResult result (λ _. Spares M.cutting plan.old part.old bytes.now plan.new × (part.new ≡ bytes.now)) (λ e. (e ≡ Dark) × Tears M.cutting plan.old part.old bytes.now part.new × (plan.new ≡ None)) }
{
    match part.as_mut_array() {
        Some(block) => write_in::<M>(plan, block, bytes),
        None => unreachable(),
    }
}

/// A store in borrowed memory. Bytes past its last whole block are not its own.
#[derive(Drop)]
pub struct MemoryStore<'a, M: Make> {
    memory: &'a mut [u8],
    // Beside the plan, and no case of it: a dark store may be told one.
    live: bool,
    plan: Option<M::Plan>,
}

impl<'a, M: Make> MemoryStore<'a, M> {
    /// A live store without a plan.
    pub fn new(memory: &'a mut [u8]) -> Self
        ensures own { bank_of result ≡ bank memory.old true None }
        ensures named { result.memory.ghost_name ≡ memory.entry.ghost_name }
    {
        MemoryStore {
            memory,
            live: true,
            plan: None,
        }
    }

    /// Sets the plan, in place of any other. The store's meaning stays as it was.
    pub fn set_plan(&mut self, plan: M::Plan)
        ensures own { bank_of self.new ≡ planned (bank_of self.old) plan }
        ensures meaning { meaning (bank_of self.new) ≡ meaning (bank_of self.old) }
        ensures named { self.new.memory.ghost_name ≡ self.old.memory.ghost_name }
    {
        self.plan = Some(plan);
    }
}

impl<M: Make> Store for MemoryStore<'_, M> {
    ghost medium = { λ s. meaning (bank_of s) };

    fn count(&self) -> usize {
        count_in(self.memory)
    }

    fn wake(&mut self)
        ensures woken { meaning (bank_of self.new) ≡ woken (meaning (bank_of self.old)) }
        ensures own { bank_of self.new ≡ awake (bank_of self.old) }
        ensures named { self.new.memory.ghost_name ≡ self.old.memory.ghost_name }
    {
        self.live = true;
    }

    fn read(&self, block: usize, buffer: &mut [u8]) -> Result<(), Fault> {
        read_from(self.memory, self.live, block, buffer)
    }

    fn write(&mut self, block: usize, bytes: &[u8]) -> Result<(), Fault>
        ensures written { Writing (meaning (bank_of self.old)) block bytes.now result (meaning (bank_of self.new)) }
        ensures own { Storing M.cutting (bank_of self.old) block bytes.now result (bank_of self.new) }
        ensures remainder { remainder (bank_of self.new).memory ≡ remainder (bank_of self.old).memory }
        ensures named { self.new.memory.ghost_name ≡ self.old.memory.ghost_name }
    {
        admit(bytes.len(), block, self.memory.len() / BLOCK_LEN, self.live)?;
        let bytes = bytes.as_array().unwrap();
        let from = BLOCK_LEN * block;
        let part = &mut self.memory[from..from + BLOCK_LEN];
        let done = write_part::<M>(&mut self.plan, part, bytes);
        if let Err(cause) = done {
            self.live = false;
            return Err(Fault::new(cause, block));
        }
        Ok(())
    }
}

impl<M: Make> Planned for MemoryStore<'_, M> {
    type Plan = M::Plan;

    fn plan(&mut self, plan: M::Plan)
        ensures meaning { meaning (bank_of self.new) ≡ meaning (bank_of self.old) }
        ensures own { bank_of self.new ≡ planned (bank_of self.old) plan }
        ensures named { self.new.memory.ghost_name ≡ self.old.memory.ghost_name }
    {
        self.set_plan(plan);
    }
}
