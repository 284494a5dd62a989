//! Cycle: the watch judges what the bus does, and a byte that is written comes into its block.

ghost use Rattle.std.specs.Prelude.{◌≡◌, ◌≤◌, ◌⊎◌, List, length, Some as Runs, Decides};
ghost use Rattle.watch.specs.Rules.{W1, W2};
ghost use Rattle.board.specs.Answers.{cleared};
ghost use Rattle.board.specs.Calls.{Cycles};
ghost use Rattle.board.specs.Results.{cycled};
ghost use Rattle.board.specs.Writes.{Write};

use crate::buffers::clear;
use crate::pokes::poke_all;
use crate::results::{Cycled, Denied};
use crate::states::Running;
use layout::{BLOCK, Place, in_tcr};
use refusal::Refusal;
use store::Store;
use watch::{Cycle, Verdict, Watch};

impl Running {
    // Lent one by one, as the caller has them; cleared by a line at the end of the call (see `clear`).
    /// Judges a cycle outside the core's own region. `byte` is what the core writes, `dma_byte` what DMA does.
    pub fn cycle<S: Store>(
        self,
        store: &mut S,
        cycle: Cycle,
        byte: u8,
        dma_byte: u8,
        scratch: &mut [u8],
    ) -> Result<Cycled, Denied<Running>>
        ensures { (ws : List Write) × Cycles self (S.medium store.old) cycle byte dma_byte scratch.old (cycled ws result (S.medium store.new)) scratch.new }
    {
        let Some(scratch) = scratch.as_mut_array() else {
            return Err(Denied::Refused(self, Refusal::WrongLength));
        };
        let answer = self.judge(store, cycle, byte, dma_byte, scratch);
        clear(scratch);
        answer
    }

    // The cycle, but for the scratch buffer's end.
    fn judge<S: Store>(
        self,
        store: &mut S,
        cycle: Cycle,
        byte: u8,
        dma_byte: u8,
        scratch: &mut [u8; BLOCK],
    ) -> Result<Cycled, Denied<Running>>
        ensures { (ws : List Write) × Cycles self (S.medium store.old) cycle byte dma_byte scratch.old (cycled ws result (S.medium store.new)) (cleared scratch.old) }
    {
        if in_tcr(cycle.pc) {
            return Err(Denied::Refused(self, Refusal::CorePc));
        }
        if is_reset(self.place, cycle) {
            return Ok(Cycled::Reset(self.end()));
        }
        match poke_all(store, cycle, byte, dma_byte, scratch) {
            Ok(()) => Ok(Cycled::Passed(self)),
            Err(supply) => Err(Denied::Supply(self.end(), supply)),
        }
    }
}

// Whether the watch resets the board at a cycle outside the core's own region.
fn is_reset(place: Place, cycle: Cycle) -> bool
    requires { 2048 ≤ cycle.pc }
    ensures { Decides result (W1 (Runs place) cycle ⊎ W2 (Runs place) cycle) }
{
    let (verdict, _) = Watch::Outside.step(Some(place), cycle);
    matches!(verdict, Verdict::Reset)
}
