//! Runs of the watch through many cycles.

ghost use Rattle.std.specs.Prelude.{take};
ghost use Rattle.watch.specs.Runs.{Runs, Kept};

use crate::cycle::{Cycle, Verdict, Watch};
use layout::Place;

/// Runs the watch from reset on while `running` runs: its last state, and how many cycles passed ahead of the first
/// reset. Those keep what the watch is for.
pub fn run(running: Option<Place>, cycles: &[Cycle]) -> (Watch, usize)
    ensures steps { Runs running cycles.now result }
    ensures kept { Kept running (take result.1 cycles.now) }
{
    let mut state = Watch::Reset;
    let mut passes = 0;
    for (i, cycle) in cycles.iter().enumerate() {
        let (verdict, next) = state.step(running, *cycle);
        state = next;
        // Counted beside the index, since the run goes on after its first reset.
        if passes == i && verdict == Verdict::Pass {
            passes += 1;
        }
    }
    (state, passes)
}
