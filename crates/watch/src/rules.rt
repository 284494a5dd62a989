//! The rules of the watch, and its step.

ghost use Rattle.std.specs.Prelude.{◌≡◌, Decides};
ghost use Rattle.watch.specs.Rules.{W1, W2, W3, W4, W5, Follows, Steps, FirstBroken, Agrees, number_of};

use crate::cycle::{Cycle, Rule, Verdict, Watch};
use layout::{Place, TCR_END, executable, guarded, in_tcr};

impl Watch {
    // The guards stand here and the rules' names in `broken`: a cycle after a reset is stopped without a rule.
    /// Judges one cycle while `running` runs: the verdict, and the state for the next cycle.
    pub fn step(self, running: Option<Place>, cycle: Cycle) -> (Verdict, Watch)
        ensures { Steps running self cycle result }
    {
        match (self, cycle) {
            (Watch::Reset, c) if c.pc != 0 => (Verdict::Reset, Watch::Reset),
            (_, c) if w1(running, c) => (Verdict::Reset, Watch::Reset),
            (_, c) if w2(running, c) => (Verdict::Reset, Watch::Reset),
            (state, c) if w3(state, c) => (Verdict::Reset, Watch::Reset),
            (state, c) if w4(state, c) => (Verdict::Reset, Watch::Reset),
            (_, c) if w5(c) => (Verdict::Reset, Watch::Reset),
            (_, c) => (Verdict::Pass, after(c.pc)),
        }
    }

    /// The first rule that the cycle breaks, if it breaks one. After a reset it may be stopped without: it has to be at 0.
    pub fn broken(self, running: Option<Place>, cycle: Cycle) -> Option<Rule>
        ensures first { FirstBroken running self cycle result }
        ensures agrees { Agrees running self cycle result }
    {
        if w1(running, cycle) {
            return Some(Rule::W1);
        }
        if w2(running, cycle) {
            return Some(Rule::W2);
        }
        if w3(self, cycle) {
            return Some(Rule::W3);
        }
        if w4(self, cycle) {
            return Some(Rule::W4);
        }
        if w5(cycle) {
            return Some(Rule::W5);
        }
        None
    }
}

impl Rule {
    /// The number of the rule.
    pub fn number(self) -> u8
        ensures { result ≡ number_of self }
    {
        self as u8
    }
}

// Whether a guarded address is written from outside TCR.
fn w1(running: Option<Place>, c: Cycle) -> bool
    ensures { Decides result (W1 running c) }
{
    !in_tcr(c.pc)
        && (c.write_at.is_some_and(|at| guarded(running, at))
            || c.dma_at.is_some_and(|at| guarded(running, at)))
}

// Whether the PC is neither in TCR nor executable.
fn w2(running: Option<Place>, c: Cycle) -> bool
    ensures { Decides result (W2 running c) }
{
    !in_tcr(c.pc) && !executable(running, c.pc)
}

// Whether TCR is entered from outside, and not at 0.
fn w3(state: Watch, c: Cycle) -> bool
    ensures { Decides result (W3 state c) }
{
    state == Watch::Outside && 1 <= c.pc && c.pc <= TCR_END - 1
}

// Whether TCR is left, and not from its last address.
fn w4(state: Watch, c: Cycle) -> bool
    ensures { Decides result (W4 state c) }
{
    state == Watch::Inside && !in_tcr(c.pc)
}

// Whether there is an interrupt or DMA in TCR.
fn w5(c: Cycle) -> bool
    ensures { Decides result (W5 c) }
{
    in_tcr(c.pc) && (c.interrupt || c.dma_at.is_some())
}

// The state that tells where the PC was.
fn after(pc: u16) -> Watch
    ensures { Follows pc result }
{
    if pc == TCR_END - 1 {
        Watch::Last
    } else if in_tcr(pc) {
        Watch::Inside
    } else {
        Watch::Outside
    }
}
