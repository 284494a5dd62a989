//! What the watch sees of one bus cycle, and what it answers.

/// The signals of one cycle.
#[derive(Clone, Copy, PartialEq, Eq, Debug)]
pub struct Cycle {
    pub pc: u16,
    /// The address that the core writes to, if it writes.
    pub write_at: Option<u16>,
    /// The address that DMA accesses, if it does.
    pub dma_at: Option<u16>,
    /// Whether an interrupt is taken.
    // A signal alone, with no value beside it.
    pub interrupt: bool,
}

/// The state of the watch: after a pass, where the PC was.
#[derive(Clone, Copy, PartialEq, Eq, Debug)]
pub enum Watch {
    /// Outside TCR.
    Outside,
    /// In TCR, ahead of its last address.
    Inside,
    /// At the last address of TCR.
    Last,
    /// After a reset.
    Reset,
}

/// What becomes of a cycle.
#[derive(Clone, Copy, PartialEq, Eq, Debug)]
pub enum Verdict {
    Pass,
    Reset,
}

/// The rules of the watch, by their numbers.
#[derive(Clone, Copy, PartialEq, Eq, Debug)]
pub enum Rule {
    /// Outside TCR no guarded address is written.
    W1 = 1,
    /// Outside TCR only the running image is executed.
    W2 = 2,
    /// TCR is entered at 0.
    W3 = 3,
    /// TCR is left from 2047.
    W4 = 4,
    /// In TCR there is neither an interrupt nor DMA.
    W5 = 5,
}
