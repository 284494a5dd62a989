//! All cuts of one store, one trial for each.

use crate::scene;
use crate::scene::{MEMORY_LEN, WRITTEN};
use crate::trial::{Tally, trial};
use anyhow::bail;
use chip::{ChipStore, Nor};
use std::fmt;
use store::{BLOCK_LEN, Make, MemoryStore, Plain, PlainStore, Window};

/// More than any plan counts before the writes are done.
const LIMIT: usize = 4096;

/// How the store is seen that a trial writes to.
#[derive(Clone, Copy)]
pub enum View {
    Whole,
    /// Through a window on the blocks that are written.
    Window,
}

impl fmt::Display for View {
    fn fmt<W: fmt::Write>(&self, f: &mut fmt::Formatter<W>) -> fmt::Result {
        match self {
            View::Whole => Ok(()),
            View::Window => write!(f, " in a window"),
        }
    }
}

/// A kind of memory that is swept, with its store by the name that callers have for it: a name that stands for another
/// kind's store does not build here.
pub(crate) trait Swept: Make {
    /// A new store in a memory.
    fn store(memory: &mut [u8]) -> MemoryStore<'_, Self>;
}

impl Swept for Plain {
    fn store(memory: &mut [u8]) -> PlainStore<'_> {
        PlainStore::new(memory)
    }
}

impl Swept for Nor {
    fn store(memory: &mut [u8]) -> ChipStore<'_> {
        ChipStore::new(memory)
    }
}

/// Tries longer and longer plans, up to the first that cuts nothing.
pub(crate) fn sweep<M: Swept, F: Fn(usize) -> M::Plan>(
    plan_of: F,
    view: View,
) -> anyhow::Result<Tally>
    requires { F.IsAlwaysCallable plan_of }
{
    let mut tally = Tally::default();
    for length in 0..LIMIT {
        let mut memory = scene::memory();
        let seen = try_plan::<M>(&mut memory, plan_of(length), view)?;
        if !same_outside(&memory, &scene::memory()) {
            bail!("bytes outside the written blocks have changed");
        }
        let Some(seen) = seen else {
            return Ok(tally);
        };
        tally += seen;
    }
    bail!("the plans have no end")
}

fn try_plan<M: Swept>(
    memory: &mut [u8],
    plan: M::Plan,
    view: View,
) -> anyhow::Result<Option<Tally>> {
    let mut store = M::store(memory);
    store.set_plan(plan);
    match view {
        View::Whole => trial(&mut store, 0),
        View::Window => trial(
            &mut Window::new(store, WRITTEN.start, WRITTEN.len()),
            WRITTEN.start,
        ),
    }
}

/// Whether two memories agree ahead of the written blocks and behind them, past the last block too.
fn same_outside(a: &[u8; MEMORY_LEN], b: &[u8; MEMORY_LEN]) -> bool {
    let from = BLOCK_LEN * WRITTEN.start;
    let to = BLOCK_LEN * WRITTEN.end;
    a[..from] == b[..from] && a[to..] == b[to..]
}
