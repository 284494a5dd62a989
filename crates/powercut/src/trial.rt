//! One trial: writes until the supply fails, and a look at what the store holds then.

use crate::scene;
use crate::scene::WRITTEN;
use anyhow::{bail, ensure};
use std::ops::AddAssign;
use store::{BLOCK_LEN, Cause, Store};

/// What the written blocks held, over some cuts.
#[derive(Clone, Copy, Default)]
pub struct Tally {
    pub cuts: u64,
    pub old: u64,
    pub new: u64,
    pub other: u64,
}

impl AddAssign for Tally {
    fn add_assign(&mut self, more: Tally) {
        self.cuts = self.cuts.saturating_add(more.cuts);
        self.old = self.old.saturating_add(more.old);
        self.new = self.new.saturating_add(more.new);
        self.other = self.other.saturating_add(more.other);
    }
}

impl Tally {
    fn count(&mut self, seen: Seen) {
        let number = match seen {
            Seen::Old => &mut self.old,
            Seen::New => &mut self.new,
            Seen::Other => &mut self.other,
        };
        *number = number.saturating_add(1);
    }
}

#[derive(Clone, Copy, PartialEq, Eq)]
enum Seen {
    Old,
    New,
    Other,
}

/// Writes the blocks, wakes the store, and tells what they hold; none where the supply did not fail. `begin` is the
/// block of the memory that the store numbers 0.
pub fn trial<S: Store>(store: &mut S, begin: usize) -> anyhow::Result<Option<Tally>> {
    let Some(cut) = write_blocks(store, begin)? else {
        return Ok(None);
    };
    let mut tally = Tally {
        cuts: 1,
        ..Tally::default()
    };
    store.wake();
    for block in 0..store.count() {
        let mut found = [0; BLOCK_LEN];
        ensure!(
            store.read(block, &mut found).is_ok(),
            "a store that was woken is not read"
        );
        let place = block.saturating_add(begin);
        let seen = compare(&found, &scene::old(place), &scene::new(place));
        if WRITTEN.contains(&place) {
            ensure!(
                place >= cut || seen == Seen::New,
                "a write that was done is lost"
            );
            ensure!(
                place <= cut || seen == Seen::Old,
                "a block after the cut has changed"
            );
            tally.count(seen);
        } else {
            ensure!(
                seen == Seen::Old,
                "a block that was not written has changed"
            );
        }
    }
    Ok(Some(tally))
}

/// Writes the blocks until the supply fails, and answers at which block of the memory that was.
fn write_blocks<S: Store>(store: &mut S, begin: usize) -> anyhow::Result<Option<usize>> {
    for place in WRITTEN {
        if let Err(fault) = store.write(place.saturating_sub(begin), &scene::new(place)) {
            ensure!(
                fault.cause == Cause::Dark && fault.origin == place,
                "a write failed for another cause than a cut"
            );
            return Ok(Some(place));
        }
    }
    Ok(None)
}

fn compare(found: &[u8; BLOCK_LEN], old: &[u8; BLOCK_LEN], new: &[u8; BLOCK_LEN]) -> Seen {
    if found == old {
        Seen::Old
    } else if found == new {
        Seen::New
    } else {
        Seen::Other
    }
}
