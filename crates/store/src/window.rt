//! The window: a layer that shows a part of any store.

ghost use Rattle.std.specs.Prelude.{◌≡◌, ◌+◌, ◌^◌, ◌<◌, ◌≤◌, length};
ghost use Rattle.store.specs.Calls.{Writing};
ghost use Rattle.store.specs.Medium.{Whole, woken};
ghost use Rattle.store.specs.Window.{windowed, lifted, Placing, Below};

use crate::fault::Fault;
use crate::meaning::{Planned, Store, fit};

/// The blocks of `lower` from `begin` on, `size` of them or as many as there are.
#[derive(Drop)]
pub struct Window<S: Store> {
    lower: S,
    begin: usize,
    size: usize,
}

impl<S: Store> Window<S> {
    /// A window over `lower`. It has no blocks where `begin` lies past the last block.
    pub fn new(lower: S, begin: usize, size: usize) -> Window<S>
        ensures { (result.lower ≡ lower) × (result.begin ≡ begin) × (result.size ≡ size) }
    {
        Window { lower, begin, size }
    }

    /// The store below, out of the window again.
    pub fn into_lower(self) -> S
        ensures { result ≡ self.lower }
    {
        let Window { lower, .. } = self;
        lower
    }

    /// Where a block lies below, or the window's own refusal.
    fn place(&self, block: usize, len: usize) -> Result<usize, Fault>
        ensures { Placing (S.Store.medium self.now.lower) self.now.begin self.now.size block len result }
    {
        fit(len, block, self.extent())?;
        Ok(self.begin + block)
    }

    /// The number of blocks. Each lies below, at a number that fits.
    fn extent(&self) -> usize
        ensures number { result ≡ length (windowed (S.Store.medium self.now.lower) self.now.begin self.now.size).blocks }
        ensures whole { Whole (windowed (S.Store.medium self.now.lower) self.now.begin self.now.size).blocks }
        ensures within { 0 < result → self.now.begin + result ≤ length (S.Store.medium self.now.lower).blocks }
        ensures fits { 0 < result → self.now.begin + result < 2 ^ 64 }
    {
        self.size.min(self.lower.count().saturating_sub(self.begin))
    }
}

/// What the layer answers where the store below answers `below`.
fn lift(below: Result<(), Fault>, block: usize) -> Result<(), Fault>
    ensures { result ≡ lifted below block }
{
    below.map_err(|fault| fault.pass(block))
}

impl<S: Store> Store for Window<S> {
    ghost medium = { λ w. windowed (S.Store.medium w.lower) w.begin w.size };

    fn count(&self) -> usize {
        self.extent()
    }

    fn wake(&mut self)
        ensures woken { windowed (S.Store.medium self.new.lower) self.new.begin self.new.size ≡ woken (windowed (S.Store.medium self.old.lower) self.old.begin self.old.size) }
        ensures own { S.Store.medium self.new.lower ≡ woken (S.Store.medium self.old.lower) }
        ensures kept { (self.new.begin ≡ self.old.begin) × (self.new.size ≡ self.old.size) }
    {
        self.lower.wake();
    }

    // A read and a write differ in what they lend: the store as `&` or as `&mut`, and the bytes the other way.
    fn read(&self, block: usize, buffer: &mut [u8]) -> Result<(), Fault> {
        let place = self.place(block, buffer.len())?;
        lift(self.lower.read(place, buffer), block)
    }

    fn write(&mut self, block: usize, bytes: &[u8]) -> Result<(), Fault>
        ensures written { Writing (windowed (S.Store.medium self.old.lower) self.old.begin self.old.size) block bytes.now result (windowed (S.Store.medium self.new.lower) self.new.begin self.new.size) }
        ensures own { Below (S.Store.medium self.old.lower) self.old.begin self.old.size block bytes.now result (S.Store.medium self.new.lower) }
        ensures kept { (self.new.begin ≡ self.old.begin) × (self.new.size ≡ self.old.size) }
    {
        let place = self.place(block, bytes.len())?;
        lift(self.lower.write(place, bytes), block)
    }
}

impl<S: Planned> Planned for Window<S> {
    type Plan = S::Plan;

    fn plan(&mut self, plan: S::Plan) {
        self.lower.plan(plan);
    }
}
