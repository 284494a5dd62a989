//! The feeder: the one place where bytes are gathered into blocks, for every block width.

ghost use Rattle.std.specs.Prelude.{◌≡◌, ℕ, ◌+◌, ◌-◌, ◌<◌, ◌≤◌, min, ◌++◌, length, take, drop, MatchResult, ◌≢◌};
ghost use Rattle.refusal.specs.declared.Refusal.TheVariants.{WrongLength};
ghost use Rattle.authenticator.specs.Meaning.{padded};
ghost use Rattle.authenticator.specs.Feeding.{Chaining, held, roomed, fed};

use crate::meaning::{Authenticator, TAG_BUFFER};
use refusal::Refusal;

/// A block algorithm over blocks of `W` bytes, under one key, without any buffer of its own.
pub trait BlockCore<const W: usize> {
    /// The length of a tag.
    const TAG: usize;

    ghost TAG: { ℕ };

    ghost chaining: { Chaining };

    ghost key: { Self → chaining.Key };

    ghost value: { Self → chaining.Value };

    /// Goes to the chaining value that a message starts from.
    fn start(&mut self)
        ensures key { key self.new ≡ key self.old }
        ensures value { value self.new ≡ chaining.start (key self.old) };

    /// Works on one block that is not the last.
    fn step(&mut self, block: &[u8; W])
        ensures key { key self.new ≡ key self.old }
        ensures value { value self.new ≡ chaining.step (key self.old) (value self.old) block.now };

    // A whole block and a count: an algorithm may need to know that a slice is no longer than a block, which no type says.
    /// The tag, then zeros, where the first `used` bytes of `block` are what is left of the message.
    fn finish(&self, block: &[u8; W], used: usize) -> [u8; 32]
        ensures { result ≡ padded (chaining.finish (key self.now) (value self.now) (take used block.now)) };

    ghost tag: { TAG ≡ chaining.size };

    ghost wide: { 0 < W };
}

/// A block algorithm with the buffer that gathers its blocks.
#[derive(Drop)]
pub struct Feeder<C, const W: usize> {
    core: C,
    // The core has no heap: a block of fixed length, and beside it how many of its bytes wait.
    block: [u8; W],
    used: usize,
    ghost whole: { length block ≡ W },
    ghost room: { used ≤ W },
}

impl<C: BlockCore<W>, const W: usize> Feeder<C, W> {
    /// A feeder that stands at the beginning.
    pub fn new(core: C) -> Self
        ensures key { C.key result.core ≡ C.key core }
        ensures state { held (C.value result.core) result.used result.block ≡ (fed W C.chaining).begin (C.key core) }
    {
        let mut core = core;
        core.start();
        Feeder {
            core,
            block: [0; W],
            used: 0,
        }
    }

    /// Works on the block where it is full.
    fn make_room(&mut self)
        ensures key { C.key self.new.core ≡ C.key self.old.core }
        ensures state { held (C.value self.new.core) self.new.used self.new.block ≡ roomed W (C.chaining.step (C.key self.old.core)) (held (C.value self.old.core) self.old.used self.old.block) }
        ensures room { self.new.used < W }
    {
        if self.used == W {
            self.core.step(&self.block);
            self.used = 0;
        }
    }

    /// Appends to the block what it has room for, and answers what is left of `part`.
    fn gather<'a>(&mut self, part: &'a [u8]) -> &'a [u8]
        ensures left { result.now ≡ drop (self.new.used - self.old.used) part.now }
        ensures core { self.new.core ≡ self.old.core }
        ensures used { self.new.used ≡ self.old.used + min (W - self.old.used) (length part.now) }
        ensures block { take self.new.used self.new.block ≡ take self.old.used self.old.block ++ take (self.new.used - self.old.used) part.now }
    {
        let from = self.used;
        let (front, left) = part.split_at((W - from).min(part.len()));
        let block = &mut self.block[..];
        block[from..from + front.len()].copy_from_slice(front);
        self.used = from + front.len();
        left
    }
}

impl<C: BlockCore<W>, const W: usize> Authenticator for Feeder<C, W> {
    const TAG: usize = C::TAG;

    ghost TAG = { C.TAG };

    ghost means = { fed W C.chaining };

    ghost key = { λ f. C.key f.core };

    ghost state = { λ f. held (C.value f.core) f.used f.block };

    ghost tag = { C.tag };

    fn open(&mut self) {
        self.core.start();
        self.used = 0;
    }

    fn feed(&mut self, part: &[u8]) {
        let mut left = part;
        while !left.is_empty() {
            self.make_room();
            left = self.gather(left);
        }
    }

    fn close(&mut self, out: &mut [u8]) -> Result<(), Refusal> {
        if out.len() != TAG_BUFFER {
            return Err(Refusal::WrongLength);
        }
        let tag = self.core.finish(&self.block, self.used);
        out.copy_from_slice(&tag);
        self.open();
        Ok(())
    }
}
