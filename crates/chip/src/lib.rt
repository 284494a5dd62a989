//! The chip store: NOR flash in borrowed memory.

#![tactic(auto)]

mod nor;

pub use nor::Nor;
use store::MemoryStore;

/// A store in NOR flash.
pub type ChipStore<'a> = MemoryStore<'a, Nor>;
