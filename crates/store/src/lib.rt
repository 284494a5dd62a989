//! Stores of 512-byte blocks whose supply can fail at a write: what a store is, the store in borrowed memory, with the
//! plain memory, and the window, a layer over any store.

#![tactic(auto)]

mod fault;
mod meaning;
mod memory;
mod plain;
mod window;

pub use fault::{Cause, Fault};
pub use meaning::{BLOCK_LEN, Planned, Store, admit, fit};
pub use memory::{Make, MemoryStore, count_in, read_from};
pub use plain::{CutPlan, Plain, PlainStore, Residue};
pub use window::Window;
