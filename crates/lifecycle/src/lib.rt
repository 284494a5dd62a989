//! A board's working life: a board with its store, its authenticator and a journal of its calls, and the law that every
//! such life keeps.

#![tactic(auto)]

mod answers;
mod driver;
mod journal;
mod life;
mod steps;

pub use driver::{Driver, Order, Reply, live};
pub use journal::{Call, Entry, Standing};
pub use life::{Life, Unbegun};
