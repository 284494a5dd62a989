//! The watch over the bus: which cycles pass while an image runs, and which reset the board.

#![tactic(auto)]

mod cycle;
mod rules;
mod runs;
mod words;

pub use cycle::{Cycle, Rule, Verdict, Watch};
pub use runs::run;
