//! The program's command lines: taken apart, and run.

#![tactic(auto)]

mod runs;
mod words;

pub use runs::run;
