//! A board: its states and its calls. What each call means is said in specs/Calls.antt.

#![tactic(auto)]

mod answers;
mod buffers;
mod closing;
mod confirm;
mod cycle;
mod install;
mod leave;
mod load;
mod offer;
mod pokes;
mod reading;
mod results;
mod stage;
mod start;
mod states;
mod tokens;
mod vectors;
mod views;
mod writes;

pub use answers::{Answer, Launch, Supply};
pub use results::{Board, Cycled, Denied, Installed, Started, Unstarted};
pub use states::{Cold, Matched, Running};
