//! A built-in demonstration: a changeover that is cut at each of its five writes, on both stores and with both
//! authenticators.

#![tactic(auto)]

mod image;
mod scenes;
mod script;

pub use scenes::demonstrate;
