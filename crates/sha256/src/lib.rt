//! SHA-256, as FIPS 180-4 has it.

#![tactic(auto)]

mod compression;
mod constants;
mod digest;
mod functions;
mod message;
mod padding;
mod schedule;

pub use compression::{compress, first};
pub use message::{finish, hash};
