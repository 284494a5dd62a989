//! The commands, as functions on values.

#![tactic(auto)]

mod failure;
mod hex;
mod key;
mod kinds;
mod reports;
mod tags;

pub use failure::{Failure, failed};
pub use hex::{from_hex, push_hex};
pub use kinds::Kind;
pub use reports::{header_text, token_report, verify_report};
