//! HMAC-SHA-256.

#![tactic(auto)]

mod algorithm;
mod authenticators;
mod keys;

pub use algorithm::HmacCore;
pub use authenticators::{Hmac, hmac_into, keyed};
