//! AES-CMAC, as RFC 4493 has it.

#![tactic(auto)]

mod algorithm;
mod authenticators;
mod blocks;
mod keys;

pub use algorithm::CmacCore;
pub use authenticators::{Cmac, cmac_into, keyed};
pub use keys::subkeys;
