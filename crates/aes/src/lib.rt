//! AES-128, as FIPS 197 has it.

#![tactic(auto)]

mod aes128;
mod cipher;
mod columns;
mod schedule;
mod tables;

pub use aes128::Aes128;
