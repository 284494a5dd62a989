//! What an authenticator is, and the feeder that makes one of any block algorithm.

#![tactic(auto)]

mod comparison;
mod feeder;
mod meaning;
mod tags;

pub use comparison::same;
pub use feeder::{BlockCore, Feeder};
pub use meaning::{Authenticator, TAG_BUFFER};
pub use tags::tag_into;
