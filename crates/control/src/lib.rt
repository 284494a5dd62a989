//! The control blocks, 0 to 3: what they hold, and the check by which they stand.

#![tactic(auto)]

mod crc;
mod forming;
mod kind;
mod reading;

pub use crc::crc16;
pub use forming::{form_flag, form_pointer, form_vectors};
pub use kind::{Control, Flag};
pub use reading::{read_flag, read_pointer, read_vectors, stands};
