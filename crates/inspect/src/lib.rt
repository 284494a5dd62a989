//! What can be told of an image, and of a trace of the bus, without a board.

#![tactic(auto)]

mod images;
mod traces;

pub use images::image_text;
pub use traces::{Unreadable, watch_text};
