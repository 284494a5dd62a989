//! How an image lies in its bytes, and on a board.

#![tactic(auto)]

mod addresses;
mod header;
mod place;
mod placing;

pub use addresses::{CONTROL_GUARDED, TCR_END, address, executable, guarded, in_tcr};
pub use header::{HEADER_LEN, Header, Image, LEAST_LEN, NONCE_LEN, VECTORS_LEN};
pub use place::Place;
pub use placing::{
    ADDRESSED, BLOCK, BLOCKS_BEGIN, FIRST_FREE, blocks_of, goes_past, is_newer, is_open, shares,
};
