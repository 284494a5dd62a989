//! Tokens and confirmations: the token that an image is sent with, the confirmation that a board writes, and the
//! planner's request that a confirmation answers.

#![tactic(auto)]

mod confirmations;
mod purpose;
mod requests;
mod tokens;

pub use confirmations::confirm;
pub use purpose::Purpose;
pub use requests::Request;
pub use tokens::token;
