//! What the calls return: their answer, together with the board that they leave. None can be dropped, since a board
//! cannot.

ghost use Rattle.std.specs.Prelude.{◌≡◌};
ghost use Rattle.board.specs.declared.results.Board.TheVariants as board;

use crate::answers::{Launch, Supply};
use crate::states::{Cold, Matched, Running};
use refusal::Refusal;

// Both cases are failures, and both hold a board.
/// Why a call was not done.
pub enum Denied<B> {
    /// Refusals 1 to 9: the board is as it was.
    Refused(B, Refusal),
    /// Refusal 10: the board is cold.
    Supply(Cold, Supply),
}

// `Denied<Cold>` with one case more; nested in one another, each of those cases would have two names.
/// Why nothing was started.
pub enum Unstarted {
    /// Refusals 1 and 2.
    Refused(Cold, Refusal),
    /// Refusal 10.
    Supply(Cold, Supply),
    /// Refusal 11, with the block that is to blame.
    NotLoaded(Cold, usize),
}

/// An image was started.
pub struct Started {
    pub running: Running,
    pub launch: Launch,
    /// An install was ended: the confirmation stands in the register.
    // A flag, since both cases hold the same values.
    pub confirmed: bool,
}

// `Started` without its flag: an install that ends is confirmed.
/// An image was installed: its confirmation stands in the register.
pub struct Installed {
    pub running: Running,
    pub launch: Launch,
}

// Both cases are answers, and each holds another board.
/// The verdict on a cycle.
pub enum Cycled {
    Passed(Running),
    Reset(Cold),
}

/// A board of any state, for whoever keeps one over many calls.
pub enum Board {
    Cold(Cold),
    Running(Running),
    Matched(Matched),
}

impl From<Cold> for Board {
    ghost from_gives = { λ cold b. b ≡ board.Cold cold };

    fn from(cold: Cold) -> Board {
        Board::Cold(cold)
    }
}

impl From<Running> for Board {
    ghost from_gives = { λ running b. b ≡ board.Running running };

    fn from(running: Running) -> Board {
        Board::Running(running)
    }
}

impl From<Matched> for Board {
    ghost from_gives = { λ matched b. b ≡ board.Matched matched };

    fn from(matched: Matched) -> Board {
        Board::Matched(matched)
    }
}
