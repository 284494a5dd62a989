//! Leave and reset.

ghost use Rattle.board.specs.Calls.{Leaves};

use crate::results::Board;
use crate::states::{Cold, Matched, Running};

impl Matched {
    /// Gives up the image that was offered.
    pub fn leave(self) -> Running
        ensures { Leaves self result }
    {
        let Matched {
            running: kept,
            place: _,
            version: _,
            nonce: _,
            vectors: _,
        } = self;
        kept
    }
}

impl Running {
    /// Ends the run.
    pub(crate) fn end(self) -> Cold {
        let Running {
            place: _,
            version: _,
        } = self;
        Cold {}
    }
}

impl Board {
    /// Ends whatever the board did. There is but one cold board, so that no clause is needed.
    pub fn reset(self) -> Cold {
        match self {
            Board::Cold(cold) => cold,
            Board::Running(running) => running.end(),
            Board::Matched(matched) => matched.leave().end(),
        }
    }
}
