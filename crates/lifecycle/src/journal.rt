//! The journal: the calls that were made, what they were lent, what they answered, and the board that they left.

ghost use Rattle.std.specs.Prelude.{◌≡◌};
ghost use Rattle.lifecycle.specs.Journal.{board_of, board_in, kept_of};
ghost use Rattle.lifecycle.specs.Lived.{shown_by};

use board::{Answer, Board};
use layout::Place;
use watch::Cycle;

/// A call, with what it brings. Scratch buffer and register are lent beside it.
#[derive(Drop)]
pub enum Call {
    Start,
    /// A block, and the bytes for it.
    Stage(usize, Vec<u8>),
    /// The signals, the core's byte and the byte of DMA.
    Cycle(Cycle, u8, u8),
    /// The first block, and the token.
    Offer(usize, Vec<u8>),
    Leave,
    Install,
    Reset,
}

/// What a board knew when the journal was written.
#[derive(Clone, Copy)]
pub enum Standing {
    Cold,
    /// Place and version of the image that runs.
    Running(Place, u16),
    // In the order of a matched board's fields, of which a board shows each by a function.
    /// The same, and then place, version, nonce and vectors of the one that was offered.
    Matched(Place, u16, Place, u16, [u8; 8], [u64; 4]),
}

/// A call that was made.
#[derive(Drop)]
pub struct Entry {
    pub call: Call,
    /// The lengths of the scratch buffer and of the register that were lent.
    pub scratch: usize,
    pub register: usize,
    pub answer: Answer,
    pub standing: Standing,
    /// The register after the call, where it has 32 bytes; else zeros.
    // No option: a register that was not lent and one that the call zeroed tell the same, that nothing is confirmed.
    pub shown: [u8; 32],
}

impl From<&Board> for Standing {
    ghost from_gives = { λ board standing. board_in standing ≡ board_of board.now };

    fn from(board: &Board) -> Standing {
        match board {
            Board::Cold(_) => Standing::Cold,
            Board::Running(running) => Standing::Running(running.place(), running.version()),
            Board::Matched(matched) => {
                let running = matched.running();
                Standing::Matched(
                    running.place(),
                    running.version(),
                    matched.place(),
                    matched.version(),
                    matched.nonce(),
                    matched.vectors(),
                )
            }
        }
    }
}

impl Standing {
    /// What `board` knows.
    pub fn of(board: &Board) -> Standing
        ensures { board_in result ≡ board_of board.now }
    {
        board.into()
    }
}

impl Call {
    /// The register as the journal keeps it for this call.
    pub(crate) fn shown(&self, register: &[u8]) -> [u8; 32]
        ensures { result ≡ shown_by self.now register.now }
    {
        match self {
            Call::Start | Call::Install => kept(register),
            _ => [0; 32],
        }
    }
}

// The bytes of a register that has 32 of them, else zeros.
fn kept(register: &[u8]) -> [u8; 32]
    ensures { result ≡ kept_of register.now }
{
    register.try_into().unwrap_or([0; 32])
}
