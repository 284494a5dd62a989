//! One call on a board of any state.

ghost use Rattle.std.specs.Prelude.{◌≡◌};
ghost use Rattle.lifecycle.specs.Journal.{board_of};
ghost use Rattle.lifecycle.specs.Lived.{Performed, bench};

use crate::answers::{cycles, installs, made, offers, stages, starts};
use crate::journal::Call;
use authenticator::Authenticator;
use board::{Answer, Board};
use store::Store;

/// Makes a call, if the board has the state that it needs.
pub(crate) fn step<S: Store, K: Authenticator>(
    board: Board,
    call: &Call,
    store: &mut S,
    authenticator: &mut K,
    scratch: &mut [u8],
    register: &mut [u8],
) -> (Board, Option<Answer>)
    ensures made { Performed K.means (K.key authenticator.old) (bench (board_of board) (S.medium store.old) (K.state authenticator.old) scratch.old register.old) call.now result.1 (bench (board_of result.0) (S.medium store.new) (K.state authenticator.new) scratch.new register.new) }
    ensures key { K.key authenticator.new ≡ K.key authenticator.old }
{
    match (call, board) {
        (Call::Start, Board::Cold(cold)) => {
            made(starts(cold.start(store, authenticator, scratch, register)))
        }
        (Call::Stage(block, bytes), Board::Running(running)) => {
            made(stages(running.stage(store, *block, bytes)))
        }
        (Call::Cycle(signals, byte, dma_byte), Board::Running(running)) => {
            made(cycles(running.cycle(store, *signals, *byte, *dma_byte, scratch)))
        }
        (Call::Offer(first, token), Board::Running(running)) => {
            made(offers(running.offer(store, authenticator, *first, token, scratch)))
        }
        (Call::Leave, Board::Matched(matched)) => (
            Board::Running(matched.leave()),
            Some(Answer::Done),
        ),
        (Call::Install, Board::Matched(matched)) => {
            made(installs(matched.install(store, authenticator, scratch, register)))
        }
        (Call::Reset, board) => (Board::Cold(board.reset()), Some(Answer::Done)),
        // The call does not fit the board.
        (_, board) => (board, None),
    }
}
