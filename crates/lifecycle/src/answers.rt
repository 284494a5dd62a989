//! What the calls return, as a board of any state and an answer.

ghost use Rattle.std.specs.Prelude.{◌≡◌, List, Some};
ghost use Rattle.store.specs.Medium.{Medium};
ghost use Rattle.board.specs.Results.{outcome, started, staged, cycled, offered, installed};
ghost use Rattle.board.specs.Writes.{Write};
ghost use Rattle.lifecycle.specs.Denials.{Denies};
ghost use Rattle.lifecycle.specs.Journal.{board_of};

use board::{Answer, Board, Cycled, Denied, Installed, Matched, Running, Started, Unstarted};

pub(crate) fn starts(r: Result<Started, Unstarted>) -> (Board, Answer)
    ensures { (ws : List Write) (m : Medium) → started ws r m ≡ outcome ws result.1 (board_of result.0) m }
{
    match r {
        Ok(
            Started {
                running,
                launch,
                confirmed,
            },
        ) => {
            let answer = if confirmed {
                Answer::Confirmed(launch)
            } else {
                Answer::Runs(launch)
            };
            (running.into(), answer)
        }
        Err(Unstarted::Refused(cold, refusal)) => (cold.into(), Answer::Refused(refusal)),
        Err(Unstarted::Supply(cold, supply)) => (cold.into(), Answer::Supply(supply)),
        Err(Unstarted::NotLoaded(cold, block)) => (cold.into(), Answer::NotLoaded(block)),
    }
}

// One function for each call, since what it returns and answers is its own; a denial is taken apart in `denies` for all.
pub(crate) fn stages(r: Result<Running, Denied<Running>>) -> (Board, Answer)
    ensures { (ws : List Write) (m : Medium) → staged ws r m ≡ outcome ws result.1 (board_of result.0) m }
{
    match r {
        Ok(running) => (running.into(), Answer::Done),
        Err(denied) => denies(denied),
    }
}

pub(crate) fn cycles(r: Result<Cycled, Denied<Running>>) -> (Board, Answer)
    ensures { (ws : List Write) (m : Medium) → cycled ws r m ≡ outcome ws result.1 (board_of result.0) m }
{
    match r {
        Ok(Cycled::Passed(running)) => (running.into(), Answer::Passes),
        Ok(Cycled::Reset(cold)) => (cold.into(), Answer::Resets),
        Err(denied) => denies(denied),
    }
}

pub(crate) fn offers(r: Result<Matched, Denied<Running>>) -> (Board, Answer)
    ensures { (ws : List Write) (m : Medium) → offered ws r m ≡ outcome ws result.1 (board_of result.0) m }
{
    match r {
        Ok(matched) => (matched.into(), Answer::Matches),
        Err(denied) => denies(denied),
    }
}

pub(crate) fn installs(r: Result<Installed, Denied<Matched>>) -> (Board, Answer)
    ensures { (ws : List Write) (m : Medium) → installed ws r m ≡ outcome ws result.1 (board_of result.0) m }
{
    match r {
        Ok(Installed { running, launch }) => (running.into(), Answer::Confirmed(launch)),
        Err(denied) => denies(denied),
    }
}

/// A call that was denied, as a board of any state and an answer.
fn denies<B: Into<Board>>(denied: Denied<B>) -> (Board, Answer)
    ensures { Denies B.converts denied result.0 result.1 }
{
    match denied {
        Denied::Refused(board, refusal) => (board.into(), Answer::Refused(refusal)),
        Denied::Supply(cold, supply) => (cold.into(), Answer::Supply(supply)),
    }
}

/// A call that was made.
pub(crate) fn made(p: (Board, Answer)) -> (Board, Option<Answer>)
    ensures { (result.0 ≡ p.0) × (result.1 ≡ Some p.1) }
{
    let (board, answer) = p;
    (board, Some(answer))
}
