//! A life: a board with its store, its authenticator and its journal.

ghost use Rattle.std.specs.Prelude.{◌≡◌};
ghost use Rattle.store.specs.Calls.{Reading};
ghost use Rattle.lifecycle.specs.Journal.{board_of, board_in};
ghost use Rattle.lifecycle.specs.Lived.{Continues, Begins, Lives};

use crate::journal::{Call, Entry, Standing};
use crate::steps::step;
use authenticator::Authenticator;
use board::{Answer, Board, Cold, Denied};
use std::alloc::{AllocError, Global};
use std::mem::replace;
use store::{Fault, Planned, Store};

/// A board's working life. Nothing but its own calls touches what it owns.
// The law stands in contracts, and in no ghost field: that may hold a fact of one proof alone, and a life has a history.
pub struct Life<S: Store, K: Authenticator> {
    factory: Vec<u8>,
    pub(crate) board: Board,
    pub(crate) store: S,
    authenticator: K,
    journal: Vec<Entry>,
}

/// A life that did not begin: what it was to own, and what the load answered.
pub struct Unbegun<S: Store, K: Authenticator> {
    pub store: S,
    pub authenticator: K,
    pub factory: Vec<u8>,
    pub answer: Answer,
}

impl<S: Store, K: Authenticator> Life<S, K> {
    /// Begins a life: loads the factory's image into the store.
    pub fn begin(
        heap: Global,
        store: S,
        authenticator: K,
        factory: Vec<u8>,
        scratch: &mut [u8],
    ) -> Result<Life<S, K>, Unbegun<S, K>>
        ensures { Begins S.medium K.means K.key K.state (S.medium store) authenticator factory.items scratch.old result scratch.new }
    {
        let mut store = store;
        // Every block has 512 bytes: the count promises it.
        let _ = store.count();
        let board = Cold {};
        let answer = match board.load(&mut store, &factory, scratch) {
            Ok(cold) => {
                return Ok(Life {
                    factory,
                    board: Board::Cold(cold),
                    store,
                    authenticator,
                    journal: Vec::new(heap),
                });
            }
            Err(Denied::Refused(Cold {}, refusal)) => Answer::Refused(refusal),
            Err(Denied::Supply(Cold {}, supply)) => Answer::Supply(supply),
        };
        Err(Unbegun {
            store,
            authenticator,
            factory,
            answer,
        })
    }

    /// Makes a call, if the board has the state that it needs, and notes it. Where there is no memory for the note, the
    /// call is not made and nothing has changed.
    pub fn perform(
        &mut self,
        call: Call,
        scratch: &mut [u8],
        register: &mut [u8],
    ) -> Result<Option<Answer>, AllocError>
        ensures life { Continues S.medium K.means K.key K.state self.old self.new }
        ensures made { Lives S.medium K.means K.key K.state self.old call scratch.old register.old result self.new scratch.new register.new }
    {
        self.journal.reserve(1)?;
        let lent = (scratch.len(), register.len());
        let board = replace(&mut self.board, Board::Cold(Cold {}));
        let (board, answer) = step(
            board,
            &call,
            &mut self.store,
            &mut self.authenticator,
            scratch,
            register,
        );
        let standing = Standing::of(&board);
        let Cold {} = replace(&mut self.board, board).reset();
        let Some(answer) = answer else {
            return Ok(None);
        };
        let shown = call.shown(register);
        self.journal.push_reserved(Entry {
            call,
            scratch: lent.0,
            register: lent.1,
            answer,
            standing,
            shown,
        });
        Ok(Some(answer))
    }

    /// What the board knows.
    pub fn standing(&self) -> Standing
        ensures { board_in result ≡ board_of self.now.board }
    {
        Standing::of(&self.board)
    }

    /// The calls that were made, the oldest first.
    pub fn journal(&self) -> &[Entry]
        ensures { result.now ≡ self.now.journal.items }
    {
        self.journal.as_slice()
    }

    /// Reads a block, as the store does.
    pub fn read(&self, block: usize, buffer: &mut [u8]) -> Result<(), Fault>
        ensures { Reading (S.Store.medium self.now.store) block buffer.old result buffer.new }
    {
        self.store.read(block, buffer)
    }

    /// Ends the life: the board is cold, and what it owned is given back.
    pub fn end(self) -> (S, K, Vec<u8>, Vec<Entry>)
        ensures { (result.0 ≡ self.store) × (result.1 ≡ self.authenticator) × (result.2 ≡ self.factory) × (result.3 ≡ self.journal) }
    {
        let Life {
            factory,
            board,
            store,
            authenticator,
            journal,
        } = self;
        let Cold {} = board.reset();
        (store, authenticator, factory, journal)
    }
}

impl<S: Planned, K: Authenticator> Life<S, K> {
    /// Tells the store where its supply fails.
    pub fn set_plan(&mut self, plan: S::Plan)
        ensures life { Continues S.Store.medium K.Authenticator.means K.Authenticator.key K.Authenticator.state self.old self.new }
        ensures medium { S.Store.medium self.new.store ≡ S.Store.medium self.old.store }
        ensures rest { (self.new.board ≡ self.old.board) × (self.new.authenticator ≡ self.old.authenticator) × (self.new.factory ≡ self.old.factory) × (self.new.journal ≡ self.old.journal) }
    {
        self.store.plan(plan);
    }
}
