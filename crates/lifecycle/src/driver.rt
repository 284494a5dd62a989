//! A whole life, from the factory's load to its end, under whoever names its calls.

ghost use Rattle.std.specs.Prelude.{◌≡◌};
ghost use Rattle.board.specs.Answers.{cleared};
ghost use Rattle.lifecycle.specs.Lived.{Continues, Lasts};

use crate::journal::{Call, Standing};
use crate::life::{Life, Unbegun};
use authenticator::Authenticator;
use board::Answer;
use std::alloc::{AllocError, Global};
use store::Store;

/// A call that is asked for, and how much of the lent buffers it is lent, at most.
#[derive(Drop)]
pub struct Order {
    pub call: Call,
    pub scratch: usize,
    pub register: usize,
}

/// What is shown ahead of the next call.
#[derive(Clone, Copy)]
pub struct Reply {
    /// What the last call answered; nothing ahead of the first, and where it did not fit the board.
    pub answer: Option<Answer>,
    /// What the board knows.
    pub standing: Standing,
}

/// Whoever makes the calls of a life.
pub trait Driver<S: Store> {
    /// The next call, or the end. It may look at the store and plan cuts, and leaves what the store means as it is.
    fn next(&mut self, last: Reply, store: &mut S, register: &[u8]) -> Option<Order>
        ensures { S.medium store.new ≡ S.medium store.old };
}

impl<S: Store, K: Authenticator> Life<S, K> {
    /// Asks for the next call.
    pub fn ask<D: Driver<S>>(
        &mut self,
        driver: &mut D,
        answer: Option<Answer>,
        register: &[u8],
    ) -> Option<Order>
        ensures life { Continues S.medium K.means K.key K.state self.old self.new }
        ensures authenticator { self.new.authenticator ≡ self.old.authenticator }
    {
        let reply = Reply {
            answer,
            standing: Standing::of(&self.board),
        };
        driver.next(reply, &mut self.store, register)
    }

    // Lent one by one, as the caller has them: they are taken apart again for each call.
    /// Makes each call that the driver names, until it names none or there is no memory for the journal. Both buffers are
    /// zeros then.
    pub fn run<D: Driver<S>>(
        &mut self,
        driver: &mut D,
        scratch: &mut [u8],
        register: &mut [u8],
    ) -> Result<(), AllocError>
        ensures life { Continues S.medium K.means K.key K.state self.old self.new }
        ensures scratch { scratch.new ≡ cleared scratch.old }
        ensures register { register.new ≡ cleared register.old }
    {
        let ended = self.turns(driver, scratch, register);
        scratch.fill(0);
        register.fill(0);
        ended
    }

    fn turns<D: Driver<S>>(
        &mut self,
        driver: &mut D,
        scratch: &mut [u8],
        register: &mut [u8],
    ) -> Result<(), AllocError>
        ensures { Continues S.medium K.means K.key K.state self.old self.new }
    {
        let mut answer = None;
        for _ in 0..u64::MAX {
            let Some(order) = self.ask(driver, answer, register) else {
                return Ok(());
            };
            let lent = order.scratch.min(scratch.len());
            let shown = order.register.min(register.len());
            answer = self.perform(order.call, &mut scratch[0..lent], &mut register[0..shown])?;
        }
        Ok(())
    }
}

/// Runs a whole life: begins it with the load of the factory's image, and makes each call that the driver names. Whatever
/// the calls are, and wherever the store loses its supply, the life keeps the law.
pub fn live<S: Store, K: Authenticator, D: Driver<S>>(
    heap: Global,
    store: S,
    authenticator: K,
    factory: Vec<u8>,
    driver: &mut D,
    scratch: &mut [u8],
    register: &mut [u8],
) -> Result<(Life<S, K>, Result<(), AllocError>), Unbegun<S, K>>
    ensures { Lasts S.medium K.means K.key K.state (S.medium store) authenticator factory.items scratch.old register.old result scratch.new register.new }
{
    let mut life = Life::begin(heap, store, authenticator, factory, scratch)?;
    let ended = life.run(driver, scratch, register);
    Ok((life, ended))
}
