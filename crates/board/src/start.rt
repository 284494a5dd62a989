//! Start: what the control blocks point to runs, after an install that did not end is ended.

ghost use Rattle.std.specs.Prelude.{◌≡◌, ◌≤◌, List, [], length, Decides, MatchOption};
ghost use Rattle.control.specs.Blocks.{Stands, block_of, flag_in};
ghost use Rattle.control.specs.declared.kind.Control.TheVariants.{Vectors};
ghost use Rattle.control.specs.declared.kind.Flag.TheVariants.{Finished};
ghost use Rattle.control.specs.Calls.{Pointed};
ghost use Rattle.store.specs.Medium.{held};
ghost use Rattle.board.specs.Calls.{LegalAt, RunsBy, Resumes, Starts};
ghost use Rattle.board.specs.Results.{started};
ghost use Rattle.board.specs.Answers.{cleared};
ghost use Rattle.board.specs.Readable.{Readable};
ghost use Rattle.board.specs.Resumed.{Resumed};
ghost use Rattle.board.specs.Writes.{Write};

use crate::buffers::{clear, is_store};
use crate::closing::close;
use crate::confirm::confirm;
use crate::reading::{Reader, Stored, header};
use crate::results::{Started, Unstarted};
use crate::states::{Cold, Running};
use authenticator::{Authenticator, TAG_BUFFER};
use control::{Control, Flag, read_flag, read_pointer, stands};
use layout::{BLOCK, Place};
use refusal::Refusal;
use store::Store;

impl Cold {
    // Lent one by one, as the caller has them; cleared by a line at the end of the call (see `clear`).
    /// Wakes the store and runs the image that is installed there. An install that did not end is ended first, and
    /// confirmed in the register.
    pub fn start<S: Store, K: Authenticator>(
        self,
        store: &mut S,
        authenticator: &mut K,
        scratch: &mut [u8],
        register: &mut [u8],
    ) -> Result<Started, Unstarted>
        ensures key { K.Authenticator.key authenticator.new ≡ K.Authenticator.key authenticator.old }
        ensures call { (ws : List Write) × Starts K.Authenticator.means (K.Authenticator.key authenticator.old) (S.Store.medium store.old) scratch.old register.old (K.Authenticator.state authenticator.old) (started ws result (S.Store.medium store.new)) scratch.new register.new (K.Authenticator.state authenticator.new) }
    {
        let Some(scratch) = scratch.as_mut_array() else {
            return Err(Unstarted::Refused(self, Refusal::WrongLength));
        };
        let Some(register) = register.as_mut_array() else {
            return Err(Unstarted::Refused(self, Refusal::WrongLength));
        };
        let answer = self.resume(store, authenticator, scratch, register);
        clear(scratch);
        answer
    }

    // The start, but for the scratch buffer's end.
    fn resume<S: Store, K: Authenticator>(
        self,
        store: &mut S,
        authenticator: &mut K,
        scratch: &mut [u8; BLOCK],
        register: &mut [u8; TAG_BUFFER],
    ) -> Result<Started, Unstarted>
        ensures key { K.Authenticator.key authenticator.new ≡ K.Authenticator.key authenticator.old }
        ensures call { (ws : List Write) × Starts K.Authenticator.means (K.Authenticator.key authenticator.old) (S.Store.medium store.old) scratch.old register.old (K.Authenticator.state authenticator.old) (started ws result (S.Store.medium store.new)) (cleared scratch.old) register.new (K.Authenticator.state authenticator.new) }
    {
        clear(register);
        if !is_store(store.count()) {
            return Err(Unstarted::Refused(self, Refusal::StoreSize));
        }
        store.wake();
        let flag = Reader { store }.flag(scratch);
        match flag {
            Flag::Finished => self.run(Reader { store }, scratch),
            Flag::Unfinished => self.finish(store, authenticator, scratch, register),
        }
    }

    // Runs what block 0 points to.
    fn run<S: Store>(
        self,
        reader: Reader<'_, S>,
        scratch: &mut [u8; BLOCK],
    ) -> Result<Started, Unstarted>
        ensures { Resumes Finished (S.medium reader.entry.store.now) (started [] result (S.medium reader.entry.store.now)) }
    {
        let Some(running) = reader.pointed(Control::Pointer, scratch) else {
            return Err(Unstarted::NotLoaded(self, Control::Pointer.block()));
        };
        if !reader.vectors_stand(scratch) {
            let Cold {} = running.end();
            return Err(Unstarted::NotLoaded(self, Control::Vectors.block()));
        }
        let Cold {} = self;
        let launch = running.place.into();
        Ok(Started {
            running,
            launch,
            confirmed: false,
        })
    }

    // Ends the install of what block 3 points to.
    fn finish<S: Store, K: Authenticator>(
        self,
        store: &mut S,
        authenticator: &mut K,
        scratch: &mut [u8; BLOCK],
        register: &mut [u8; TAG_BUFFER],
    ) -> Result<Started, Unstarted>
        requires { (register.old ≡ cleared register.old) × ((Readable (S.Store.medium store.old)) × (4 ≤ length (S.Store.medium store.old).blocks)) }
        ensures key { K.Authenticator.key authenticator.new ≡ K.Authenticator.key authenticator.old }
        ensures call { (ws : List Write) × Resumed K.Authenticator.means (K.Authenticator.key authenticator.old) (S.Store.medium store.old) register.old (K.Authenticator.state authenticator.old) (started ws result (S.Store.medium store.new)) register.new (K.Authenticator.state authenticator.new) }
    {
        let pointed = Reader { store }.pointed(Control::BufferPointer, scratch);
        match pointed {
            None => Err(Unstarted::NotLoaded(self, Control::BufferPointer.block())),
            Some(running) => {
                let Cold {} = self;
                running.finish(store, authenticator, scratch, register)
            }
        }
    }
}

impl Running {
    // Ends the install of the image, and confirms it.
    fn finish<S: Store, K: Authenticator>(
        self,
        store: &mut S,
        authenticator: &mut K,
        scratch: &mut [u8; BLOCK],
        register: &mut [u8; TAG_BUFFER],
    ) -> Result<Started, Unstarted>
        requires { (register.old ≡ cleared register.old) × ((Readable (S.Store.medium store.old)) × (RunsBy (S.Store.medium store.old) 3 self)) }
        ensures key { K.Authenticator.key authenticator.new ≡ K.Authenticator.key authenticator.old }
        ensures call { (ws : List Write) × Resumed K.Authenticator.means (K.Authenticator.key authenticator.old) (S.Store.medium store.old) register.old (K.Authenticator.state authenticator.old) (started ws result (S.Store.medium store.new)) register.new (K.Authenticator.state authenticator.new) }
    {
        let place = self.place;
        let image = Stored {
            reader: Reader { store },
            place,
        };
        let nonce = image.nonce(scratch);
        let vectors = image.vectors(scratch);
        match close(store, 1, place, vectors, scratch) {
            Ok(()) => {
                confirm(authenticator, self.version, nonce, register);
                Ok(Started {
                    running: self,
                    launch: place.into(),
                    confirmed: true,
                })
            }
            Err(supply) => Err(Unstarted::Supply(self.end(), supply)),
        }
    }
}

impl<S: Store> Reader<'_, S> {
    // What the flag block tells.
    fn flag(&self, scratch: &mut [u8; BLOCK]) -> Flag
        ensures { result ≡ flag_in (held (S.medium self.now.store.now) 2) }
    {
        self.fetch_control(Control::Flag, scratch);
        read_flag(scratch).unwrap()
    }

    // Whether the vectors block stands.
    fn vectors_stand(&self, scratch: &mut [u8; BLOCK]) -> bool
        ensures { Decides result (Stands Vectors (held (S.medium self.now.store.now) 1)) }
    {
        self.fetch_control(Control::Vectors, scratch);
        stands(Control::Vectors, scratch).unwrap()
    }

    // The image that a control block is a legal pointer to, if it is one.
    fn pointed(&self, control: Control, scratch: &mut [u8; BLOCK]) -> Option<Running>
        ensures { MatchOption result (LegalAt (S.medium self.now.store.now) (block_of control) → ⊥) (λ running. RunsBy (S.medium self.now.store.now) (block_of control) running) }
    {
        let place = self.place_at(control, scratch)?;
        self.fetch(place.first, scratch);
        let header = header(scratch);
        if header.len != place.len {
            return None;
        }
        Some(Running {
            place,
            version: header.version,
        })
    }

    // The place that a control block points to, if it points to one.
    fn place_at(&self, control: Control, scratch: &mut [u8; BLOCK]) -> Option<Place>
        ensures { Pointed (length (S.medium self.now.store.now).blocks) (held (S.medium self.now.store.now) (block_of control)) result }
    {
        self.fetch_control(control, scratch);
        read_pointer(scratch, self.count()).unwrap()
    }
}
