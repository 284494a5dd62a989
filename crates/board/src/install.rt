//! Install: the image that was offered takes the place of the running one.

ghost use Rattle.std.specs.Prelude.{◌≡◌, List, length};
ghost use Rattle.authenticator.specs.Meaning.{padded};
ghost use Rattle.planner.specs.Confirmation.{confirmation_of};
ghost use Rattle.board.specs.Calls.{Installs, installing};
ghost use Rattle.board.specs.Results.{installed};
ghost use Rattle.board.specs.Rows.{Row};
ghost use Rattle.board.specs.States.{bytes_of, launch_of};
ghost use Rattle.board.specs.Writes.{Write};

use crate::answers::Supply;
use crate::buffers::clear;
use crate::closing::{Content, close, put_all};
use crate::confirm::confirm;
use crate::results::{Denied, Installed};
use crate::states::{Cold, Matched, Running};
use authenticator::{Authenticator, TAG_BUFFER};
use control::Flag;
use layout::{BLOCK, Place};
use refusal::Refusal;
use store::Store;

impl Matched {
    // Lent one by one, as the caller has them; cleared by a line at the end of the call (see `clear`).
    /// Installs the image whose token matched, and confirms it in the register.
    pub fn install<S: Store, K: Authenticator>(
        self,
        store: &mut S,
        authenticator: &mut K,
        scratch: &mut [u8],
        register: &mut [u8],
    ) -> Result<Installed, Denied<Matched>>
        ensures key { K.Authenticator.key authenticator.new ≡ K.Authenticator.key authenticator.old }
        ensures call { (ws : List Write) × Installs K.Authenticator.means (K.Authenticator.key authenticator.old) self (S.Store.medium store.old) scratch.old register.old (K.Authenticator.state authenticator.old) (installed ws result (S.Store.medium store.new)) scratch.new register.new (K.Authenticator.state authenticator.new) }
    {
        let Some(scratch) = scratch.as_mut_array() else {
            return Err(Denied::Refused(self, Refusal::WrongLength));
        };
        let Some(register) = register.as_mut_array() else {
            return Err(Denied::Refused(self, Refusal::WrongLength));
        };
        clear(register);
        let written = write_install(store, self.place, self.vectors, scratch);
        clear(scratch);
        match written {
            Ok(()) => Ok(self.succeed(authenticator, register)),
            Err(supply) => Err(Denied::Supply(self.leave().end(), supply)),
        }
    }

    // The image that was offered runs, and is confirmed.
    fn succeed<K: Authenticator>(
        self,
        authenticator: &mut K,
        register: &mut [u8; TAG_BUFFER],
    ) -> Installed
        ensures key { K.key authenticator.new ≡ K.key authenticator.old }
        ensures state { K.state authenticator.new ≡ K.means.begin (K.key authenticator.old) }
        ensures register { register.new ≡ padded (confirmation_of K.means (K.key authenticator.old) self.version self.nonce) }
        ensures installed { result ≡ record { running = record { place = self.place; version = self.version }; launch = launch_of self.place } }
    {
        confirm(authenticator, self.version, self.nonce, register);
        let place = self.place;
        let version = self.version;
        let Cold {} = self.leave().end();
        Installed {
            running: Running { place, version },
            launch: place.into(),
        }
    }
}

// The writes of an install.
fn write_install<S: Store>(
    store: &mut S,
    place: Place,
    vectors: [u64; 4],
    scratch: &mut [u8; BLOCK],
) -> Result<(), Supply>
    ensures { Row 1 (installing place.first place.len (bytes_of vectors)) (S.medium store.old) result (S.medium store.new) }
{
    let contents = [
        Content::BufferPointer(place),
        Content::Flag(Flag::Unfinished),
    ];
    put_all(store, 1, &contents, scratch)?;
    close(store, 3, place, vectors, scratch)
}
