//! Stage: a block of an image that is to be offered.

ghost use Rattle.std.specs.Prelude.{List, Decides};
ghost use Rattle.layout.specs.Placing.{Fills};
ghost use Rattle.board.specs.Calls.{Stages};
ghost use Rattle.board.specs.Results.{staged};
ghost use Rattle.board.specs.Writes.{Write};

use crate::results::Denied;
use crate::states::Running;
use crate::writes::put;
use layout::{BLOCK, Place, blocks_of, is_open};
use refusal::Refusal;
use store::Store;

impl Running {
    /// Puts `bytes` into a block that the running image does not fill.
    pub fn stage<S: Store>(
        self,
        store: &mut S,
        block: usize,
        bytes: &[u8],
    ) -> Result<Running, Denied<Running>>
        ensures { (ws : List Write) × Stages self (S.medium store.old) block bytes.now (staged ws result (S.medium store.new)) }
    {
        if bytes.len() != BLOCK {
            return Err(Denied::Refused(self, Refusal::WrongLength));
        }
        if !is_open(block, store.count()) {
            return Err(Denied::Refused(self, Refusal::BlockRange));
        }
        if fills(self.place, block) {
            return Err(Denied::Refused(self, Refusal::RunningBlock));
        }
        match put(store, 1, block, bytes) {
            Ok(()) => Ok(self),
            Err(supply) => Err(Denied::Supply(self.end(), supply)),
        }
    }
}

// Whether `block` is one of the image's at `place`.
fn fills(place: Place, block: usize) -> bool
    ensures { Decides result (Fills place.first place.len block) }
{
    (place.first..place.first + blocks_of(place.len)).contains(&block)
}
