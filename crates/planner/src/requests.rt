//! What the planner asks of a board: that it confirms a version and a nonce.

ghost use Rattle.std.specs.Prelude.{◌≡◌, length, MatchResult, ◌≢◌};
ghost use Rattle.planner.specs.Confirmation.{confirmation_of, Rejects};

use crate::confirmations::confirm;
use authenticator::{Authenticator, TAG_BUFFER, same};
use layout::NONCE_LEN;
use refusal::Refusal;

/// An open request. It is spent by `verify` or by `give_up`, and by nothing else: it is not `Drop`, so that code that
/// forgets one does not build.
pub struct Request {
    version: u16,
    nonce: [u8; NONCE_LEN],
}

impl Request {
    /// Opens a request for a version and a nonce.
    pub fn open(version: u16, nonce: [u8; NONCE_LEN]) -> Request
        ensures version { result.version ≡ version }
        ensures nonce { result.nonce ≡ nonce }
    {
        Request { version, nonce }
    }

    /// Ends the request without an answer.
    pub fn give_up(self) {
        let Request {
            version: _,
            nonce: _,
        } = self;
    }

    /// Ends the request with the board's confirmation: accepted exactly where it is the tag.
    pub fn verify<K: Authenticator>(
        self,
        authenticator: &mut K,
        confirmation: &[u8],
    ) -> Result<(), Refusal>
        ensures key { K.key authenticator.new ≡ K.key authenticator.old }
        ensures answer { MatchResult result (λ _. confirmation.now ≡ confirmation_of K.means (K.key authenticator.old) self.version self.nonce) (λ e. Rejects K.means (K.key authenticator.old) self.version self.nonce confirmation.now e) }
        ensures begun { length confirmation.now ≡ K.means.size → K.state authenticator.new ≡ K.means.begin (K.key authenticator.old) }
        ensures kept { (length confirmation.now ≢ K.means.size) → authenticator.new ≡ authenticator.old }
    {
        let Request { nonce, version } = self;
        if confirmation.len() != K::tag_len() {
            return Err(Refusal::TagLength);
        }
        // A buffer for the tag of any authenticator, and its front: there is no heap.
        let mut expected = [0; TAG_BUFFER];
        confirm(authenticator, version, nonce, &mut expected)?;
        if same(&expected[..K::tag_len()], confirmation) {
            Ok(())
        } else {
            Err(Refusal::WrongConfirmation)
        }
    }
}
