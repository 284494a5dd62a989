//! The confirmation of an installed image.

ghost use Rattle.std.specs.Prelude.{◌≡◌};
ghost use Rattle.authenticator.specs.Meaning.{padded};
ghost use Rattle.planner.specs.Confirmation.{confirmation_of};

use authenticator::{Authenticator, TAG_BUFFER};
use layout::NONCE_LEN;

/// Writes the confirmation of a version and a nonce, then zeros, into the register.
pub(crate) fn confirm<K: Authenticator>(
    authenticator: &mut K,
    version: u16,
    nonce: [u8; NONCE_LEN],
    register: &mut [u8; TAG_BUFFER],
)
    ensures key { K.key authenticator.new ≡ K.key authenticator.old }
    ensures state { K.state authenticator.new ≡ K.means.begin (K.key authenticator.old) }
    ensures register { register.new ≡ padded (confirmation_of K.means (K.key authenticator.old) version nonce) }
{
    planner::confirm(authenticator, version, nonce, register).unwrap();
}
