//! The confirmation that a board writes for an installed image.

ghost use Rattle.std.specs.Prelude.{◌≡◌, ◌/◌, ◌%◌, ◌∷◌, length, MatchResult, ◌≢◌};
ghost use Rattle.refusal.specs.declared.Refusal.TheVariants.{WrongLength};
ghost use Rattle.authenticator.specs.Meaning.{padded};
ghost use Rattle.planner.specs.Confirmation.{confirmation_of};

use crate::purpose::Purpose;
use authenticator::{Authenticator, tag_into};
use layout::NONCE_LEN;
use refusal::Refusal;

/// Writes the confirmation of a version and a nonce, then zeros, into `out`. Refused where `out` has not 32 bytes; then
/// nothing has changed.
pub fn confirm<K: Authenticator>(
    authenticator: &mut K,
    version: u16,
    nonce: [u8; NONCE_LEN],
    out: &mut [u8],
) -> Result<(), Refusal>
    ensures key { K.key authenticator.new ≡ K.key authenticator.old }
    ensures answer { MatchResult result (λ _. length out.old ≡ 32) (λ e. (e ≡ WrongLength) × (length out.old ≢ 32)) }
    ensures state { MatchResult result (λ _. K.state authenticator.new ≡ K.means.begin (K.key authenticator.old)) (λ _. authenticator.new ≡ authenticator.old) }
    ensures out { MatchResult result (λ _. out.new ≡ padded (confirmation_of K.means (K.key authenticator.old) version nonce)) (λ _. out.new ≡ out.old) }
{
    let message = message(version, nonce);
    tag_into(authenticator, Purpose::Confirmation.byte(), &message, out)
}

// What a board confirms: the version, low byte first, and the nonce.
fn message(version: u16, nonce: [u8; NONCE_LEN]) -> [u8; 10]
    ensures { result ≡ version % 256 ∷ version / 256 % 256 ∷ nonce }
{
    let [low, high] = version.to_le_bytes();
    // Named one by one: an array is not joined to another.
    let [a, b, c, d, e, f, g, h] = nonce;
    [low, high, a, b, c, d, e, f, g, h]
}
