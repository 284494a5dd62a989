//! The tag of a whole message at once.

ghost use Rattle.std.specs.Prelude.{◌≡◌, ◌∷◌, length, MatchResult, ◌≢◌};
ghost use Rattle.refusal.specs.declared.Refusal.TheVariants.{WrongLength};
ghost use Rattle.authenticator.specs.Meaning.{tag, padded};

use crate::meaning::{Authenticator, TAG_BUFFER};
use refusal::Refusal;

// The kind is any byte, since which kinds there are is the caller's to say: an enum would take fewer.
/// Writes the tag of `kind` followed by `message`, then zeros, into `out`. The leading byte keeps messages of
/// different kinds apart. Refused where `out` has not 32 bytes; then nothing has changed.
pub fn tag_into<K: Authenticator>(
    authenticator: &mut K,
    kind: u8,
    message: &[u8],
    out: &mut [u8],
) -> Result<(), Refusal>
    ensures key { K.key authenticator.new ≡ K.key authenticator.old }
    ensures answer { MatchResult result (λ _. length out.old ≡ 32) (λ e. (e ≡ WrongLength) × (length out.old ≢ 32)) }
    ensures state { MatchResult result (λ _. K.state authenticator.new ≡ K.means.begin (K.key authenticator.old)) (λ _. authenticator.new ≡ authenticator.old) }
    ensures out { MatchResult result (λ _. out.new ≡ padded (tag K.means (K.key authenticator.old) (kind ∷ message.now))) (λ _. out.new ≡ out.old) }
{
    if out.len() != TAG_BUFFER {
        return Err(Refusal::WrongLength);
    }
    authenticator.open();
    authenticator.feed(&[kind]);
    authenticator.feed(message);
    authenticator.close(out)
}
