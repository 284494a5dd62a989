//! Tokens and confirmations under a key, by either authenticator.

ghost use Rattle.std.specs.Prelude.{◌≡◌, ℕ, ◌/◌, ◌%◌, List, ◌∷◌, length, MatchResult, ◌≢◌};
ghost use Rattle.authenticator.specs.Meaning.{tag, padded};
ghost use Rattle.cmac.specs.Cmac.{cmac};
ghost use Rattle.hmac.specs.Hmac.{hmac};
ghost use Rattle.commands.specs.Kind.{key_length, tag_length};
ghost use Rattle.commands.specs.Token.{token as token_of, confirmed, Checks};

use crate::kinds::Kind;
use authenticator::{Authenticator, TAG_BUFFER};
use cmac::Cmac;
use hmac::Hmac;
use layout::Image;
use planner::{Request, token};
use refusal::Refusal;

/// An authenticator that is made of a key's bytes.
trait Keyed: Authenticator + Drop {
    /// The length of its keys.
    ghost key_size: { ℕ };

    /// The tag of a message under a key, as the standard defines it.
    ghost standard: { List ℕ → List ℕ → List ℕ };

    /// One under `key`. Refused where that has another length.
    fn keyed(key: &[u8]) -> Result<Self, Refusal>
        ensures { MatchResult result (λ a. (message : List ℕ) → tag Self.means (Self.key a) message ≡ standard key.now message) (λ _. length key.now ≢ key_size) };
}

impl Keyed for Hmac {
    ghost key_size = { 32 };

    ghost standard = { hmac };

    fn keyed(key: &[u8]) -> Result<Hmac, Refusal> {
        hmac::keyed(key, &mut [0; 64])
    }
}

impl Keyed for Cmac {
    ghost key_size = { 16 };

    ghost standard = { cmac };

    fn keyed(key: &[u8]) -> Result<Cmac, Refusal> {
        cmac::keyed(key)
    }
}

// This and `check_confirmation` share the match over the kinds alone: what they take and answer differs.
// That the key has the right length is asked for down to where it is tested: a file's bytes have any.
/// The token of an image, then zeros, under a key of the right length.
pub(crate) fn make_token(kind: Kind, key: &[u8], image: Image<'_>) -> [u8; TAG_BUFFER]
    requires { length key.now ≡ key_length kind }
    ensures { result ≡ padded (token_of kind key.now image.entry.bytes.now) }
{
    match kind {
        Kind::Hmac => token_under::<Hmac>(key, image),
        Kind::Cmac => token_under::<Cmac>(key, image),
    }
}

fn token_under<K: Keyed>(key: &[u8], image: Image<'_>) -> [u8; TAG_BUFFER]
    requires { length key.now ≡ K.key_size }
    ensures { result ≡ padded (K.standard key.now (0 ∷ image.entry.bytes.now)) }
{
    let mut authenticator = K::keyed(key).unwrap();
    let mut out = [0; TAG_BUFFER];
    token(&mut authenticator, image.bytes(), &mut out).unwrap();
    out
}

/// Ends a request with a confirmation, under a key of the right length.
pub(crate) fn check_confirmation(
    kind: Kind,
    key: &[u8],
    request: Request,
    confirmation: &[u8],
) -> Result<(), Refusal>
    requires { length key.now ≡ key_length kind }
    ensures { Checks (tag_length kind) (confirmed kind key.now request.version request.nonce) confirmation.now result }
{
    match kind {
        Kind::Hmac => check_under::<Hmac>(key, request, confirmation),
        Kind::Cmac => check_under::<Cmac>(key, request, confirmation),
    }
}

fn check_under<K: Keyed>(key: &[u8], request: Request, confirmation: &[u8]) -> Result<(), Refusal>
    requires { length key.now ≡ K.key_size }
    ensures { Checks K.means.size (K.standard key.now (1 ∷ request.version % 256 ∷ request.version / 256 % 256 ∷ request.nonce)) confirmation.now result }
{
    let mut authenticator = K::keyed(key).unwrap();
    request.verify(&mut authenticator, confirmation)
}
