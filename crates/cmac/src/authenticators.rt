//! AES-CMAC as an authenticator, and its tag at once.

ghost use Rattle.std.specs.Prelude.{◌≡◌, ℕ, List, length, IfOk, MatchResult, ◌≢◌};
ghost use Rattle.refusal.specs.declared.Refusal.TheVariants.{WrongLength};
ghost use Rattle.authenticator.specs.Meaning.{tag, padded};
ghost use Rattle.authenticator.specs.Feeding.{fed};
ghost use Rattle.cmac.specs.Cmac.{cmac};
ghost use Rattle.cmac.specs.Chains.{cmac_chaining};
ghost use Rattle.cmac.specs.Keyed.{key_in, held_in};

use crate::algorithm::CmacCore;
use authenticator::{Authenticator, Feeder, TAG_BUFFER};
use refusal::Refusal;

/// The length of a key.
const KEY: usize = 16;

/// AES-CMAC under one key.
pub type Cmac = Feeder<CmacCore, 16>;

/// An authenticator under `key`, at its beginning. Refused where `key` has not 16 bytes.
#[tactic(auto, using(crate::proofs::Law::keyed_law))]
pub fn keyed(key: &[u8]) -> Result<Cmac, Refusal>
    ensures answer { MatchResult result (λ _. length key.now ≡ 16) (λ e. (e ≡ WrongLength) × (length key.now ≢ 16)) }
    ensures made { IfOk result (λ c. (key_in c ≡ key.now) × (held_in c ≡ (fed 16 cmac_chaining).begin (key_in c))) }
    ensures law { IfOk result (λ c. (message : List ℕ) → tag (fed 16 cmac_chaining) (key_in c) message ≡ cmac key.now message) }
{
    let Some(key) = key.as_array::<KEY>() else {
        return Err(Refusal::WrongLength);
    };
    Ok(Feeder::new(CmacCore::new(key)))
}

/// Writes the tag of `message` under `key`, then zeros, into `out`. Refused where `out` has not 32 bytes, and then
/// where `key` has not 16; then nothing has changed.
pub fn cmac_into(key: &[u8], message: &[u8], out: &mut [u8]) -> Result<(), Refusal>
    ensures answer { MatchResult result (λ _. (length out.old ≡ 32) × (length key.now ≡ 16)) (λ e. (e ≡ WrongLength) × ((length out.old ≡ 32) × (length key.now ≡ 16) → ⊥)) }
    ensures out { MatchResult result (λ _. out.new ≡ padded (cmac key.now message.now)) (λ _. out.new ≡ out.old) }
{
    if out.len() != TAG_BUFFER {
        return Err(Refusal::WrongLength);
    }
    let mut authenticator = keyed(key)?;
    authenticator.feed(message);
    authenticator.close(out)
}
