//! HMAC-SHA-256 as an authenticator, and its tag at once.

ghost use Rattle.std.specs.Prelude.{◌≡◌, ℕ, List, length, replicate, IfOk, MatchResult, ◌≢◌};
ghost use Rattle.refusal.specs.declared.Refusal.TheVariants.{WrongLength};
ghost use Rattle.authenticator.specs.Meaning.{tag, padded};
ghost use Rattle.authenticator.specs.Feeding.{fed};
ghost use Rattle.hmac.specs.Hmac.{hmac};
ghost use Rattle.hmac.specs.Chains.{chains_of, hmac_chaining};
ghost use Rattle.hmac.specs.Keyed.{chains_in, held_in, Fits};

use crate::algorithm::HmacCore;
use crate::keys::{KEY, PADS, Wiped, chain};
use authenticator::{Authenticator, Feeder};
use refusal::Refusal;

/// The marks of the two key pads.
const INNER: u8 = 0x36;

const OUTER: u8 = 0x5c;

/// HMAC-SHA-256 under one key.
pub type Hmac = Feeder<HmacCore, 64>;

/// An authenticator under `key`, at its beginning. Refused where `pads`, in which the key pads are formed, has not 64
/// bytes, and then where `key` has not 32. Once their number was found right, `pads` are zeros.
pub fn keyed(key: &[u8], pads: &mut [u8]) -> Result<Hmac, Refusal>
    ensures answer { MatchResult result (λ _. Fits key.now pads.old) (λ e. (e ≡ WrongLength) × (Fits key.now pads.old → ⊥)) }
    ensures wiped { length pads.old ≡ 64 → pads.new ≡ replicate 64 0 }
    ensures kept { (length pads.old ≢ 64) → pads.new ≡ pads.old }
    ensures made { IfOk result (λ h. (chains_in h ≡ chains_of key.now) × (held_in h ≡ (fed 64 hmac_chaining).begin (chains_in h))) }
    ensures law { IfOk result (λ h. (message : List ℕ) → tag (fed 64 hmac_chaining) (chains_in h) message ≡ hmac key.now message) }
{
    match pads.as_mut_array::<PADS>() {
        Some(pads) => formed(key, pads),
        None => Err(Refusal::WrongLength),
    }
}

/// The same where `pads` have their 64 bytes.
fn formed(key: &[u8], pads: &mut [u8; PADS]) -> Result<Hmac, Refusal>
    ensures answer { MatchResult result (λ _. length key.now ≡ 32) (λ e. (e ≡ WrongLength) × (length key.now ≢ 32)) }
    ensures wiped { pads.new ≡ replicate 64 0 }
    ensures made { IfOk result (λ h. (chains_in h ≡ chains_of key.now) × (held_in h ≡ (fed 64 hmac_chaining).begin (chains_in h))) }
{
    let guard = Wiped { pads };
    let Some(key) = key.as_array::<KEY>() else {
        return Err(Refusal::WrongLength);
    };
    let inner = chain(guard.pads, key, INNER);
    let outer = chain(guard.pads, key, OUTER);
    Ok(Feeder::new(HmacCore {
        inner,
        outer,
        words: inner,
        bits: 0,
    }))
}

/// Writes the HMAC-SHA-256 of `message` under `key` into `out`, which has 32 bytes. Refused as `keyed` refuses,
/// and then where `out` has another length.
pub fn hmac_into(key: &[u8], message: &[u8], pads: &mut [u8], out: &mut [u8]) -> Result<(), Refusal>
    ensures answer { MatchResult result (λ _. Fits key.now pads.old × (length out.old ≡ 32)) (λ e. (e ≡ WrongLength) × (Fits key.now pads.old × (length out.old ≡ 32) → ⊥)) }
    ensures wiped { length pads.old ≡ 64 → pads.new ≡ replicate 64 0 }
    ensures kept { (length pads.old ≢ 64) → pads.new ≡ pads.old }
    ensures out { MatchResult result (λ _. out.new ≡ hmac key.now message.now) (λ _. out.new ≡ out.old) }
{
    let mut authenticator = keyed(key, pads)?;
    authenticator.feed(message);
    authenticator.close(out)
}
