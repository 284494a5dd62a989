//! Tags for C, to be measured beside other libraries.

#![tactic(auto)]

ghost use Rattle.std.specs.Prelude.{◌⊎◌, ◌≡◌, length};
ghost use Rattle.authenticator.specs.Meaning.{padded};
ghost use Rattle.cmac.specs.Cmac.{cmac};
ghost use Rattle.hmac.specs.Hmac.{hmac};

use cmac::cmac_into;
use hmac::hmac_into;

// C knows no enum with a value: 0 stands for success, else the refusal's number, and each kind has a function.
/// The HMAC-SHA-256 of `message`: 0, and the tag in `out`; or the refusal's number, and `out` as it was.
#[unsafe(no_mangle)]
pub extern "C" fn bench_hmac(key: &[u8], message: &[u8], out: &mut [u8]) -> u8
    ensures { ((result ≡ 0) × (length key.now ≡ 32) × (length out.old ≡ 32) × (out.new ≡ hmac key.now message.now)) ⊎ ((result ≡ 2) × ((length key.now ≡ 32) × (length out.old ≡ 32) → ⊥) × (out.new ≡ out.old)) }
{
    let mut pads = [0; 64];
    match hmac_into(key, message, &mut pads, out) {
        Ok(()) => 0,
        Err(refusal) => refusal.number(),
    }
}

/// The AES-CMAC of `message`: 0, and the tag, then zeros, in `out`; or the refusal's number, and `out` as it was.
#[unsafe(no_mangle)]
pub extern "C" fn bench_cmac(key: &[u8], message: &[u8], out: &mut [u8]) -> u8
    ensures { ((result ≡ 0) × (length key.now ≡ 16) × (length out.old ≡ 32) × (out.new ≡ padded (cmac key.now message.now))) ⊎ ((result ≡ 2) × ((length key.now ≡ 16) × (length out.old ≡ 32) → ⊥) × (out.new ≡ out.old)) }
{
    match cmac_into(key, message, out) {
        Ok(()) => 0,
        Err(refusal) => refusal.number(),
    }
}
