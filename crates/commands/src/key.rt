//! How a key file is read.

ghost use Rattle.std.specs.Prelude.{◌≡◌, IfOk, vec_len};
ghost use Rattle.commands.specs.Key.{line, Read};

use crate::failure::Failure;
use crate::hex::from_hex;
use std::alloc::Global;

/// Why a file holds no key.
#[derive(Clone, Copy, PartialEq, Eq, Debug, Drop)]
pub enum KeyFault {
    /// It has neither the key's length nor that of the key in hex.
    WrongLength,
    /// It has the length of a key in hex, and a character in it is no digit.
    NotHex,
}

// The length is the key's, by the authenticator, and not the file's.
/// Reads the key of `len` bytes that `file` holds. A file of that length is the key itself; one of twice as many
/// digits in either case, and at most a newline behind them, is the key in hex.
pub fn read_key(heap: Global, file: &[u8], len: usize) -> Result<Vec<u8>, Failure<KeyFault>>
    ensures value { Read len file.now result }
    ensures len { IfOk result (λ v. vec_len v ≡ len) }
{
    if file.len() == len {
        return Ok(Vec::from_slice(heap, file)?);
    }
    let digits = without_newline(file);
    // Halves, since twice `len` may pass the largest number.
    if digits.len() / 2 != len || digits.len() % 2 != 0 {
        return Err(Failure::Cause(KeyFault::WrongLength));
    }
    match from_hex(heap, digits)? {
        Some(key) => Ok(key),
        None => Err(Failure::Cause(KeyFault::NotHex)),
    }
}

// `text` without the newline at its end, if it has one there.
fn without_newline(text: &[u8]) -> &[u8]
    ensures { result.now ≡ line text.now }
{
    match text {
        [front @ .., b'\n'] => front,
        _ => text,
    }
}
