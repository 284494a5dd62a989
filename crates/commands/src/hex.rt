//! Bytes as hexadecimal digits.

ghost use Rattle.std.specs.Prelude.{◌≡◌, ◌+◌, ◌*◌, ◌<◌, ◌++◌, length, IfSome, is_ok, IfOk, if◌then◌else◌, Some, vec_items, vec_len, string_bytes, string_len, string_capacity, OnErr, OnOk};
ghost use Rattle.std.specs.Option.{option_map};
ghost use Rattle.commands.specs.Hex.{digit_of, hex_of, value_of, byte_of, unhex};

use std::alloc::{AllocError, Global};

/// Adds `bytes` to `text`, two digits each. Where there is no memory, `text` stays as it was.
pub fn push_hex(text: &mut String, bytes: &[u8]) -> Result<(), AllocError>
    ensures bytes { string_bytes text.new ≡ (if is_ok result then string_bytes text.old ++ hex_of bytes.now else string_bytes text.old) }
    ensures back { OnOk result (unhex (hex_of bytes.now) ≡ Some bytes.now) }
    ensures refused { OnErr result (string_capacity text.old < string_len text.old + 2 * length bytes.now) }
{
    text.reserve(2 * bytes.len())?;
    for b in bytes {
        text.push(digit(*b / 16))?;
        text.push(digit(*b % 16))?;
    }
    Ok(())
}

/// The bytes that `text` spells, two digits each in either case, if it does.
pub fn from_hex(heap: Global, text: &[u8]) -> Result<Option<Vec<u8>>, AllocError>
    ensures value { IfOk result (λ bytes. option_map vec_items bytes ≡ unhex text.now) }
    ensures len { IfOk result (λ bytes. IfSome bytes (λ v. 2 * vec_len v ≡ length text.now)) }
{
    let mut bytes = Vec::new(heap);
    let mut left = text;
    while let [high, low, rest @ ..] = left {
        let Some(b) = byte(*high, *low) else {
            return Ok(None);
        };
        bytes.push(b)?;
        left = rest;
    }
    if left.is_empty() {
        Ok(Some(bytes))
    } else {
        Ok(None)
    }
}

// The digit of a value.
fn digit(value: u8) -> char
    requires { value < 16 }
    ensures value { result ≡ digit_of value }
    ensures ascii { result < 128 }
{
    if value < 10 {
        (b'0' + value) as char
    } else {
        (b'a' - 10 + value) as char
    }
}

// The byte of two digits, if they are digits.
fn byte(high: u8, low: u8) -> Option<u8>
    ensures { result ≡ byte_of high low }
{
    Some(16 * value(high)? + value(low)?)
}

// The value of a digit, if it is one.
fn value(digit: u8) -> Option<u8>
    ensures value { result ≡ value_of digit }
    ensures bound { IfSome result (λ v. v < 16) }
{
    match digit {
        b'0'..=b'9' => Some(digit - b'0'),
        b'a'..=b'f' => Some(digit - b'a' + 10),
        b'A'..=b'F' => Some(digit - b'A' + 10),
        _ => None,
    }
}
