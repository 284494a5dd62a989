//! Bytes of a vector, which are in hex.

use anyhow::anyhow;
use commands::{from_hex, push_hex};

/// The bytes that `text` spells.
pub fn read(rt: &HostRuntime, text: &str) -> anyhow::Result<Vec<u8>> {
    match from_hex(rt.alloc(), text.as_bytes())? {
        Some(bytes) => Ok(bytes),
        None => Err(anyhow!("a vector is not hex")),
    }
}

/// The 16 bytes that `text` spells.
pub fn read_block(rt: &HostRuntime, text: &str) -> anyhow::Result<[u8; 16]> {
    match <[u8; 16]>::try_from(read(rt, text)?.as_slice()) {
        Ok(block) => Ok(block),
        Err(_) => Err(anyhow!("a vector has not 16 bytes")),
    }
}

/// Prints the vector's name, or fails where `got` is not `expected`.
pub fn compare(rt: &HostRuntime, name: &str, got: &[u8], expected: &str) -> anyhow::Result<()> {
    let mut text = String::new(rt.alloc());
    push_hex(&mut text, got)?;
    if text.as_bytes() == expected.as_bytes() {
        println!(rt; "{name}: ok")?;
        Ok(())
    } else {
        eprintln!(rt; "{name}: got {text}")?;
        Err(anyhow!("a vector does not match"))
    }
}
