//! The check of a control block.

ghost use Rattle.std.specs.Prelude.{◌≡◌};
ghost use Rattle.control.specs.Crc.{shifted, taken, crc_of};

const POLYNOMIAL: u16 = 0x1021;

const START: u16 = 0xFFFF;

/// The CRC of `bytes`: polynomial 1021 hex, start FFFF hex, high bit first, no final change.
pub fn crc16(bytes: &[u8]) -> u16
    ensures { result ≡ crc_of bytes.now }
{
    bytes.iter().copied().fold(START, take_in)
}

// The register after one byte more.
fn take_in(register: u16, byte: u8) -> u16
    ensures { result ≡ taken register byte }
{
    let mut shifting = register ^ (u16::from(byte) << 8);
    for _bit in 0..8u32 {
        shifting = shift(shifting);
    }
    shifting
}

// The register after one bit more.
fn shift(register: u16) -> u16
    ensures { result ≡ shifted register }
{
    if register >= 0x8000 {
        (register << 1) ^ POLYNOMIAL
    } else {
        register << 1
    }
}
