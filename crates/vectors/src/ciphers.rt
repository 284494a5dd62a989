//! AES-128: the examples of FIPS 197, appendices B and C.1; and the subkeys of RFC 4493.

use crate::bytes::{compare, read_block};
use aes::Aes128;
use cmac::subkeys;

const KEY: &str = "2b7e151628aed2a6abf7158809cf4f3c";

// name, key, block, encrypted block
const BLOCKS: [(&str, &str, &str, &str); 2] = [
    (
        "AES-128, appendix B",
        KEY,
        "3243f6a8885a308d313198a2e0370734",
        "3925841d02dc09fbdc118597196a0b32",
    ),
    (
        "AES-128, appendix C.1",
        "000102030405060708090a0b0c0d0e0f",
        "00112233445566778899aabbccddeeff",
        "69c4e0d86a7b0430d8cdb78070b4c55a",
    ),
];

pub fn run(rt: &HostRuntime) -> anyhow::Result<()> {
    for (name, key, block, encrypted) in BLOCKS {
        let aes = Aes128::new(&read_block(rt, key)?);
        compare(rt, name, &aes.encrypt(read_block(rt, block)?), encrypted)?;
    }
    let (first, second) = subkeys(&read_block(rt, KEY)?);
    compare(
        rt,
        "AES-CMAC, K1",
        &first,
        "fbeed618357133667c85e08f7236a8de",
    )?;
    compare(
        rt,
        "AES-CMAC, K2",
        &second,
        "f7ddac306ae266ccf90bc11ee46d513b",
    )
}
