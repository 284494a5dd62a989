//! SHA-256: the examples of FIPS 180-4, the empty message, and a million times 'a'.

use crate::bytes::compare;
use sha256::hash;

const HASHES: [(&str, &str, &str); 3] = [
    (
        "SHA-256, empty",
        "",
        "e3b0c44298fc1c149afbf4c8996fb92427ae41e4649b934ca495991b7852b855",
    ),
    (
        "SHA-256, abc",
        "abc",
        "ba7816bf8f01cfea414140de5dae2223b00361a396177a9cb410ff61f20015ad",
    ),
    (
        "SHA-256, two blocks",
        "abcdbcdecdefdefgefghfghighijhijkijkljklmklmnlmnomnopnopq",
        "248d6a61d20638b8e5c026930c3e6039a33ce45964ff2167f6ecedd419db06c1",
    ),
];

const MILLION: &str = "cdc76e5c9914fb9281a1c7e284d73e67f1809a48a497200e046d39ccc7112cd0";

pub fn run(rt: &HostRuntime) -> anyhow::Result<()> {
    for (name, message, digest) in HASHES {
        compare(rt, name, &hash(message.as_bytes()), digest)?;
    }
    let message = vec![in rt.alloc(); b'a'; 1_000_000]?;
    compare(
        rt,
        "SHA-256, a million a",
        &hash(message.as_slice()),
        MILLION,
    )
}
