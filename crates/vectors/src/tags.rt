//! HMAC-SHA-256: the cases of RFC 4231 whose key has at most 32 bytes; a shorter key is filled with zeros, which is the
//! same HMAC key. AES-CMAC: the examples of RFC 4493.

use crate::bytes::{compare, read};
use anyhow::anyhow;
use authenticator::Authenticator;
use refusal::Refusal;

#[derive(Clone, Copy, Drop)]
struct Case {
    name: &'static str,
    key: &'static str,
    message: &'static str,
    // the tag, or its first bytes where the case truncates it
    tag: &'static str,
}

const HMAC: [Case; 5] = [
    Case {
        name: "HMAC-SHA-256, case 1",
        key: "0b0b0b0b0b0b0b0b0b0b0b0b0b0b0b0b0b0b0b0b",
        message: "4869205468657265",
        tag: "b0344c61d8db38535ca8afceaf0bf12b881dc200c9833da726e9376c2e32cff7",
    },
    Case {
        name: "HMAC-SHA-256, case 2",
        key: "4a656665",
        message: "7768617420646f2079612077616e7420666f72206e6f7468696e673f",
        tag: "5bdcc146bf60754e6a042426089575c75a003f089d2739839dec58b964ec3843",
    },
    Case {
        name: "HMAC-SHA-256, case 3",
        key: "aaaaaaaaaaaaaaaaaaaaaaaaaaaaaaaaaaaaaaaa",
        message: "dddddddddddddddddddddddddddddddddddddddddddddddddddddddddddddddddddddddddddddddddddddddddddddddddddd",
        tag: "773ea91e36800e46854db8ebd09181a72959098b3ef8c122d9635514ced565fe",
    },
    Case {
        name: "HMAC-SHA-256, case 4",
        key: "0102030405060708090a0b0c0d0e0f10111213141516171819",
        message: "cdcdcdcdcdcdcdcdcdcdcdcdcdcdcdcdcdcdcdcdcdcdcdcdcdcdcdcdcdcdcdcdcdcdcdcdcdcdcdcdcdcdcdcdcdcdcdcdcdcd",
        tag: "82558a389a443c0ea4cc819899f2083a85f0faa3e578f8077a2e3ff46729665b",
    },
    Case {
        name: "HMAC-SHA-256, case 5",
        key: "0c0c0c0c0c0c0c0c0c0c0c0c0c0c0c0c0c0c0c0c",
        message: "546573742057697468205472756e636174696f6e",
        tag: "a3b6167473100ee06e0c796c2955552b",
    },
];

const CMAC: [Case; 4] = [
    Case {
        name: "AES-CMAC, example 1",
        key: "2b7e151628aed2a6abf7158809cf4f3c",
        message: "",
        tag: "bb1d6929e95937287fa37d129b756746",
    },
    Case {
        name: "AES-CMAC, example 2",
        key: "2b7e151628aed2a6abf7158809cf4f3c",
        message: "6bc1bee22e409f96e93d7e117393172a",
        tag: "070a16b46b4d4144f79bdd9dd04a287c",
    },
    Case {
        name: "AES-CMAC, example 3",
        key: "2b7e151628aed2a6abf7158809cf4f3c",
        message: "6bc1bee22e409f96e93d7e117393172aae2d8a571e03ac9c9eb76fac45af8e5130c81c46a35ce411",
        tag: "dfa66747de9ae63030ca32611497c827",
    },
    Case {
        name: "AES-CMAC, example 4",
        key: "2b7e151628aed2a6abf7158809cf4f3c",
        message: "6bc1bee22e409f96e93d7e117393172aae2d8a571e03ac9c9eb76fac45af8e5130c81c46a35ce411e5fbc1191a0a52eff69f2445df4f9b17ad2b417be66c3710",
        tag: "51f0bebf7e3b9d92fc49741779363cfe",
    },
];

pub fn run(rt: &HostRuntime) -> anyhow::Result<()> {
    run_cases(rt, &HMAC, 32, |key| hmac::keyed(key, &mut [0; 64]))?;
    run_cases(rt, &CMAC, 16, |key| cmac::keyed(key))
}

// The cases of one authenticator, each under its key, filled with zeros to the length of keys.
fn run_cases<K: Authenticator + Drop, F: Fn(&[u8]) -> Result<K, Refusal>>(
    rt: &HostRuntime,
    cases: &[Case],
    key_len: usize,
    keyed: F,
) -> anyhow::Result<()>
    requires { F.IsAlwaysCallable keyed }
{
    for case in cases {
        let mut key = read(rt, case.key)?;
        key.resize(key_len, 0)?;
        match keyed(key.as_slice()) {
            Ok(mut authenticator) => run_case(rt, &mut authenticator, case)?,
            Err(_) => return Err(anyhow!("the key was refused")),
        }
    }
    Ok(())
}

// The message is fed in two parts, cut in its middle.
fn run_case<K: Authenticator>(
    rt: &HostRuntime,
    authenticator: &mut K,
    case: &Case,
) -> anyhow::Result<()> {
    let message = read(rt, case.message)?;
    let (front, back) = message.as_slice().split_at(message.len() / 2);
    // A buffer for the tag of any authenticator; its front is the tag, or as much of it as the case has.
    let mut out = [0; 32];
    authenticator.feed(front);
    authenticator.feed(back);
    if authenticator.close(&mut out).is_err() {
        return Err(anyhow!("the buffer was refused"));
    }
    compare(
        rt,
        case.name,
        &out[0..(case.tag.len() / 2).min(32)],
        case.tag,
    )
}
