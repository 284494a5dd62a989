//! How long the tag of one part of 50,000 bytes takes. The time goes to standard error, so that what standard output has
//! is the same in every run.

#![tactic(auto)]

use anyhow::anyhow;
use authenticator::Authenticator;
use commands::push_hex;
use std::time::Instant;

const PART: usize = 50_000;

const RUNS: u32 = 200;

fn main(rt: HostRuntime) -> anyhow::Result<()> {
    let part: Vec<u8> = (0..PART).map(|i| (i % 251) as u8).collect(rt.alloc())?;
    let Ok(mut hmac) = hmac::keyed(&[0x5a; 32], &mut [0; 64]) else {
        return Err(anyhow!("the key was refused"));
    };
    measure(&rt, "HMAC-SHA-256", &mut hmac, part.as_slice())?;
    let Ok(mut cmac) = cmac::keyed(&[0x5a; 16]) else {
        return Err(anyhow!("the key was refused"));
    };
    measure(&rt, "AES-CMAC", &mut cmac, part.as_slice())
}

// The best of several runs.
fn measure<K: Authenticator>(
    rt: &HostRuntime,
    name: &str,
    authenticator: &mut K,
    part: &[u8],
) -> anyhow::Result<()> {
    let (mut best, tag) = once(rt, authenticator, part)?;
    for _ in 0..RUNS {
        let (nanos, _) = once(rt, authenticator, part)?;
        best = best.min(nanos);
    }
    let bytes = part.len();
    let mut text = String::new(rt.alloc());
    // The front of a buffer for the tag of any authenticator.
    push_hex(&mut text, &tag[..K::tag_len()])?;
    eprintln!(rt; "{name}: {bytes} bytes in {best} ns")?;
    println!(rt; "{name}: {bytes} bytes, tag {text}")?;
    Ok(())
}

fn once<K: Authenticator>(
    rt: &HostRuntime,
    authenticator: &mut K,
    part: &[u8],
) -> anyhow::Result<(u128, [u8; 32])> {
    let mut out = [0; 32];
    let start = Instant::now(rt)?;
    authenticator.open();
    authenticator.feed(part);
    let closed = authenticator.close(&mut out);
    let nanos = start.elapsed(rt)?.as_nanos();
    if closed.is_err() {
        return Err(anyhow!("the buffer was refused"));
    }
    Ok((nanos, out))
}
