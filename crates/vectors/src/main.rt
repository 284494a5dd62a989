//! Published vectors, run through the public calls. Ends with status 1 at the first mismatch.

#![tactic(auto)]

mod bytes;
mod ciphers;
mod controls;
mod hashes;
mod tags;

fn main(rt: HostRuntime) -> anyhow::Result<()> {
    hashes::run(&rt)?;
    ciphers::run(&rt)?;
    tags::run(&rt)?;
    controls::run(&rt)
}
