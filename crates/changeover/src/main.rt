//! `changeover`: the planner's commands. What is printed of a failure goes to standard error.

#![tactic(auto)]

use anyhow::anyhow;
use commands::Failure;
use dispatch::run;
use std::env;

fn main(rt: HostRuntime) -> anyhow::Result<()> {
    let words: Vec<String> = env::args(&rt)?.skip(1).collect(rt.alloc())?;
    match run(&rt, words.as_slice()) {
        Ok(text) => print!(rt; "{text}")?,
        Err(Failure::Cause(text)) => {
            eprint!(rt; "changeover: {text}")?;
            return Err(anyhow!("failed"));
        }
        Err(Failure::Memory(e)) => return Err(e.into()),
    }
    Ok(())
}
