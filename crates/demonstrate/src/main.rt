//! `demonstrate`: prints a changeover that is cut at each of its five writes.

#![tactic(auto)]

use demonstration::demonstrate;

fn main(rt: HostRuntime) -> anyhow::Result<()> {
    let text = demonstrate(rt.alloc())?;
    print!(rt; "{text}")?;
    Ok(())
}
