//! Cuts the supply of each store at every point of its plan, and prints what the blocks held after waking it. Ends
//! with status 1 at the first mismatch.

#![tactic(auto)]

mod scene;
mod sweep;
mod trial;

use chip::Nor;
use store::{CutPlan, Plain, Residue};
use sweep::{View, sweep};
use trial::Tally;

const RESIDUES: [(&str, Residue); 3] = [
    ("plain, cut leaves old", Residue::Old),
    ("plain, cut leaves new", Residue::New),
    ("plain, cut leaves a5", Residue::Repeated(0xa5)),
];

const VIEWS: [View; 2] = [View::Whole, View::Window];

fn main(rt: HostRuntime) -> anyhow::Result<()> {
    println!(rt;
        "{:<36} {:>5} {:>5} {:>5} {:>5}",
        "store", "cuts", "old", "new", "other"
    )?;
    for (name, leaves) in RESIDUES {
        for view in VIEWS {
            let tally = sweep::<Plain, _>(|writes| CutPlan { writes, leaves }, view)?;
            print(rt, name, view, tally)?;
        }
    }
    for view in VIEWS {
        print(
            rt,
            "chip",
            view,
            sweep::<Nor, _>(|operations| operations, view)?,
        )?;
    }
    Ok(())
}

fn print(rt: HostRuntime, name: &str, view: View, tally: Tally) -> anyhow::Result<()> {
    let label = format!(in rt.alloc(); "{name}{view}")?;
    println!(rt;
        "{label:<36} {:>5} {:>5} {:>5} {:>5}",
        tally.cuts, tally.old, tally.new, tally.other
    )?;
    Ok(())
}
