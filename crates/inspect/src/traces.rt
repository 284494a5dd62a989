//! A trace of the bus, judged cycle by cycle.

use commands::Failure;
use layout::Place;
use std::alloc::Global;
use watch::{Cycle, Watch};

/// A line of a trace that is no cycle, by its number from 1.
#[derive(Clone, Copy, PartialEq, Eq, Debug, Drop)]
pub struct Unreadable {
    pub line: usize,
}

/// A line for each cycle of `trace`: its PC, the verdict, the state after it, and the first rule that it breaks. The watch
/// begins in reset, while `running` runs. Empty lines are skipped.
pub fn watch_text(
    heap: Global,
    running: Option<Place>,
    trace: &str,
) -> Result<String, Failure<Unreadable>> {
    let mut text = String::new(heap);
    let mut state = Watch::Reset;
    for (i, line) in trace.lines().enumerate() {
        if line.trim().is_empty() {
            continue;
        }
        let Some(cycle) = read_cycle(line) else {
            return Err(Failure::Cause(Unreadable {
                line: i.saturating_add(1),
            }));
        };
        let (verdict, next) = state.step(running, cycle);
        let pc = cycle.pc;
        let told = match state.broken(running, cycle) {
            Some(rule) => format!(in heap; "{pc} {verdict} {next} {rule}\n")?,
            None => format!(in heap; "{pc} {verdict} {next}\n")?,
        };
        text.push_str(told.as_str())?;
        state = next;
    }
    Ok(text)
}

// A cycle from its words: the PC, then `w ADDRESS`, `d ADDRESS` and `i`, as they apply.
fn read_cycle(line: &str) -> Option<Cycle> {
    let mut words = line.split_whitespace();
    let mut cycle = Cycle {
        pc: words.next()?.parse::<u16>().ok()?,
        write_at: None,
        dma_at: None,
        interrupt: false,
    };
    while let Some(word) = words.next() {
        match word {
            "w" => cycle.write_at = Some(words.next()?.parse::<u16>().ok()?),
            "d" => cycle.dma_at = Some(words.next()?.parse::<u16>().ok()?),
            "i" => cycle.interrupt = true,
            _ => return None,
        }
    }
    Some(cycle)
}
