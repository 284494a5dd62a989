//! The lives of the demonstration.

use crate::image::{NEW, OLD, image};
use crate::script::{Cuts, Script};
use authenticator::Authenticator;
use chip::Nor;
use cmac::Cmac;
use commands::Kind;
use hmac::Hmac;
use lifecycle::{Driver, Unbegun, live};
use planner::token;
use std::alloc::{AllocError, Global};
use store::{MemoryStore, Plain, Store};

// The blocks of a store: the control blocks, and two images of two blocks each.
const MEMORY: usize = 8 * 512;

// What a cut at each write of an install leaves, and why no half program can start.
const CUTS: [&str; 5] = [
    "write 1, bEP: torn, but the flag still reads finished, so EP counts",
    "write 2, the flag: torn, so it reads unfinished, and bEP counts",
    "write 3, EP: torn, but the flag reads unfinished, so bEP counts",
    "write 4, the vectors: torn, but the flag reads unfinished, so bEP counts",
    "write 5, the flag: torn, so it reads unfinished, and bEP counts",
];

/// The text of the demonstration.
pub fn demonstrate(heap: Global) -> Result<String, AllocError> {
    let text = String::from_str(
        heap,
        "A board runs version 7; version 8 is staged, offered and installed, and the supply is cut at each of the five\nwrites of the install in turn. After every cut the next start runs one whole program, the right one.\n",
    )?;
    let text = scenes::<Plain>(heap, text, "plain store")?;
    scenes::<Nor>(heap, text, "chip store")
}

// All cuts on a store, under each authenticator.
fn scenes<M: Cuts>(heap: Global, mut text: String, store: &str) -> Result<String, AllocError> {
    for kind in [Kind::Hmac, Kind::Cmac] {
        let name = kind.name();
        text.push_str(format!(in heap; "\n{store}, {name}\n")?.as_str())?;
        for (i, cut) in CUTS.iter().enumerate() {
            // A new authenticator for the board, and one for the planner.
            text = match kind {
                Kind::Hmac => life::<M, Hmac>(heap, text, hmac(), hmac(), i + 1, cut)?,
                Kind::Cmac => life::<M, Cmac>(heap, text, cmac(), cmac(), i + 1, cut)?,
            };
        }
    }
    Ok(text)
}

fn hmac() -> Hmac {
    hmac::keyed(&[0x2B; 32], &mut [0; 64]).unwrap()
}

fn cmac() -> Cmac {
    cmac::keyed(&[0x2B; 16]).unwrap()
}

// One life with its cut.
fn life<M: Cuts, K: Authenticator + Drop>(
    heap: Global,
    text: String,
    board: K,
    mut planner: K,
    cut: usize,
    name: &str,
) -> Result<String, AllocError> {
    let new = image(NEW);
    // A buffer for the tag of any authenticator; its front is the tag.
    let mut tag = [0; 32];
    let _ = token(&mut planner, &new, &mut tag);
    let mut script = Script::begin(heap, text, new, &tag[..K::tag_len().min(32)], cut, name)?;
    let mut memory = [M::BLANK; MEMORY];
    play(heap, MemoryStore::<M>::new(&mut memory), board, &mut script)?;
    script.end(&mut planner)
}

// A life from the factory's load to its end.
fn play<S: Store + Drop, K: Authenticator + Drop, D: Driver<S>>(
    heap: Global,
    store: S,
    board: K,
    driver: &mut D,
) -> Result<(), AllocError> {
    let factory = Vec::from_slice(heap, &image(OLD))?;
    let mut scratch = [0; 512];
    let mut register = [0; 32];
    match live(
        heap,
        store,
        board,
        factory,
        driver,
        &mut scratch,
        &mut register,
    ) {
        Ok((life, ended)) => {
            let _ = life.end();
            ended
        }
        Err(unbegun) => {
            let Unbegun {
                store: _,
                authenticator: _,
                factory: _,
                answer: _,
            } = unbegun;
            Ok(())
        }
    }
}
