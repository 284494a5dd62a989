//! The commands by their words: which files they read, and what they answer.

use crate::words::{Command, USAGE, parse};
use commands::{Failure, Kind, failed, from_hex, token_report, verify_report};
use inspect::{image_text, watch_text};
use layout::{ADDRESSED, NONCE_LEN, Place, is_open};
use planner::Request;
use std::alloc::{AllocError, Global};
use std::fs;
use std::rt::Files;

/// Runs the command that `words` give: what it made, for status 0; or, for status 1, one line that says why not, with the
/// usage where the words are wrong.
pub fn run<R: Files + AllocGlobal>(rt: &R, words: &[String]) -> Result<String, Failure<String>> {
    let heap = rt.alloc();
    match parse(words) {
        Command::Help => Ok(String::from_str(heap, USAGE)?),
        Command::Token {
            kind,
            key_file,
            image_file,
        } => {
            let key = read(rt, key_file)?;
            let image = read(rt, image_file)?;
            token_report(heap, kind, key.as_slice(), image.as_slice())
        }
        Command::Verify {
            kind,
            key_file,
            version,
            nonce,
            confirmation,
        } => verify(rt, kind, key_file, version, nonce, confirmation),
        Command::Image { file, block } => image(rt, file, block),
        Command::Watch {
            file,
            running: None,
        } => watch(rt, file, None),
        Command::Watch {
            file,
            running: Some((block, len)),
        } => match place_of(block, len) {
            Some(place) => watch(rt, file, Some(place)),
            None => failed(format!(in heap; "no image of {len} bytes can lie at block {block}\n")),
        },
        Command::Misused(name) => failed(format!(in heap; "{name} takes other words\n{USAGE}")),
        Command::Unknown(name) => failed(format!(in heap; "there is no command {name}\n{USAGE}")),
    }
}

fn verify<R: Files + AllocGlobal>(
    rt: &R,
    kind: Kind,
    key_file: &str,
    version: &str,
    nonce: &str,
    confirmation: &str,
) -> Result<String, Failure<String>> {
    let heap = rt.alloc();
    let Ok(number) = version.parse::<u16>() else {
        return failed(format!(in heap; "{version} is not a version: a number from 0 to 65535\n"));
    };
    let Some(nonce_bytes) = nonce_of(heap, nonce)? else {
        return failed(format!(in heap; "{nonce} is not a nonce: 16 hex digits\n"));
    };
    let Some(reply) = from_hex(heap, confirmation.as_bytes())? else {
        return failed(format!(in heap;
            "{confirmation} is not a confirmation: hex digits, two a byte\n"
        ));
    };
    let key = read(rt, key_file)?;
    let request = Request::open(number, nonce_bytes);
    verify_report(heap, kind, key.as_slice(), request, reply.as_slice())
}

fn image<R: Files + AllocGlobal>(
    rt: &R,
    file: &str,
    block: &str,
) -> Result<String, Failure<String>> {
    let heap = rt.alloc();
    let Some(first) = block_of(block) else {
        return failed(format!(in heap; "{block} is not a block: a number from 4 to 111\n"));
    };
    let bytes = read(rt, file)?;
    match image_text(heap, bytes.as_slice(), first) {
        Ok(text) => Ok(text),
        Err(failure) => {
            let refusal = failure.cause()?;
            let number = refusal.number();
            failed(format!(in heap; "refusal {number}: {refusal}, or it goes past block 111\n"))
        }
    }
}

fn watch<R: Files + AllocGlobal>(
    rt: &R,
    file: &str,
    running: Option<Place>,
) -> Result<String, Failure<String>> {
    let heap = rt.alloc();
    let trace = match fs::read_to_string(rt, file) {
        Ok(trace) => trace,
        Err(error) => return unread(heap, file, error),
    };
    match watch_text(heap, running, trace.as_str()) {
        Ok(text) => Ok(text),
        Err(failure) => {
            let line = failure.cause()?.line;
            failed(format!(in heap; "line {line} of {file} is not a cycle\n"))
        }
    }
}

// The bytes of a file.
fn read<R: Files + AllocGlobal>(rt: &R, file: &str) -> Result<Vec<u8>, Failure<String>> {
    match fs::read(rt, file) {
        Ok(bytes) => Ok(bytes),
        Err(error) => unread(rt.alloc(), file, error),
    }
}

fn unread<T>(heap: Global, file: &str, error: std::io::Error) -> Result<T, Failure<String>> {
    failed(format!(in heap; "cannot read {file}: {error}\n"))
}

fn block_of(text: &str) -> Option<usize> {
    text.parse::<usize>()
        .ok()
        .filter(|block| is_open(*block, ADDRESSED))
}

fn place_of(block: &str, len: &str) -> Option<Place> {
    Place::new(block_of(block)?, len.parse::<u16>().ok()?, ADDRESSED)
}

fn nonce_of(heap: Global, text: &str) -> Result<Option<[u8; NONCE_LEN]>, AllocError> {
    let Some(bytes) = from_hex(heap, text.as_bytes())? else {
        return Ok(None);
    };
    Ok(<[u8; NONCE_LEN]>::try_from(bytes.as_slice()).ok())
}
