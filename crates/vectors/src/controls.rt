//! The check of the control blocks: the published check value of its CRC, and blocks that another tool made (data/).

use crate::bytes::compare;
use anyhow::anyhow;
use commands::push_hex;
use control::{Flag, crc16, form_flag, form_pointer, form_vectors};
use layout::Place;
use refusal::Refusal;
use std::fs;

const VECTORS: [u8; 32] = [
    0, 5, 10, 15, 20, 25, 30, 35, 40, 45, 50, 55, 60, 65, 70, 75, 80, 85, 90, 95, 100, 105, 110,
    115, 120, 125, 130, 135, 140, 145, 150, 155,
];

pub fn run(rt: &HostRuntime) -> anyhow::Result<()> {
    compare(
        rt,
        "CRC, 123456789",
        &crc16(b"123456789").to_be_bytes(),
        "29b1",
    )?;
    let mut block = [0; 512];
    let formed = pointer(4, 46, &mut block);
    compare_block(rt, "pointer.block", formed, &block)?;
    let formed = pointer(6, 600, &mut block);
    compare_block(rt, "buffer_pointer.block", formed, &block)?;
    let formed = form_vectors(&VECTORS, &mut block);
    compare_block(rt, "vectors.block", formed, &block)?;
    let formed = form_flag(Flag::Finished, &mut block);
    compare_block(rt, "finished.block", formed, &block)?;
    let formed = form_flag(Flag::Unfinished, &mut block);
    compare_block(rt, "unfinished.block", formed, &block)
}

fn pointer(first: usize, len: u16, block: &mut [u8]) -> Result<(), Refusal> {
    match Place::new(first, len, 16) {
        Some(place) => form_pointer(place, block),
        None => Err(Refusal::BadImage),
    }
}

fn compare_block(
    rt: &HostRuntime,
    file: &str,
    formed: Result<(), Refusal>,
    block: &[u8],
) -> anyhow::Result<()> {
    if formed.is_err() {
        return Err(anyhow!("a block was refused"));
    }
    let bytes = fs::read(rt, file)?;
    let mut expected = String::new(rt.alloc());
    push_hex(&mut expected, bytes.as_slice())?;
    compare(rt, file, block, expected.as_str())
}
