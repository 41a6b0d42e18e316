//! Reads parts of loaded values, to be timed. Each line of standard input says what to read, of how many parts the value
//! is, and how many reads are made; the answer is that line and the sum of what was read. The program itself has no
//! clock, so it says the same each time: tools/bench.py times it.

#![tactic(auto)]

use anyhow::Context;
use reads::{Way, read};
use samples::packed::{packed_list, packed_map};
use std::io::{BufRead, BufReader};
use store::cell::Cell;

mod reads;

/// The most cells and bytes that a store uses.
const MOST: usize = 65_535;

fn run(rt: &HostRuntime) -> anyhow::Result<()> {
    let heap = rt.alloc();
    let mut cells = vec![in heap; Cell::EmptyList; MOST]?;
    let mut text = vec![in heap; 0u8; MOST]?;
    let input = BufReader::new(heap, rt.stdin())?;
    for line in input.lines(heap) {
        let line = line?;
        let mut words = line.split(' ');
        let way = Way::of_name(words.next().context("a line is empty")?).context("no such way")?;
        let parts: u16 = words
            .next()
            .context("the number of parts is missing")?
            .parse()?;
        let count: u64 = words
            .next()
            .context("the number of reads is missing")?
            .parse()?;
        let packed = if way.is_of_map() {
            packed_map(heap, parts)?
        } else {
            packed_list(heap, parts)?
        };
        let sum = read(
            cells.as_mut_slice(),
            text.as_mut_slice(),
            packed.as_slice(),
            way,
            parts,
            count,
        );
        println!(rt; "{line}: {sum}")?;
    }
    Ok(())
}

fn main(rt: HostRuntime) -> anyhow::Result<()> {
    run(&rt)
}
