//! Reads a job on standard input, a call a line, and reports what was found.

#![tactic(auto)]

use calls::line::content;
use job::report::{Counts, Report};
use job::supply::{MOST, Supply};
use std::io::{BufRead, BufReader, Write};

fn run(rt: &HostRuntime) -> anyhow::Result<()> {
    let heap = rt.alloc();
    let mut input = BufReader::new(heap, rt.stdin())?;
    let mut output = rt.stdout();
    let mut counts = Counts::default();
    let mut line = Vec::new(heap);
    let mut report = Report::new(heap);
    let mut supply = Supply::new(heap, MOST, MOST)?;
    for number in 1..u64::MAX {
        line.clear();
        if input.read_until(b'\n', &mut line)? == 0 {
            break;
        }
        let came = report.put_line(&mut supply, number, content(line.as_slice()))?;
        counts = counts.with(came);
        output.write_all(report.as_bytes())?;
        report.clear();
    }
    report.put_counts(counts)?;
    output.write_all(report.as_bytes())?;
    Ok(())
}

fn main(rt: HostRuntime) -> anyhow::Result<()> {
    run(&rt)
}
