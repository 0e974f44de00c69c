#![tactic(auto)]

use anyhow::Context;
use input::parse_numbers;
use owned::{MAX_WORDS, judge};
use std::io::{BufRead, BufReader};

// Enough work words for 256 words of a program: of a longer one is said that they are few.
const WORK_WORDS: usize = 8192 + 4 * 256;

// What is said of the program in a line of numbers.
fn verdict(rt: &HostRuntime, rows: &str) -> anyhow::Result<&'static str> {
    let program = parse_numbers(rt.alloc(), rows.as_bytes(), MAX_WORDS)?;
    let mut work = [0; WORK_WORDS];
    Ok(judge(program.as_slice(), &mut work).name())
}

// Judges a program for each line, LABEL: ROWS, and says whether the label begins with the verdict.
fn main(rt: HostRuntime) -> anyhow::Result<()> {
    let mut met = 0u32;
    for line in BufReader::new(rt.alloc(), rt.stdin())?.lines(rt.alloc()) {
        let line = line?;
        let (label, rows) = line
            .as_str()
            .split_once(':')
            .context("a line has no label")?;
        let says = verdict(&rt, rows)?;
        if label.starts_with(says) {
            met = met.saturating_add(1);
            println!(rt; "{label}")?;
        } else {
            println!(rt; "{label}: BUT {says}")?;
        }
    }
    println!(rt; "{met} as expected")?;
    Ok(())
}
