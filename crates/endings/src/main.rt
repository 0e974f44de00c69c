#![tactic(auto)]

use anyhow::{Context, bail, ensure};
use input::parse_numbers;
use interpreter::{Ran, go, work_words};
use owned::MAX_WORDS;
use std::io::{BufRead, BufReader};

// The most that a line may ask for, so that its memory fits.
const MOST: u32 = 1_000;

// A line, ENDING; WHAT: LIMITS: ROWS.
#[derive(Clone, Copy)]
struct Case<'a> {
    label: &'a str,
    expected: &'a str,
    limits: &'a str,
    rows: &'a str,
}

impl<'a> Case<'a> {
    fn parse(line: &'a str) -> anyhow::Result<Case<'a>> {
        let (label, rest) = line.split_once(':').context("a line has no label")?;
        let (expected, _) = label.split_once(';').context("a line has no ending")?;
        let (limits, rows) = rest.split_once(':').context("a line has no limits")?;
        Ok(Case {
            label,
            expected,
            limits,
            rows,
        })
    }
}

// How a run ended, with the numbers shown.
fn told(rt: &HostRuntime, ran: Ran, shown: &[u32]) -> anyhow::Result<String> {
    let Ran::Done(result, count, left) = ran else {
        return Ok(String::from_str(rt.alloc(), ran.name())?);
    };
    let mut says = format!(in rt.alloc(); "done {result}, {left} left")?;
    if count > 0 {
        says.push_str(", showing")?;
    }
    for number in shown.iter().take(count) {
        write!(says, " {number}")?;
    }
    Ok(says)
}

// How a program ends under limits: cells, open calls, turns and room for numbers. It has no more work words than it needs.
fn ending(rt: &HostRuntime, limits: &[u32], program: &[u32]) -> anyhow::Result<String> {
    let [cells, depth, turns, room] = *limits else {
        bail!("a line has no four limits");
    };
    ensure!(
        cells <= MOST && depth <= MOST && room <= MOST && program.len() <= MAX_WORDS,
        "a line asks for too much"
    );
    let mut work = vec![in rt.alloc(); 0; work_words(program.len(), cells, depth)]?;
    let mut shown = vec![in rt.alloc(); 0; room as usize]?;
    let ran = go(
        program,
        cells,
        depth,
        u64::from(turns),
        shown.as_mut_slice(),
        work.as_mut_slice(),
    );
    told(rt, ran, shown.as_slice())
}

// Runs a program for each line, and says whether it ends so.
fn main(rt: HostRuntime) -> anyhow::Result<()> {
    let mut met = 0u32;
    for line in BufReader::new(rt.alloc(), rt.stdin())?.lines(rt.alloc()) {
        let line = line?;
        let case = Case::parse(line.as_str())?;
        let label = case.label;
        let limits = parse_numbers(rt.alloc(), case.limits.as_bytes(), MAX_WORDS)?;
        let program = parse_numbers(rt.alloc(), case.rows.as_bytes(), MAX_WORDS)?;
        let says = ending(&rt, limits.as_slice(), program.as_slice())?;
        if says.as_str() == case.expected {
            met = met.saturating_add(1);
            println!(rt; "{label}")?;
        } else {
            println!(rt; "{label}: BUT {says}")?;
        }
    }
    println!(rt; "{met} as expected")?;
    Ok(())
}
