#![tactic(auto)]

use input::read_numbers;
use owned::{Judged, MAX_WORDS, WORK_WORDS, judge};

// How many words are judged in all, so that a run takes long beside its start.
const TOTAL: usize = 1 << 24;

// Judges the program on standard input again and again. tools/judge-time measures how long that takes.
fn main(rt: HostRuntime) -> anyhow::Result<()> {
    let rows = read_numbers(rt.alloc(), &mut rt.stdin(), MAX_WORDS)?;
    let mut work = vec![in rt.alloc(); 0; WORK_WORDS]?;
    let times = TOTAL / rows.len().max(1);
    let kept = (0..times)
        .filter(|_| judge(rows.as_slice(), work.as_mut_slice()) == Judged::Keeps)
        .count();
    println!(rt; "{kept} times of {times} it keeps the rules")?;
    Ok(())
}
