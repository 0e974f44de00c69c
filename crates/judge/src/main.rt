#![tactic(auto)]

use input::{Exit, read_numbers};
use owned::{MAX_WORDS, WORK_WORDS, judge};

// Reads rows from standard input and says whether they are a program that keeps the rules.
fn judge_input(rt: &HostRuntime) -> anyhow::Result<()> {
    let rows = read_numbers(rt.alloc(), &mut rt.stdin(), MAX_WORDS)?;
    let mut work = vec![in rt.alloc(); 0; WORK_WORDS]?;
    let says = judge(rows.as_slice(), work.as_mut_slice());
    println!(rt; "{says}")?;
    Ok(())
}

fn main(rt: HostRuntime) -> Exit {
    Exit {
        program: "judge",
        outcome: judge_input(&rt),
    }
}
