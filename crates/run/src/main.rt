#![tactic(auto)]

use anyhow::anyhow;
use input::{Exit, read_numbers};
use interpreter::{Ran, go, work_words};
use options::{Options, Parser, Request};
use owned::MAX_WORDS;
use std::env;

const USAGE: &str = "usage: run [--cells N] [--depth N] [--turns N] < ROWS

Runs the program that the rows are: decimal numbers, separated by white space, on standard input.

  --cells N   boxes that there may be at once: 1000 if not said, at most 50000
  --depth N   calls that may be open at once: 1000 if not said, at most 1250
  --turns N   calls and turns of loops: 1000000000 if not said, at most 1000000000000000000
  --help      says this

Each number that the program shows is written on a line of its own, and then one line:

  done RESULT, LEFT turns left   the program ended
  full                           a box was to be made and no cell is free
  spent                          no turn is left
  deep                           a call was to be made and as many are open as may be
  out full                       the program ended and showed more than 16384 numbers
  unkept                         the program breaks an ownership rule, and was not run
  unread                         the rows are no program

Numbers are written only after a run that is done. The status is 0 after each of these lines. Bad options and words
that are no numbers are reported on standard error, and the status is 1.";

// How many numbers may be shown.
const ROOM: usize = 16_384;

// What the words after the program's name ask for.
fn request(rt: &HostRuntime) -> anyhow::Result<Request> {
    let mut parser = Parser::new();
    let mut count = 0;
    for (at, word) in (1u64..).zip(env::args(rt)?.skip(1)) {
        parser = parser
            .take(word.as_str())
            .map_err(|slip| anyhow!("word {at}: {slip}: '{word}'"))?;
        count = at;
    }
    parser
        .finish()
        .map_err(|slip| anyhow!("word {count}: {slip}"))
}

// Writes what was shown, and how the run ended.
fn report(rt: &HostRuntime, ran: Ran, shown: &[u32]) -> anyhow::Result<()> {
    let Ran::Done(result, count, left) = ran else {
        println!(rt; "{ran}")?;
        return Ok(());
    };
    for number in shown.iter().take(count) {
        println!(rt; "{number}")?;
    }
    println!(rt; "done {result}, {left} turns left")?;
    Ok(())
}

// Runs the rows on standard input.
fn run_input(rt: &HostRuntime, options: Options) -> anyhow::Result<()> {
    let rows = read_numbers(rt.alloc(), &mut rt.stdin(), MAX_WORDS)?;
    let mut work = vec![in rt.alloc(); 0; work_words(rows.len(), options.cells, options.depth)]?;
    let mut shown = vec![in rt.alloc(); 0; ROOM]?;
    let ran = go(
        rows.as_slice(),
        options.cells,
        options.depth,
        options.turns,
        shown.as_mut_slice(),
        work.as_mut_slice(),
    );
    report(rt, ran, shown.as_slice())
}

fn answer(rt: &HostRuntime) -> anyhow::Result<()> {
    match request(rt)? {
        Request::Usage => println!(rt; "{USAGE}")?,
        Request::Run(options) => run_input(rt, options)?,
    }
    Ok(())
}

fn main(rt: HostRuntime) -> Exit {
    Exit {
        program: "run",
        outcome: answer(&rt),
    }
}
