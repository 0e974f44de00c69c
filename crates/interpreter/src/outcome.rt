ghost use Rattle.std.specs.Prelude.{◌≡◌, ◌+◌, ◌*◌, ◌^◌, ◌-◌, ◌<◌, ◌≤◌, length, min, nat_le};
ghost use Rattle.interpreter.specs.Going.{GoPost, CanGo, Went, stopped_by, ended, named};

use linker::{PROC_WORDS, link};
use machine::{Cells, Halt, Machine, Observer, Tables};
use owned::cells::FreeCells;
use owned::{Judged, enough as is_enough, judge};
use std::fmt;

// How a run came out: the result, how many numbers were shown, the turns left; or why there is none. No Result: the
// project's interface names these ways and their words.
#[derive(Clone, Copy, Debug, PartialEq, Eq)]
pub enum Ran {
    Done(u32, usize, u64),
    Full,
    Spent,
    Deep,
    Unkept,
    Unread,
    OutFull,
    Small,
}

impl Ran {
    // The word for it.
    pub fn name(self) -> &'static str
        ensures { result.now ≡ named self }
    {
        match self {
            Ran::Done(_, _, _) => "done",
            Ran::Full => "full",
            Ran::Spent => "spent",
            Ran::Deep => "deep",
            Ran::Unkept => "unkept",
            Ran::Unread => "unread",
            Ran::OutFull => "out full",
            Ran::Small => "small",
        }
    }
}

impl From<Halt> for Ran {
    ghost from_gives = { λ halt ran. ran ≡ stopped_by halt };

    fn from(halt: Halt) -> Ran {
        match halt {
            Halt::Full => Ran::Full,
            Halt::Spent => Ran::Spent,
            Halt::Deep => Ran::Deep,
        }
    }
}

impl fmt::Display for Ran {
    fn fmt<W: fmt::Write>(&self, f: &mut fmt::Formatter<W>) -> fmt::Result {
        f.write_str(self.name())
    }
}

// Nobody looks.
#[derive(Drop)]
struct Unobserved;

impl Observer for Unobserved {
    fn see(&mut self, _machine: &Machine<'_>) {}
}

// What a run may take: so many cells, so many calls open at once, and so many turns.
#[derive(Clone, Copy)]
struct Limits {
    cells: u32,
    depth: u32,
    turns: u64,
}

// Words of the table of procedures, of which there are at most 64.
const PROC_TABLE: usize = 64 * PROC_WORDS;

// How a run is told that ended so, with so many numbers shown, or too many, and so many turns left.
fn ending(outcome: Result<u32, Halt>, over: bool, count: usize, turns: u64) -> Ran
    ensures { result ≡ ended outcome over count turns }
{
    match outcome {
        Ok(_) if over => Ran::OutFull,
        Ok(result) => Ran::Done(result, count, turns),
        Err(halt) => Ran::from(halt),
    }
}

// Runs a program that keeps the rules. All that the machine has is cut out of the work words: there is no heap.
fn run_kept<O: Observer>(
    program: &[u32],
    limits: Limits,
    shown: &mut [u32],
    work: &mut [u32],
    observer: &mut O,
) -> Ran
    requires { CanGo program.now limits.cells limits.depth (length work.old) }
    ensures { Went program.now limits.cells limits.depth limits.turns shown.old shown.new result }
{
    let (follow, rest) = work.split_at_mut(program.len());
    let (inner, rest) = rest.split_at_mut(program.len());
    let (other, rest) = rest.split_at_mut(program.len());
    let (procs, rest) = rest.split_at_mut(PROC_TABLE);
    let (contents, rest) = rest.split_at_mut(limits.cells as usize);
    let (links, frames) = rest.split_at_mut(limits.cells as usize);
    link(program, follow, inner, other, procs);
    let tables = Tables {
        follow,
        inner,
        other,
        procs,
    };
    let free = FreeCells::new(links, limits.cells);
    let cells = Cells { contents, free };
    let mut machine = Machine {
        rows: program,
        tables,
        cells,
        frames,
        shown,
        count: 0,
        over: false,
        pos: 0,
        kinds: 0,
        base: 0,
        procedure: 0,
        depth: limits.depth,
        turns: limits.turns,
    };
    let budget = u128::from(limits.turns) * (program.len() as u128 + 1) + 1;
    let outcome = machine.run(budget, observer);
    let ran = ending(outcome, machine.over, machine.count, machine.turns);
    // The words for numbers shown go back to who lent them.
    let _shown = machine.shown;
    ran
}

// Words that running asks for beyond judging: 2 for each cell and 512 for each open call.
fn run_words(cells: u32, depth: u32) -> usize
    ensures { result ≡ 2 * cells + 512 * depth }
{
    2 * cells as usize + 512 * depth as usize
}

// Whether there are enough work words for judging and running.
fn enough(words: usize, limits: Limits, work: usize) -> bool
    ensures { result ≡ nat_le (8192 + 4 * words + (2 * limits.cells + 512 * limits.depth)) work }
{
    let run = run_words(limits.cells, limits.depth);
    work >= run && is_enough(words, work - run)
}

// The work words that running so many words asks for, on so many cells and with so many open calls; the most that
// there can be where these would be more.
pub fn work_words(words: usize, cells: u32, depth: u32) -> usize
    ensures { result ≡ min (8192 + 4 * words + (2 * cells + 512 * depth)) (2 ^ 64 - 1) }
{
    words
        .saturating_mul(4)
        .saturating_add(8192 + run_words(cells, depth))
}

// Runs a program that keeps the rules, on so many cells, with so many calls open at once and so many turns. The limits
// are single parameters, as the project's interface has them.
pub fn go(
    program: &[u32],
    cells: u32,
    depth: u32,
    turns: u64,
    shown: &mut [u32],
    work: &mut [u32],
) -> Ran
    ensures { GoPost program.now cells depth turns shown.old shown.new (length work.old) result }
{
    go_observed(program, cells, depth, turns, shown, work, &mut Unobserved)
}

// The same, with someone who looks at the machine after each step.
pub fn go_observed<O: Observer>(
    program: &[u32],
    cells: u32,
    depth: u32,
    turns: u64,
    shown: &mut [u32],
    work: &mut [u32],
    observer: &mut O,
) -> Ran
    ensures { GoPost program.now cells depth turns shown.old shown.new (length work.old) result }
{
    let limits = Limits {
        cells,
        depth,
        turns,
    };
    if !enough(program.len(), limits, work.len()) {
        return Ran::Small;
    }
    match judge(program, work) {
        Judged::Keeps => run_kept(program, limits, shown, work, observer),
        Judged::Careless => Ran::Unkept,
        Judged::NoProgram | Judged::Few => Ran::Unread,
    }
}
