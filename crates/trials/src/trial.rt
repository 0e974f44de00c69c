use crate::compare::Difference;
use generator::rng::Rng;
use interpreter::{Ran, work_words};
use reference::interpreter::{Limits, Run, Stop};
use reference::tally::Tally;
use reference::tree::Program;
use std::alloc::Global;

// More steps no run takes, within the turns of a trial.
const STEPS: u32 = 10_000_000;

// What came of a run by both.
#[derive(Clone, Copy)]
pub struct Trial {
    pub ending: Ran,
    pub steps: u64,
    pub tally: Tally,
    pub difference: Option<Difference>,
}

// Limits with so many cells: small and large numbers of calls and turns.
pub fn drawn_limits(rng: &mut Rng, cells: u32) -> Limits {
    // The arms are the weights of the draw.
    let calls = match rng.below(8) {
        0 => rng.below(3),
        1..=3 => rng.below(6).saturating_add(1),
        _ => rng.below(24).saturating_add(8),
    };
    // The arms are the weights of the draw.
    let turns = match rng.below(6) {
        0 => rng.below(4),
        1 => rng.below(40),
        2 => 1000,
        _ => 300,
    };
    Limits {
        cells,
        calls,
        turns: u64::from(turns),
    }
}

// Room for numbers shown: little, or mostly enough.
pub fn drawn_room(rng: &mut Rng) -> usize {
    if rng.once_in(4) {
        rng.below(4) as usize
    } else {
        100
    }
}

// What the host allows a run: its limits, and room for numbers shown.
#[derive(Clone, Copy)]
pub struct Allowed {
    pub limits: Limits,
    pub room: usize,
}

impl Allowed {
    // The fewest work words that a run of so many words needs.
    pub(crate) fn floor(self, words: usize) -> usize {
        work_words(words, self.limits.cells, self.limits.calls)
    }
}

// Runs a program by the interpreter alone.
pub fn run_alone(heap: Global, program: &Program, limits: Limits) -> Stop {
    let mut run = Run::new(program, heap, limits);
    if let Err(stop) = run.start() {
        return stop;
    }
    (0..STEPS)
        .find_map(|_| run.step().err())
        .unwrap_or(Stop::Spent)
}
