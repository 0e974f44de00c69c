#![tactic(auto)]

mod compare;
mod count;
mod endings;
mod memory;
mod owners;
mod report;
mod subject;
mod trial;

use count::Counts;
use generator::damage::damaged;
use generator::draft::{Draft, generate};
use generator::limits::{AT_LIMITS, rows_at_limit};
use generator::rng::Rng;
use interpreter::{Ran, work_words};
use owned::Judged;
use reference::interpreter::Limits;
use reference::rules::Rule;
use reference::tree::Program;
use subject::{Subject, Verdict};
use trial::{Allowed, drawn_limits, drawn_room, run_alone};

const PROGRAMS: u32 = 500;

const CELLS: u32 = 20;

const DAMAGED: u32 = 2000;

// Room for numbers shown by damaged programs.
const ROOM: usize = 100;

// What the careless may use.
const CARELESS: Limits = Limits {
    cells: 1000,
    calls: 100,
    turns: 3000,
};

// The rule that a program is to break: every second program breaks one, each in its turn.
fn wanted(seed: u32) -> Option<Rule> {
    if seed % 2 == 0 {
        return None;
    }
    Some(Rule::ALL[seed as usize / 2 % Rule::ALL.len()])
}

// Trials of one sort, and what they came to.
#[derive(Drop)]
struct Trials<'a> {
    rt: &'a HostRuntime,
    counts: Counts,
}

impl<'a> Trials<'a> {
    fn new(rt: &'a HostRuntime) -> Trials<'a> {
        Trials {
            rt,
            counts: Counts::default(),
        }
    }

    // Runs a program that keeps the rules with all numbers of cells.
    fn try_kept(&mut self, seed: u32, subject: &Subject, program: &Program) -> anyhow::Result<()> {
        let rt = self.rt;
        let mut rng = Rng::new(seed.wrapping_add(PROGRAMS));
        self.counts.keep();
        for cells in 0..=CELLS {
            let allowed = Allowed {
                limits: drawn_limits(&mut rng, cells),
                room: drawn_room(&mut rng),
            };
            let trial = subject.run_both(program, allowed)?;
            self.counts.add(&trial);
            if let Some(difference) = trial.difference {
                self.counts.differ();
                let step = trial.steps;
                println!(rt; "seed {seed}, {cells} cells: {difference:?} differs at step {step}")?;
            }
        }
        Ok(())
    }

    // Runs a program made for a seed. Gives the rule that it breaks, if it does.
    fn try_verdict(&mut self, seed: u32, subject: &Subject) -> anyhow::Result<Option<Rule>> {
        let rt = self.rt;
        match &subject.verdict {
            Verdict::Keeps(program) => {
                self.try_kept(seed, subject, program)?;
                Ok(None)
            }
            Verdict::Breaks(program, rule) => {
                let stop = run_alone(rt.alloc(), program, CARELESS);
                self.counts.add_careless(*rule, stop);
                Ok(Some(*rule))
            }
            Verdict::NoProgram => {
                println!(rt; "seed {seed}: no program")?;
                Ok(Some(Rule::NoFirst))
            }
        }
    }

    // A program made for a seed, judged by both and run.
    fn try_program(&mut self, seed: u32, draft: &Draft) -> anyhow::Result<()> {
        let rt = self.rt;
        let subject = Subject::read(rt.alloc(), draft.rows.as_slice())?;
        let enough = work_words(subject.rows.len(), 0, 0);
        if subject.judged(enough)? != Judged::from(&subject.verdict) {
            self.counts.differ();
            println!(rt; "seed {seed}: judged otherwise")?;
        }
        if self.try_verdict(seed, &subject)? != draft.broken {
            self.counts.differ();
            println!(rt; "seed {seed}: another rule is broken")?;
        }
        Ok(())
    }

    // Rows with exactly the work words that are needed, and with one fewer.
    fn try_rows(&mut self, number: u32, rows: &[u32]) -> anyhow::Result<()> {
        let rt = self.rt;
        let mut rng = Rng::new(number.wrapping_add(9000));
        let cells = rng.below(CELLS.saturating_add(1));
        let allowed = Allowed {
            limits: drawn_limits(&mut rng, cells),
            room: ROOM,
        };
        let subject = Subject::read(rt.alloc(), rows)?;
        let enough = work_words(rows.len(), 0, 0);
        let needed = allowed.floor(rows.len());
        let ending = subject.gone(allowed, needed)?;
        self.counts.endings.count(ending);
        let same = subject.judged(enough)? == Judged::from(&subject.verdict)
            && subject.judged(enough.saturating_sub(1))? == Judged::Few
            && subject.gone(allowed, needed.saturating_sub(1))? == Ran::Small
            && subject.ends_so(allowed, ending)?;
        if !same {
            self.counts.differ();
            println!(rt; "rows {number}: answered otherwise")?;
        }
        Ok(())
    }

    // Rows damaged, each time in its own way.
    fn try_damaged(&mut self, seed: u32, rows: &[u32]) -> anyhow::Result<()> {
        for turn in 0..DAMAGED / PROGRAMS {
            let number = seed.wrapping_mul(DAMAGED / PROGRAMS).wrapping_add(turn);
            let mut rng = Rng::new(number.wrapping_add(1000));
            let bad = damaged(&mut rng, self.rt.alloc(), rows)?;
            self.try_rows(number, bad.as_slice())?;
        }
        Ok(())
    }
}

fn main(rt: HostRuntime) -> anyhow::Result<()> {
    let heap = rt.alloc();
    let mut programs = Trials::new(&rt);
    let mut bad = Trials::new(&rt);
    let mut limits = Trials::new(&rt);
    for seed in 0..PROGRAMS {
        let draft = generate(heap, seed, wanted(seed))?;
        programs.try_program(seed, &draft)?;
        bad.try_damaged(seed, draft.rows.as_slice())?;
    }
    for number in 0..AT_LIMITS {
        let rows = rows_at_limit(heap, number)?;
        limits.try_rows(number.wrapping_add(DAMAGED), rows.as_slice())?;
    }
    programs.print_programs(PROGRAMS)?;
    bad.print_answers("answers to damaged rows")?;
    limits.print_answers("answers to rows at limits")?;
    let differences = [programs, bad, limits]
        .iter()
        .map(|trials| trials.counts.differences)
        .fold(0u32, |sum, more| sum.saturating_add(more));
    println!(rt; "\n{differences} differences")?;
    Ok(())
}
