use crate::compare::Watch;
use crate::trial::{Allowed, Trial};
use anyhow::anyhow;
use interpreter::{Ran, go, go_observed};
use owned::{Judged, judge};
use reference::reader::{Unread, read_program};
use reference::rules::{Rule, keeps_rules};
use reference::tree::Program;
use std::alloc::{AllocError, Global};

// What is said of rows by the reader and the rules here.
#[derive(Drop)]
pub enum Verdict {
    Keeps(Program),
    Breaks(Program, Rule),
    NoProgram,
}

// What `judge` should say.
impl From<&Verdict> for Judged {
    fn from(verdict: &Verdict) -> Judged {
        match verdict {
            Verdict::Keeps(_) => Judged::Keeps,
            Verdict::Breaks(_, _) => Judged::Careless,
            Verdict::NoProgram => Judged::NoProgram,
        }
    }
}

// Rows that are tried, and what is said of them here.
#[derive(Drop)]
pub struct Subject<'a> {
    heap: Global,
    pub rows: &'a [u32],
    pub verdict: Verdict,
}

impl<'a> Subject<'a> {
    pub(crate) fn read(heap: Global, rows: &'a [u32]) -> anyhow::Result<Subject<'a>> {
        let verdict = match read_program(heap, rows) {
            Ok(program) => match keeps_rules(&program) {
                Ok(()) => Verdict::Keeps(program),
                Err(rule) => Verdict::Breaks(program, rule),
            },
            Err(Unread::NoProgram) => Verdict::NoProgram,
            Err(Unread::NoMemory) => return Err(anyhow!("no memory")),
        };
        Ok(Subject {
            heap,
            rows,
            verdict,
        })
    }

    // What is said by `judge`, in so many work words. The crate of tests has the same: neither stands on the other.
    pub(crate) fn judged(&self, words: usize) -> Result<Judged, AllocError> {
        let mut work = vec![in self.heap; 0; words]?;
        Ok(judge(self.rows, work.as_mut_slice()))
    }

    // What is said by `go`, in so many work words.
    pub(crate) fn gone(&self, allowed: Allowed, words: usize) -> Result<Ran, AllocError> {
        let mut work = vec![in self.heap; 0; words]?;
        let mut shown = vec![in self.heap; 0; allowed.room]?;
        Ok(go(
            self.rows,
            allowed.limits.cells,
            allowed.limits.calls,
            allowed.limits.turns,
            shown.as_mut_slice(),
            work.as_mut_slice(),
        ))
    }

    // Runs its program by both, in no more work words than needed, and compares after every step.
    pub(crate) fn run_both(
        &self,
        program: &Program,
        allowed: Allowed,
    ) -> Result<Trial, AllocError> {
        let mut work = vec![in self.heap; 0; allowed.floor(self.rows.len())]?;
        let mut shown = vec![in self.heap; 0; allowed.room]?;
        let mut watch = Watch::start(self.heap, program, allowed)?;
        let ending = go_observed(
            self.rows,
            allowed.limits.cells,
            allowed.limits.calls,
            allowed.limits.turns,
            shown.as_mut_slice(),
            work.as_mut_slice(),
            &mut watch,
        );
        watch.conclude(ending, shown.as_slice());
        Ok(Trial {
            ending,
            steps: watch.steps,
            tally: watch.run.tally,
            difference: watch.difference,
        })
    }

    // Whether `go` ends as the verdict here has it. What keeps the rules is run by both.
    pub(crate) fn ends_so(&self, allowed: Allowed, ending: Ran) -> Result<bool, AllocError> {
        match &self.verdict {
            Verdict::Keeps(program) => {
                let trial = self.run_both(program, allowed)?;
                Ok(trial.ending == ending && trial.difference.is_none())
            }
            Verdict::Breaks(_, _) => Ok(ending == Ran::Unkept),
            Verdict::NoProgram => Ok(ending == Ran::Unread),
        }
    }
}
