use crate::endings::Endings;
use crate::trial::Trial;
use reference::boxes::Fault;
use reference::interpreter::Stop;
use reference::rules::Rule;
use reference::tally::Tally;

// How often a rule was broken, and what came of it.
#[derive(Clone, Copy, Debug, Default)]
pub struct Broken {
    pub programs: u32,
    pub faults: u32,
}

// What the trials came to. Rules and faults are counted each in the order of its enum, in arrays and no maps, since
// counting may not run out of memory.
#[derive(Clone, Copy, Default)]
pub struct Counts {
    pub kept: u32,
    pub careless: u32,
    pub runs: u32,
    pub steps: u64,
    pub tally: Tally,
    pub endings: Endings,
    pub broken: [Broken; Rule::ALL.len()],
    pub faults: [u32; Fault::ALL.len()],
    pub differences: u32,
}

fn bump(count: &mut u32) {
    *count = count.saturating_add(1);
}

impl Counts {
    pub(crate) fn keep(&mut self) {
        bump(&mut self.kept);
    }

    pub fn differ(&mut self) {
        bump(&mut self.differences);
    }

    pub fn add(&mut self, trial: &Trial) {
        bump(&mut self.runs);
        self.steps = self.steps.saturating_add(trial.steps);
        self.tally.add(&trial.tally);
        self.endings.count(trial.ending);
    }

    // A program that breaks a rule, and how its run stopped.
    pub fn add_careless(&mut self, rule: Rule, stop: Stop) {
        bump(&mut self.careless);
        if let Some(broken) = self.broken.get_mut(rule as usize) {
            bump(&mut broken.programs);
            if let Stop::Faulted(_) = stop {
                bump(&mut broken.faults);
            }
        }
        if let Stop::Faulted(fault) = stop
            && let Some(count) = self.faults.get_mut(fault as usize)
        {
            bump(count);
        }
    }
}
