use crate::memory::free_cells;
use crate::owners::Owners;
use crate::trial::Allowed;
use interpreter::{Machine, Observer, Ran};
use reference::boxes::{Fault, Name, Value};
use reference::interpreter::{Frame, Run, Stop};
use reference::tree::Program;
use std::alloc::{AllocError, Global};

// Words of a frame, and of its variables.
const FRAME: usize = 40;

const VARIABLES: usize = 32;

// What the machine and the interpreter differ in.
#[derive(Clone, Copy, PartialEq, Eq, Debug)]
pub enum Difference {
    Place,
    Calls,
    Variable,
    Caller,
    Cells,
    Shown,
    Turns,
    Ending,
}

// A variable of the machine leads to a box that is not there.
impl From<Fault> for Difference {
    fn from(_fault: Fault) -> Difference {
        Difference::Variable
    }
}

fn ensure(same: bool, difference: Difference) -> Result<(), Difference> {
    if same { Ok(()) } else { Err(difference) }
}

// The machine and the interpreter after the same step, and what the machine's cells were found to be.
#[derive(Drop)]
struct Step<'s, 'm, 'r> {
    machine: &'s Machine<'m>,
    program: &'r Program,
    run: &'s Run<'r>,
    owners: &'s mut Owners,
    allowed: Allowed,
}

impl<'s, 'm, 'r> Step<'s, 'm, 'r> {
    // Whether the machine goes on where a procedure does, or is at its end.
    fn is_at(&self, at: usize, frame: &Frame) -> bool {
        match self.run.place(frame) {
            Some(place) => at == place,
            None => at >= self.machine.rows.len(),
        }
    }

    // A word of the machine and a value of a kind are the same, down to the number.
    fn value(&mut self, kind: u32, word: u32, value: Value) -> Result<(), Difference> {
        let machine = self.machine;
        let mut word = word;
        let mut value = value;
        for _ in 0..kind {
            if value == Value::Empty {
                return ensure(word == 0, Difference::Variable);
            }
            let cell = word.checked_sub(1).ok_or(Difference::Variable)?;
            let noted = self.owners.note(cell, Name::try_from(value)?);
            ensure(noted, Difference::Variable)?;
            let inner = machine.cells.contents.get(cell as usize);
            word = *inner.ok_or(Difference::Variable)?;
            value = self.run.boxes.open(value)?;
        }
        ensure(value == Value::Number(word), Difference::Variable)
    }

    // The variables of an open procedure, whose words begin here.
    fn variables(&mut self, frame: &Frame, base: usize) -> Result<(), Difference> {
        let machine = self.machine;
        let procedure = self.program.procedures.get(frame.procedure as usize);
        let kinds = &procedure.ok_or(Difference::Variable)?.signature.kinds;
        ensure(frame.variables.len() == kinds.len(), Difference::Variable)?;
        let held = kinds.iter().zip(frame.variables.iter());
        for (at, (kind, value)) in (base..).zip(held) {
            let word = *machine.frames.get(at).ok_or(Difference::Variable)?;
            self.value(*kind, word, *value)?;
        }
        Ok(())
    }

    // Where a caller goes on, its number, and where the result goes.
    fn control(&self, frame: &Frame, base: usize) -> Result<(), Difference> {
        let machine = self.machine;
        let first = base.saturating_add(VARIABLES);
        let at = *machine.frames.get(first).ok_or(Difference::Caller)?;
        let procedure = machine.frames.get(first.saturating_add(1));
        let into = machine.frames.get(first.saturating_add(2));
        let same = self.is_at(at as usize, frame)
            && procedure == Some(&frame.procedure)
            && into == Some(&frame.into.0);
        ensure(same, Difference::Caller)
    }

    fn callers(&mut self) -> Result<(), Difference> {
        let run = self.run;
        for (base, frame) in (FRAME..).step_by(FRAME).zip(run.callers.iter()) {
            let same = self.variables(frame, base);
            same.map_err(|_| Difference::Caller)?;
            self.control(frame, base)?;
        }
        let end = FRAME.saturating_mul(run.open_calls());
        ensure(self.machine.base == end, Difference::Caller)
    }

    // What variables hold. Every box is found from one, and every cell that is not free is a box.
    fn held(&mut self) -> Result<(), Difference> {
        let run = self.run;
        self.owners.clear();
        self.variables(&run.running, self.machine.base)?;
        self.callers()?;
        let used = run.boxes.count();
        let free = (self.machine.cells.free.cells as usize).checked_sub(used);
        let same = self.owners.count() == used && free_cells(self.machine) == free;
        ensure(same, Difference::Cells)
    }

    // Numbers shown: as many as there is room for, and whether there were more.
    fn shown(&self) -> Result<(), Difference> {
        let shown = self.run.shown.as_slice();
        let machine = self.machine;
        let same_last = match machine.count.checked_sub(1) {
            Some(last) => machine.shown.get(last) == shown.get(last),
            None => true,
        };
        let same = machine.count == shown.len().min(self.allowed.room)
            && machine.over == (shown.len() > self.allowed.room)
            && same_last;
        ensure(same, Difference::Shown)
    }

    // Where both are, what was shown, and the turns left.
    fn place(&self) -> Result<(), Difference> {
        let machine = self.machine;
        let frame = &self.run.running;
        let open = u32::try_from(self.run.open_calls()).unwrap_or(u32::MAX);
        let depth = self.allowed.limits.calls.saturating_sub(open);
        let same_calls = machine.depth == depth && machine.procedure == frame.procedure;
        ensure(same_calls, Difference::Calls)?;
        ensure(self.is_at(machine.pos, frame), Difference::Place)?;
        self.shown()?;
        ensure(machine.turns == self.run.limits.turns, Difference::Turns)
    }
}

// The interpreter, beside a machine that runs the same program. It takes a step for each of the machine's.
#[derive(Drop)]
pub struct Watch<'a> {
    program: &'a Program,
    pub run: Run<'a>,
    owners: Owners,
    allowed: Allowed,
    stop: Option<Stop>,
    pub steps: u64,
    pub difference: Option<Difference>,
}

impl<'a> Watch<'a> {
    // Begins the first procedure. The machine does so before its first step too.
    pub fn start(
        heap: Global,
        program: &'a Program,
        allowed: Allowed,
    ) -> Result<Watch<'a>, AllocError> {
        let mut run = Run::new(program, heap, allowed.limits);
        let stop = run.start().err();
        Ok(Watch {
            program,
            run,
            owners: Owners::new(heap, allowed.limits.cells)?,
            allowed,
            stop,
            steps: 0,
            difference: None,
        })
    }

    // Takes a step beside the machine's. Neither stops.
    fn follow(&mut self, machine: &Machine) -> Result<(), Difference> {
        ensure(self.stop.is_none(), Difference::Ending)?;
        self.stop = self.run.step().err();
        ensure(self.stop.is_none(), Difference::Ending)?;
        let mut step = Step {
            machine,
            program: self.program,
            run: &self.run,
            owners: &mut self.owners,
            allowed: self.allowed,
        };
        step.place()?;
        step.held()
    }

    // How the machine should say that the interpreter's run ended.
    fn expected(&self, stop: Stop) -> Option<Ran> {
        let shown = self.run.shown.len();
        match stop {
            Stop::Done(_) if shown > self.allowed.room => Some(Ran::OutFull),
            Stop::Done(result) => Some(Ran::Done(result, shown, self.run.limits.turns)),
            Stop::Full => Some(Ran::Full),
            Stop::Spent => Some(Ran::Spent),
            Stop::Deep => Some(Ran::Deep),
            Stop::Faulted(_) | Stop::NoMemory => None,
        }
    }

    // The machine stopped: so does the interpreter at its next step, for the same reason.
    fn end(&mut self, ending: Ran, shown: &[u32]) -> Result<(), Difference> {
        if self.stop.is_none() {
            self.stop = self.run.step().err();
        }
        let stop = self.stop.ok_or(Difference::Ending)?;
        ensure(self.expected(stop) == Some(ending), Difference::Ending)?;
        let mut numbers = shown.iter().zip(self.run.shown.iter());
        ensure(
            numbers.all(|(word, number)| word == number),
            Difference::Shown,
        )
    }

    pub fn conclude(&mut self, ending: Ran, shown: &[u32]) {
        if self.difference.is_none() {
            self.difference = self.end(ending, shown).err();
        }
    }
}

impl<'a> Observer for Watch<'a> {
    fn see(&mut self, machine: &Machine) {
        self.steps = self.steps.saturating_add(1);
        if self.difference.is_none() {
            self.difference = self.follow(machine).err();
        }
    }
}
