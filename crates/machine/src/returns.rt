ghost use Rattle.std.specs.Prelude.{◌≡◌, ◌+◌, ◌-◌, ◌*◌, ◌^◌, ◌<◌, ◌≤◌, length, slice_index};
ghost use Rattle.machine.specs.Memory.{control, memory, left};
ghost use Rattle.machine.specs.Steps.{Kept};
ghost use Rattle.machine.specs.Calls.{CanClose, Closed, CanLeave, Left};

use crate::frames::{DEST, FRAME_WORDS, PROCEDURE, RESUME};
use crate::machine::Machine;
use linker::{MANY, PROC_WORDS, RELEASED, RESULT};
use owned::names::Var;

impl<'a> Machine<'a> {
    // Gives back the boxes in the running procedure's variables, but for its result and what is lent.
    pub(crate) fn finish(&mut self)
        requires { CanClose (control self.old) (memory self.old) }
        ensures { Closed (control self.old) (memory self.old) (control self.new) (memory self.new) }
    {
        let row = PROC_WORDS * self.procedure as usize;
        let many = self.tables.procs[row + MANY];
        let mut mask = self.tables.procs[row + RELEASED];
        // The bits are shifted out, so that the last of them ends the loop.
        for x in 0..many {
            if mask == 0 {
                break;
            }
            if mask % 2 == 1 {
                let kind = self.kind_of(Var(x));
                let word = self.load(Var(x));
                self.cells.release(kind, word);
            }
            mask /= 2;
        }
    }

    // The word of the running procedure's result.
    pub(crate) fn result(&self) -> u32
        requires row { 8 * (control self.now).procedure + 8 ≤ length (control self.now).code.procs }
        requires there { (control self.now).base + slice_index (control self.now).code.procs (8 * (control self.now).procedure + 2) < length (memory self.now).frames }
        ensures { result ≡ slice_index (memory self.now).frames ((control self.now).base + slice_index (control self.now).code.procs (8 * (control self.now).procedure + 2)) }
    {
        let x = Var(self.tables.procs[PROC_WORDS * self.procedure as usize + RESULT]);
        self.load(x)
    }

    // Back to the caller, whose variable for the result is returned.
    fn resume(&mut self) -> Var
        requires some { 40 ≤ (control self.old).base }
        requires within { (control self.old).base ≤ length (memory self.old).frames }
        requires row { 8 * slice_index (memory self.old).frames ((control self.old).base - 40 + 33) + 8 ≤ length (control self.old).code.procs }
        requires deep { (control self.old).depth + 1 < 2 ^ 32 }
        ensures here { control self.new ≡ left (control self.old) (memory self.old).frames }
        ensures same { memory self.new ≡ memory self.old }
        ensures dest { result.0 ≡ slice_index (memory self.old).frames ((control self.old).base - 40 + 34) }
    {
        let base = self.base - FRAME_WORDS;
        let procedure = self.frames[base + PROCEDURE];
        self.base = base;
        self.pos = self.frames[base + RESUME] as usize;
        self.procedure = procedure;
        self.kinds = self.tables.procs[PROC_WORDS * procedure as usize] as usize;
        self.depth += 1;
        Var(self.frames[base + DEST])
    }

    // The end of a procedure that was called: its result goes to the caller.
    pub(crate) fn leave(&mut self) -> usize
        requires { CanLeave (control self.old) (memory self.old) }
        ensures stepped { Left (control self.old) (memory self.old) (control self.new) (memory self.new) }
        ensures kept { Kept (control self.old) (control self.new) }
        ensures next { result ≡ (control self.new).pos }
    {
        self.finish();
        let word = self.result();
        let dest = self.resume();
        let next = self.pos;
        self.put(dest, word);
        next
    }
}
