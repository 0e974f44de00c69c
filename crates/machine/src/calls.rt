ghost use Rattle.std.specs.Prelude.{◌≡◌, ◌+◌, ◌*◌, ◌<◌, ◌≤◌, List, length, slice_index};
ghost use Rattle.owned.specs.Program.{Arg};
ghost use Rattle.machine.specs.Memory.{control, memory, set_word, entered};
ghost use Rattle.machine.specs.Steps.{CanStep, Stepped, Kept, Next, halted, call_s};
ghost use Rattle.machine.specs.Calls.{CanPassOne, PassedOne, CanPass, Passed, suspended, Blanked, Opened};

use crate::frames::{DEST, FRAME_WORDS, PROCEDURE, RESUME};
use crate::machine::{Halt, Machine};
use linker::{BODY, MANY, PROC_WORDS};
use owned::names::Var;

impl<'a> Machine<'a> {
    // The argument at a place: a variable's value, handed over or lent.
    fn argument(&mut self, at: usize) -> u32
        requires room { at + 1 < length (control self.old).code.rows }
        requires can { CanPassOne (control self.old) (memory self.old) (slice_index (control self.old).code.rows at) (slice_index (control self.old).code.rows (at + 1)) }
        ensures { PassedOne (control self.old) (memory self.old) (slice_index (control self.old).code.rows at) (slice_index (control self.old).code.rows (at + 1)) (control self.new) (memory self.new) result }
    {
        let x = Var(self.rows[at]);
        if self.rows[at + 1] == 0 {
            self.take(x)
        } else {
            self.load(x)
        }
    }

    // Writes a variable of the next frame.
    fn store_next(&mut self, i: usize, word: u32)
        requires { (control self.old).base + 40 + i < length (memory self.old).frames }
        ensures here { control self.new ≡ control self.old }
        ensures stored { memory self.new ≡ set_word (memory self.old) ((control self.old).base + 40 + i) word }
    {
        self.frames[self.base + FRAME_WORDS + i] = word;
    }

    // So many arguments that stand from a place on, into the next frame.
    fn pass_arguments(&mut self, at: usize, many: u32)
        requires { CanPass (control self.old) (memory self.old) at many }
        ensures { Passed (control self.old) (memory self.old) at many (control self.new) (memory self.new) }
    {
        // Arguments stand two words apart and their values one: the number of an argument gives both places.
        for i in 0..many as usize {
            let word = self.argument(at + 2 * i);
            self.store_next(i, word);
        }
    }

    // Notes in the running procedure's frame where it goes on, its number, and the variable for the result.
    fn suspend(&mut self, at: usize, dest: Var)
        requires at { at ≡ (control self.old).pos }
        requires room { (control self.old).base + 40 ≤ length (memory self.old).frames }
        requires here { (control self.old).pos < length (control self.old).code.follow }
        ensures here { control self.new ≡ control self.old }
        ensures suspended { memory self.new ≡ suspended (control self.old) (memory self.old) dest.0 }
    {
        let base = self.base;
        let follow = self.tables.follow[at];
        let procedure = self.procedure;
        let frames = &mut *self.frames;
        frames[base + RESUME] = follow;
        frames[base + PROCEDURE] = procedure;
        frames[base + DEST] = dest.0;
    }

    // Goes to a procedure, whose frame is the next one.
    fn enter(&mut self, f: u32) -> usize
        requires row { 8 * f + 8 ≤ length (control self.old).code.procs }
        requires deep { 0 < (control self.old).depth }
        requires room { (control self.old).base + 40 ≤ length (memory self.old).frames }
        ensures here { control self.new ≡ entered (control self.old) f (memory self.old).frames }
        ensures same { memory self.new ≡ memory self.old }
        ensures next { result ≡ (control self.new).pos }
    {
        let row = PROC_WORDS * f as usize;
        let next = self.tables.procs[row + BODY] as usize;
        self.pos = next;
        self.kinds = self.tables.procs[row] as usize;
        self.base += FRAME_WORDS;
        self.procedure = f;
        self.depth -= 1;
        next
    }

    // Empties the variables from one on, up to another.
    fn blank(&mut self, from: u32, to: u32)
        requires { (control self.old).base + to ≤ length (memory self.old).frames }
        ensures here { control self.new ≡ control self.old }
        ensures blank { Blanked (control self.old).base from to (memory self.old) (memory self.new) }
    {
        let base = self.base;
        let frames = &mut *self.frames;
        // `from` may lie past `to`, so no part of the frames is cut out and filled.
        for x in from..to {
            frames[base + x as usize] = 0;
        }
    }

    // Goes to a procedure whose first variables are in the next frame; the others are empty.
    pub(crate) fn open(&mut self, f: u32, given: u32) -> usize
        requires row { 8 * f + 8 ≤ length (control self.old).code.procs }
        requires deep { 0 < (control self.old).depth }
        requires room { (control self.old).base + 40 + slice_index (control self.old).code.procs (8 * f + 1) ≤ length (memory self.old).frames }
        ensures opened { Opened (control self.old) (memory self.old) f given (control self.new) (memory self.new) }
        ensures next { result ≡ (control self.new).pos }
    {
        let many = self.tables.procs[PROC_WORDS * f as usize + MANY];
        let next = self.enter(f);
        self.blank(given, many);
        next
    }

    // A call of a procedure, with its arguments after the first four words.
    pub(crate) fn call(&mut self, at: usize, dest: Var, f: u32, many: u32) -> Result<usize, Halt>
        requires at { at ≡ (control self.old).pos }
        requires can { CanStep (List Arg) (call_s dest.0 f) (control self.old) (memory self.old) }
        requires many { many ≡ slice_index (control self.old).code.rows ((control self.old).pos + 3) }
        ensures stepped { Stepped (List Arg) (call_s dest.0 f) (control self.old) (memory self.old) (control self.new) (memory self.new) (halted result) }
        ensures kept { Kept (control self.old) (control self.new) }
        ensures next { Next (control self.new) result }
    {
        if self.depth == 0 {
            return Err(Halt::Deep);
        }
        self.pass_arguments(at + 4, many);
        self.turns = self.turns.checked_sub(1).ok_or(Halt::Spent)?;
        self.suspend(at, dest);
        Ok(self.open(f, many))
    }
}
