ghost use Rattle.std.specs.Prelude.{◌≡◌, ◌+◌, ◌<◌, length, Some, slice_index};
ghost use Rattle.owned.specs.Program.{S};
ghost use Rattle.owned.specs.Decode.{head_by, variable};
ghost use Rattle.owned.specs.declared.decode.Statement.TheVariants.{Between};
ghost use Rattle.machine.specs.Memory.{control, memory};
ghost use Rattle.machine.specs.Steps.{CanStep, Stepped, Kept, Next, halted, any_s};
ghost use Rattle.machine.specs.Running.{CanAdvance, Advanced, Onward, CanRun, CameOut, CanStart, Ran};

use crate::cells::Cells;
use crate::frames::FRAME_WORDS;
use crate::tables::Tables;
use owned::decode::{Statement, Transfer};
use owned::names::Var;

// A program that runs in lent memory: there is no heap, so boxes are cells by their numbers, and open procedures are
// frames of words. `count` and `over` stand beside `shown`, and not in a struct with it: `shown` is lent for another
// time than the rest, and the proof of a run takes no struct with a borrow of another lifetime as a field. `rows` stands
// beside `tables`: in there its length would not be known to fit, and three sums got no proof.
#[derive(Drop)]
pub struct Machine<'a> {
    pub rows: &'a [u32],
    pub tables: Tables<'a>,
    pub cells: Cells<'a>,
    pub frames: &'a mut [u32],
    pub shown: &'a mut [u32],
    pub count: usize,
    pub over: bool,
    pub pos: usize,
    pub kinds: usize,
    pub base: usize,
    pub procedure: u32,
    pub depth: u32,
    pub turns: u64,
}

// Why a run stops before its end: no cell is free, no turn is left, or too many calls are open.
#[derive(Clone, Copy, Debug, PartialEq, Eq)]
pub enum Halt {
    Full,
    Spent,
    Deep,
}

// What a step comes to: the run goes on at this place, or it is done and this is its result.
#[derive(Clone, Copy, Debug, PartialEq, Eq)]
pub enum Progress {
    Going(usize),
    Done(u32),
}

// Who looks at the machine after each step after which a run goes on. It is no closure, since an entry point would then
// ask of its callers that the closure may be called.
pub trait Observer {
    fn see(&mut self, machine: &Machine<'_>);
}

impl<'a> Machine<'a> {
    // A word of the rows.
    fn word(&self, at: usize) -> u32
        requires { at < length (control self.now).code.rows }
        ensures { result ≡ slice_index (control self.now).code.rows at }
    {
        self.rows[at]
    }

    // A statement with a destination and a source, at a place.
    fn between(&self, at: usize, what: Transfer) -> Statement
        requires { at + 2 < length (control self.now).code.rows }
        ensures { result ≡ Between what (variable (slice_index (control self.now).code.rows (at + 1))) (variable (slice_index (control self.now).code.rows (at + 2))) }
    {
        let x = self.word(at + 1);
        let y = self.word(at + 2);
        Statement::Between(what, Var(x), Var(y))
    }

    // The statement at the machine's place, without the parts that follow it. It is no pair. Only the words that it has
    // are read, and none is tested: `owned` reads rows that are not known to be a program.
    fn statement(&self, at: usize) -> Statement
        requires at { at ≡ (control self.now).pos }
        requires can { CanStep S any_s (control self.now) (memory self.now) }
        ensures { head_by (slice_index (control self.now).code.rows (control self.now).pos) (slice_index (control self.now).code.rows ((control self.now).pos + 1)) (slice_index (control self.now).code.rows ((control self.now).pos + 2)) (slice_index (control self.now).code.rows ((control self.now).pos + 3)) ≡ Some result }
    {
        match self.rows[at] {
            0 => Statement::Skip,
            1 => Statement::Then,
            2 => Statement::Set(Var(self.word(at + 1))),
            3 => self.between(at, Transfer::Box),
            4 => self.between(at, Transfer::Unbox),
            5 => self.between(at, Transfer::Look),
            6 => self.between(at, Transfer::Fill),
            7 => self.between(at, Transfer::Move),
            8 => Statement::Drop(Var(self.word(at + 1))),
            9 => Statement::If,
            10 => Statement::While,
            11 => Statement::Call(Var(self.word(at + 1)), self.word(at + 2), self.word(at + 3)),
            12..=u32::MAX => Statement::Show,
        }
    }

    // The statement at the machine's place.
    fn execute(&mut self, at: usize) -> Result<usize, Halt>
        requires at { at ≡ (control self.old).pos }
        requires can { CanStep S any_s (control self.old) (memory self.old) }
        ensures stepped { Stepped S any_s (control self.old) (memory self.old) (control self.new) (memory self.new) (halted result) }
        ensures kept { Kept (control self.old) (control self.new) }
        ensures next { Next (control self.new) result }
    {
        match self.statement(at) {
            Statement::Skip | Statement::Then => Ok(self.proceed(at)),
            Statement::Set(x) => {
                self.set_number(x, at + 2);
                Ok(self.proceed(at))
            }
            Statement::Between(what, x, y) => {
                self.transfer(what, x, y)?;
                Ok(self.proceed(at))
            }
            Statement::Drop(x) => {
                self.drop_value(x);
                Ok(self.proceed(at))
            }
            Statement::If => Ok(self.branch(at)),
            Statement::While => self.repeat(at),
            Statement::Call(x, f, many) => self.call(at, x, f, many),
            Statement::Show => {
                self.show(at + 1);
                Ok(self.proceed(at))
            }
        }
    }

    // One step of a run: the next statement, the end of a procedure that was called, or the end of the first. The
    // machine's place is handed from step to step, so that it stays in a register: a step need not load what the step
    // before it stored.
    pub fn step(&mut self, at: usize) -> Result<Progress, Halt>
        requires at { at ≡ (control self.old).pos }
        requires can { CanAdvance (control self.old) (memory self.old) }
        ensures advanced { Advanced (control self.old) (memory self.old) (control self.new) (memory self.new) result }
        ensures kept { Kept (control self.old) (control self.new) }
        ensures next { Onward (control self.new) result }
    {
        if at < self.rows.len() {
            return Ok(Progress::Going(self.execute(at)?));
        }
        if self.base > FRAME_WORDS {
            return Ok(Progress::Going(self.leave()));
        }
        self.finish();
        Ok(Progress::Done(self.result()))
    }

    // Runs on, in so many steps at most. Gives the result, which is a number.
    fn run_on<O: Observer>(
        &mut self,
        at: usize,
        budget: u128,
        observer: &mut O,
    ) -> Result<u32, Halt>
        requires at { at ≡ (control self.old).pos }
        requires can { CanRun budget (control self.old) (memory self.old) }
        ensures came { CameOut budget (control self.old) (memory self.old) (control self.new) result }
        ensures kept { Kept (control self.old) (control self.new) }
    {
        // A `for` over the budget, which is no word of the processor, makes most runs slower, by up to a sixth.
        let mut left = budget;
        let mut at = at;
        loop {
            match self.step(at)? {
                Progress::Going(next) => {
                    left -= 1;
                    at = next;
                }
                Progress::Done(result) => return Ok(result),
            }
            observer.see(self);
        }
    }

    // Runs a whole program, from its first procedure on, in so many steps at most. Gives the result, which is a number.
    pub fn run<O: Observer>(&mut self, budget: u128, observer: &mut O) -> Result<u32, Halt>
        requires { CanStart budget (control self.old) (memory self.old) }
        ensures came { Ran budget (control self.old) (memory self.old) (control self.new) result }
        ensures kept { Kept (control self.old) (control self.new) }
    {
        if self.depth == 0 {
            return Err(Halt::Deep);
        }
        self.turns = self.turns.checked_sub(1).ok_or(Halt::Spent)?;
        let at = self.open(0, 0);
        self.run_on(at, budget, observer)
    }
}
