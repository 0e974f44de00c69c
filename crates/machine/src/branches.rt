ghost use Rattle.std.specs.Prelude.{◌≡◌, ◌<◌, length, Ok, slice_index};
ghost use Rattle.owned.specs.Program.{E, S};
ghost use Rattle.machine.specs.Memory.{control, memory, go_to};
ghost use Rattle.machine.specs.Steps.{CanStep, Stepped, Kept, Next, halted, if_s, while_s};

use crate::machine::{Halt, Machine};

impl<'a> Machine<'a> {
    // Goes on after the statement that the machine stands at.
    pub(crate) fn proceed(&mut self, at: usize) -> usize
        requires at { at ≡ (control self.old).pos }
        requires room { (control self.old).pos < length (control self.old).code.follow }
        ensures here { control self.new ≡ go_to (control self.old) (slice_index (control self.old).code.follow (control self.old).pos) }
        ensures same { memory self.new ≡ memory self.old }
        ensures next { result ≡ (control self.new).pos }
    {
        let next = self.tables.follow[at] as usize;
        self.pos = next;
        next
    }

    // An `if`: on to one of its two parts.
    pub(crate) fn branch(&mut self, at: usize) -> usize
        requires at { at ≡ (control self.old).pos }
        requires can { CanStep (E × S × S) if_s (control self.old) (memory self.old) }
        ensures stepped { Stepped (E × S × S) if_s (control self.old) (memory self.old) (control self.new) (memory self.new) (Ok tt) }
        ensures kept { Kept (control self.old) (control self.new) }
        ensures next { result ≡ (control self.new).pos }
    {
        let word = self.value(at + 1);
        let next = if word == 0 {
            self.tables.other[at] as usize
        } else {
            self.tables.inner[at] as usize
        };
        self.pos = next;
        next
    }

    // A `while`, from its test on: a turn of its body, or on past it.
    pub(crate) fn repeat(&mut self, at: usize) -> Result<usize, Halt>
        requires at { at ≡ (control self.old).pos }
        requires can { CanStep (E × S) while_s (control self.old) (memory self.old) }
        ensures stepped { Stepped (E × S) while_s (control self.old) (memory self.old) (control self.new) (memory self.new) (halted result) }
        ensures kept { Kept (control self.old) (control self.new) }
        ensures next { Next (control self.new) result }
    {
        let word = self.value(at + 1);
        if word == 0 {
            return Ok(self.proceed(at));
        }
        self.turns = self.turns.checked_sub(1).ok_or(Halt::Spent)?;
        let next = self.tables.inner[at] as usize;
        self.pos = next;
        Ok(next)
    }
}
