ghost use Rattle.std.specs.Prelude.{◌≡◌};
ghost use Rattle.owned.specs.Decode.{between};
ghost use Rattle.owned.specs.declared.decode.Transfer.TheVariants.{Box, Unbox, Look, Fill, Move};
ghost use Rattle.machine.specs.Memory.{control, memory, with_output, shows};
ghost use Rattle.machine.specs.Operations.{CanDo, Did, CanDoAt, DidAt, Showed, Transferred, set_s, drop_s, show_s};

use crate::machine::{Halt, Machine};
use owned::decode::Transfer;
use owned::names::Var;

// x is the destination and y the source, as the page on the language names them: a struct of both would say no more.
impl<'a> Machine<'a> {
    // x := the value of the expression at a place
    pub(crate) fn set_number(&mut self, x: Var, at: usize)
        requires { CanDoAt (control self.old) (memory self.old) (set_s x.0) at }
        ensures { DidAt (control self.old) (memory self.old) (set_s x.0) at (control self.new) (memory self.new) }
    {
        let word = self.value(at);
        self.store(x, word);
    }

    // x := a new box with y in it. The two variables are parts of the head that says the statement, here and below: one
    // name for both would be no plainer.
    fn make_box(&mut self, x: Var, y: Var) -> Result<(), Halt>
        requires { CanDo (control self.old) (memory self.old) (between Box x.0 y.0) }
        ensures here { control self.new ≡ control self.old }
        ensures done { Transferred (control self.old) (memory self.old) (between Box x.0 y.0) (control self.new) (memory self.new) result }
    {
        let word = self.take(y);
        let made = self.cells.allocate(word).ok_or(Halt::Full)?;
        self.put(x, made);
        Ok(())
    }

    // x := what is in the box y, whose cell is given back
    fn open_box(&mut self, x: Var, y: Var)
        requires { CanDo (control self.old) (memory self.old) (between Unbox x.0 y.0) }
        ensures { Did (control self.old) (memory self.old) (between Unbox x.0 y.0) (control self.new) (memory self.new) }
    {
        let cell = self.cell_of(y);
        let word = self.cells.contents[cell.0 as usize];
        self.cells.give_back(cell);
        self.store(y, 0);
        self.put(x, word);
    }

    // x := the number in the box y
    fn look_into(&mut self, x: Var, y: Var)
        requires { CanDo (control self.old) (memory self.old) (between Look x.0 y.0) }
        ensures { Did (control self.old) (memory self.old) (between Look x.0 y.0) (control self.new) (memory self.new) }
    {
        let cell = self.cell_of(y);
        let word = self.cells.contents[cell.0 as usize];
        self.store(x, word);
    }

    // Puts y into the box x, and gives back what was there.
    fn fill_box(&mut self, x: Var, y: Var)
        requires { CanDo (control self.old) (memory self.old) (between Fill x.0 y.0) }
        ensures { Did (control self.old) (memory self.old) (between Fill x.0 y.0) (control self.new) (memory self.new) }
    {
        let cell = self.cell_of(x);
        let word = self.take(y);
        let kind = self.kind_of(y);
        let old = self.cells.contents[cell.0 as usize];
        self.cells.release(kind, old);
        self.cells.contents[cell.0 as usize] = word;
    }

    // x := y, which is handed over
    fn move_value(&mut self, x: Var, y: Var)
        requires { CanDo (control self.old) (memory self.old) (between Move x.0 y.0) }
        ensures { Did (control self.old) (memory self.old) (between Move x.0 y.0) (control self.new) (memory self.new) }
    {
        let word = self.take(y);
        self.put(x, word);
    }

    // A statement with a destination x and a source y.
    pub(crate) fn transfer(&mut self, what: Transfer, x: Var, y: Var) -> Result<(), Halt>
        requires { CanDo (control self.old) (memory self.old) (between what x.0 y.0) }
        ensures here { control self.new ≡ control self.old }
        ensures done { Transferred (control self.old) (memory self.old) (between what x.0 y.0) (control self.new) (memory self.new) result }
    {
        match what {
            Transfer::Box => return self.make_box(x, y),
            Transfer::Unbox => self.open_box(x, y),
            Transfer::Look => self.look_into(x, y),
            Transfer::Fill => self.fill_box(x, y),
            Transfer::Move => self.move_value(x, y),
        }
        Ok(())
    }

    // Gives back what x holds.
    pub(crate) fn drop_value(&mut self, x: Var)
        requires { CanDo (control self.old) (memory self.old) (drop_s x.0) }
        ensures { Did (control self.old) (memory self.old) (drop_s x.0) (control self.new) (memory self.new) }
    {
        self.put(x, 0);
    }

    // Writes a number after those shown, or notes that there is no room for it: the run goes on, since whether it ends
    // well has to be known before that is said.
    fn write_number(&mut self, word: u32)
        ensures here { control self.new ≡ with_output (control self.old) (shows (control self.old).output word) }
        ensures same { memory self.new ≡ memory self.old }
    {
        if self.count < self.shown.len() {
            self.shown[self.count] = word;
            self.count += 1;
        } else {
            self.over = true;
        }
    }

    // Shows the value of the expression at a place.
    pub(crate) fn show(&mut self, at: usize)
        requires { CanDoAt (control self.old) (memory self.old) show_s at }
        ensures { Showed (control self.old) (memory self.old) at (control self.new) (memory self.new) }
    {
        let word = self.value(at);
        self.write_number(word);
    }
}
