ghost use Rattle.std.specs.Prelude.{◌≡◌, ◌+◌, ◌<◌, length, slice_index};
ghost use Rattle.machine.specs.Memory.{control, memory, set_word};
ghost use Rattle.machine.specs.Operations.{CanTake, TookOut, CanPut, PutIn, CanPoint, PointsAt};

use crate::machine::Machine;
use owned::names::{CellIndex, Kind, Var};

// How many words a frame has: 32 for variables, then where a caller goes on, its number, and its variable for the
// result.
pub(crate) const FRAME_WORDS: usize = 40;

pub(crate) const RESUME: usize = 32;

pub(crate) const PROCEDURE: usize = 33;

pub(crate) const DEST: usize = 34;

impl<'a> Machine<'a> {
    // The word of a variable.
    pub(crate) fn load(&self, x: Var) -> u32
        requires { (control self.now).base + x.0 < length (memory self.now).frames }
        ensures { result ≡ slice_index (memory self.now).frames ((control self.now).base + x.0) }
    {
        self.frames[self.base + x.0 as usize]
    }

    pub(crate) fn store(&mut self, x: Var, word: u32)
        requires { (control self.old).base + x.0 < length (memory self.old).frames }
        ensures here { control self.new ≡ control self.old }
        ensures stored { memory self.new ≡ set_word (memory self.old) ((control self.old).base + x.0) word }
    {
        self.frames[self.base + x.0 as usize] = word;
    }

    // The kind of a variable of the running procedure.
    pub(crate) fn kind_of(&self, x: Var) -> Kind
        requires { (control self.now).kinds + x.0 < length (control self.now).code.rows }
        ensures { result.0 ≡ slice_index (control self.now).code.rows ((control self.now).kinds + x.0) }
    {
        Kind(self.rows[self.kinds + x.0 as usize])
    }

    // Takes a variable's value out: a number stays, a box leaves nothing behind.
    pub(crate) fn take(&mut self, x: Var) -> u32
        requires { CanTake (control self.old) (memory self.old) x.0 }
        ensures { TookOut (control self.old) (memory self.old) x.0 (control self.new) (memory self.new) result }
    {
        let word = self.load(x);
        if self.kind_of(x).0 > 0 {
            self.store(x, 0);
        }
        word
    }

    // Puts a value into a variable, and gives back what was there: of a number, nothing.
    pub(crate) fn put(&mut self, x: Var, word: u32)
        requires { CanPut (control self.old) (memory self.old) x.0 word }
        ensures { PutIn (control self.old) (memory self.old) x.0 word (control self.new) (memory self.new) }
    {
        let kind = self.kind_of(x);
        if kind.0 == 0 {
            self.store(x, word);
            return;
        }
        let old = self.load(x);
        self.cells.release(kind, old);
        self.store(x, word);
    }

    // The cell of the box in a variable.
    pub(crate) fn cell_of(&self, x: Var) -> CellIndex
        requires { CanPoint (control self.now) (memory self.now) x.0 }
        ensures { PointsAt (control self.now) (memory self.now) x.0 result.0 }
    {
        CellIndex(self.load(x) - 1)
    }
}
