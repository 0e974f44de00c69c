ghost use Rattle.std.specs.Prelude.{List};
ghost use Rattle.owned.specs.Runs.{Cell};
ghost use Rattle.owned.specs.FreeList.{InUse};
ghost use Rattle.machine.specs.Memory.{store};
ghost use Rattle.machine.specs.Represents.{Heap};
ghost use Rattle.machine.specs.Operations.{CellFreed, Allocated, CanRelease, Released};

use owned::cells::FreeCells;
use owned::names::{CellIndex, Kind};

// The cells of boxes, by their numbers: what is in each, and which are free. Contents and links are lent words, each in
// a table of its own, since the free list is kept without looking at what cells hold. Which cells are in use is asked for
// where it matters: no word here says it, only the boxes that are held do.
#[derive(Drop)]
pub struct Cells<'a> {
    pub contents: &'a mut [u32],
    pub free: FreeCells<'a>,
}

impl<'a> Cells<'a> {
    // Gives a cell that is in use back.
    pub(crate) fn give_back(&mut self, cell: CellIndex)
        requires { (cs : List Cell) × Heap (store self.old) cs × InUse cs cell.0 }
        ensures { CellFreed (store self.old) cell.0 (store self.new) }
    {
        self.free.give_back(cell);
    }

    // The first free cell for what is in a new box. Gives the box's word, if a cell is free.
    pub(crate) fn allocate(&mut self, word: u32) -> Option<u32>
        requires { (cs : List Cell) × Heap (store self.old) cs }
        ensures { Allocated (store self.old) word (store self.new) result }
    {
        let cell = self.free.take_first()?;
        self.contents[cell.0 as usize] = word;
        Some(cell.0 + 1)
    }

    // Gives back what a value of a kind holds: what is in a box first, then the box's cell.
    pub(crate) fn release(&mut self, kind: Kind, word: u32)
        requires { CanRelease (store self.old) kind.0 word }
        ensures { Released (store self.old) kind.0 word (store self.new) }
    {
        if kind.0 == 0 || word == 0 {
            return;
        }
        let cell = CellIndex(word - 1);
        let inside = self.contents[cell.0 as usize];
        self.release(Kind(kind.0 - 1), inside);
        self.give_back(cell);
    }
}
