ghost use Rattle.std.specs.Prelude.{◌≡◌, ◌≤◌, List, length, drop, replicate};
ghost use Rattle.owned.specs.Runs.{Cell, free};
ghost use Rattle.owned.specs.FreeList.{FreeList, InUse, TakenFirst, GivenBack};

use crate::names::CellIndex;

// The free ones of so many cells, in ascending order: the head is the first, and the link of each is the next. The links
// lie in lent words: there is no heap. That they are the list of some cells is asked for, and no invariant here: which
// cells are in use is known to those who hold boxes alone.
#[derive(Drop)]
pub struct FreeCells<'a> {
    pub links: &'a mut [u32],
    pub head: u32,
    pub cells: u32,
}

impl<'a> FreeCells<'a> {
    // So many cells, all free.
    pub fn new(links: &'a mut [u32], cells: u32) -> FreeCells<'a>
        requires { cells ≤ length links.old }
        ensures list { FreeList result.links.now result.head (replicate cells free) }
        ensures many { result.cells ≡ cells }
        ensures past { drop cells result.links.now ≡ drop cells links.old }
        ensures lent { result.links.ghost_name ≡ links.entry.ghost_name }
    {
        for (cell, link) in links[..cells as usize].iter_mut().enumerate() {
            *link = cell as u32 + 1;
        }
        FreeCells {
            links,
            head: 0,
            cells,
        }
    }

    // Takes the first free cell, if any is.
    pub fn take_first(&mut self) -> Option<CellIndex>
        requires { (cs : List Cell) × FreeList self.old.links.now self.old.head cs × (length cs ≡ self.old.cells) }
        ensures first { (cs : List Cell) → FreeList self.old.links.now self.old.head cs → length cs ≡ self.old.cells → TakenFirst self.new.links.now self.old.head self.new.head cs result }
        ensures same { self.new.links.now ≡ self.old.links.now }
        ensures lent { self.new.links.ghost_name ≡ self.old.links.ghost_name }
        ensures many { self.new.cells ≡ self.old.cells }
    {
        if self.head == self.cells {
            return None;
        }
        let cell = CellIndex(self.head);
        self.head = self.links[cell.0 as usize];
        Some(cell)
    }

    // Puts a cell that is in use back into its place in the list.
    pub fn give_back(&mut self, cell: CellIndex)
        requires { (cs : List Cell) × FreeList self.old.links.now self.old.head cs × InUse cs cell.0 }
        ensures back { (cs : List Cell) → FreeList self.old.links.now self.old.head cs → InUse cs cell.0 → GivenBack self.old.links.now self.new.links.now self.new.head cs cell.0 }
        ensures lent { self.new.links.ghost_name ≡ self.old.links.ghost_name }
        ensures many { self.new.cells ≡ self.old.cells }
    {
        if cell.0 < self.head {
            self.links[cell.0 as usize] = self.head;
            self.head = cell.0;
            return;
        }
        let mut before = self.head;
        // The list lies in the links: the walk goes from one to the next.
        while self.links[before as usize] < cell.0 {
            before = self.links[before as usize];
        }
        self.links[cell.0 as usize] = self.links[before as usize];
        self.links[before as usize] = cell.0;
    }
}
