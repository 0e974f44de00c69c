use reference::boxes::Name;
use std::alloc::{AllocError, Global};

// Which box each cell of the machine was found to be.
#[derive(Drop)]
pub struct Owners {
    names: Vec<Option<Name>>,
}

impl Owners {
    pub fn new(heap: Global, cells: u32) -> Result<Owners, AllocError> {
        Ok(Owners {
            names: vec![in heap; None; cells as usize]?,
        })
    }

    pub fn clear(&mut self) {
        self.names.fill(None);
    }

    // How many cells were found to be boxes.
    pub fn count(&self) -> usize {
        self.names.iter().flatten().count()
    }

    // Notes that a cell is this box. It is no other.
    pub(crate) fn note(&mut self, cell: u32, name: Name) -> bool {
        self.names
            .get_mut(cell as usize)
            .is_some_and(|place| *place.get_or_insert(name) == name)
    }
}
