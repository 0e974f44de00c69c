use crate::tree::{Signature, Var};

// More variables no procedure has.
const VARIABLES: usize = 32;

// Which variables are full: every number, and boxes as the text says. An array and no set, since nothing here may run
// out of memory.
#[derive(Clone, Copy, Debug, PartialEq, Eq)]
pub struct Full {
    variables: [bool; VARIABLES],
}

impl Full {
    // What is full where a procedure begins.
    pub fn at_start(signature: &Signature) -> Full {
        let mut variables = [false; VARIABLES];
        for ((x, kind), is_full) in signature.kinds.iter().enumerate().zip(variables.iter_mut()) {
            *is_full = *kind == 0 || x < signature.marks.len();
        }
        Full { variables }
    }

    // A variable that is not there stays away, here as in a frame: the two hold different things.
    fn put(&mut self, x: Var, is_full: bool) {
        if let Some(place) = self.variables.get_mut(usize::from(x)) {
            *place = is_full;
        }
    }

    pub fn has(&self, x: Var) -> bool {
        self.variables.get(usize::from(x)) == Some(&true)
    }

    pub fn add(&mut self, x: Var) {
        self.put(x, true);
    }

    pub fn remove(&mut self, x: Var) {
        self.put(x, false);
    }

    // What is full here or there.
    pub fn add_all(&mut self, other: &Full) {
        for (here, there) in self.variables.iter_mut().zip(other.variables.iter()) {
            *here |= *there;
        }
    }

    // What is full here and there.
    pub fn keep_only(&mut self, other: &Full) {
        for (here, there) in self.variables.iter_mut().zip(other.variables.iter()) {
            *here &= *there;
        }
    }
}
