use std::alloc::{AllocError, Global};
use std::collections::BTreeMap;
use std::fmt;

// The name of a box: how many were made before it. No two boxes ever have the same.
#[derive(Clone, Copy, Debug, PartialEq, Eq, PartialOrd, Ord)]
pub struct Name(pub u32);

// What a variable or a box holds.
#[derive(Clone, Copy, Debug, PartialEq, Eq)]
pub enum Value {
    Number(u32),
    Boxed(Name),
    Empty,
}

impl Value {
    // What a variable of a kind holds until something is put into it.
    pub(crate) fn blank(kind: u32) -> Value {
        if kind == 0 {
            Value::Number(0)
        } else {
            Value::Empty
        }
    }
}

// What goes wrong in a careless program.
#[derive(Clone, Copy, Debug, PartialEq, Eq)]
pub enum Fault {
    Empty,
    Gone,
    NoNumber,
    NoProcedure,
}

impl Fault {
    pub const ALL: [Fault; 4] = [
        Fault::Empty,
        Fault::Gone,
        Fault::NoNumber,
        Fault::NoProcedure,
    ];
}

impl fmt::Display for Fault {
    fn fmt<W: fmt::Write>(&self, f: &mut fmt::Formatter<W>) -> fmt::Result {
        f.write_str(match self {
            Fault::Empty => "taken from an empty variable",
            Fault::Gone => "the box is gone",
            Fault::NoNumber => "no number where one is wanted",
            Fault::NoProcedure => "the procedure is not there",
        })
    }
}

// This and the next each take another variant out: the pattern is all there is to it.
impl TryFrom<Value> for u32 {
    type Error = Fault;

    fn try_from(value: Value) -> Result<u32, Fault> {
        match value {
            Value::Number(number) => Ok(number),
            Value::Boxed(_) | Value::Empty => Err(Fault::NoNumber),
        }
    }
}

impl TryFrom<Value> for Name {
    type Error = Fault;

    fn try_from(value: Value) -> Result<Name, Fault> {
        match value {
            Value::Boxed(name) => Ok(name),
            Value::Number(_) | Value::Empty => Err(Fault::Empty),
        }
    }
}

// The boxes there are, by name.
#[derive(Drop)]
pub struct Boxes {
    held: BTreeMap<Name, Value>,
    made: u32,
}

impl Boxes {
    pub(crate) fn new(heap: Global) -> Boxes {
        Boxes {
            held: BTreeMap::new(heap),
            made: 0,
        }
    }

    pub fn count(&self) -> usize {
        self.held.len()
    }

    pub(crate) fn make(&mut self, value: Value) -> Result<Value, AllocError> {
        let name = Name(self.made);
        self.held.insert(name, value)?;
        self.made = self.made.wrapping_add(1);
        Ok(Value::Boxed(name))
    }

    // What is in a box.
    pub fn open(&self, holder: Value) -> Result<Value, Fault> {
        let name = Name::try_from(holder)?;
        self.held.get(&name).copied().ok_or(Fault::Gone)
    }

    // Puts something into a box, over what is in it.
    pub(crate) fn store(&mut self, holder: Value, value: Value) -> Result<(), Fault> {
        let name = Name::try_from(holder)?;
        *self.held.get_mut(&name).ok_or(Fault::Gone)? = value;
        Ok(())
    }

    // Takes a box away. Gives what was in it.
    pub(crate) fn free(&mut self, holder: Value) -> Result<Value, Fault> {
        let name = Name::try_from(holder)?;
        self.held.remove(&name).ok_or(Fault::Gone)
    }

    // Gives back a value of a kind, with all boxes in it. No cell is chosen here, so it makes no difference which of
    // them goes first.
    pub(crate) fn give_back(&mut self, kind: u32, value: Value) -> Result<(), Fault> {
        let mut outer = value;
        for _ in 0..kind {
            if outer == Value::Empty {
                return Ok(());
            }
            outer = self.free(outer)?;
        }
        Ok(())
    }
}
