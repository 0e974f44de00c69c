// A kind: 0 is a number, k + 1 a box of kind k. It stays a number, since it falls by one with each box that is opened.
#[derive(Clone, Copy, PartialEq, Eq)]
pub struct Kind(pub u32);

// A variable, by its place among the variables of its procedure. Rows may name any: whether it is there is asked where
// it is used, and is no part of the type.
#[derive(Clone, Copy, PartialEq, Eq)]
pub struct Var(pub u32);

// A cell of the interpreter's memory, by its number.
#[derive(Clone, Copy, PartialEq, Eq)]
pub struct CellIndex(pub u32);
