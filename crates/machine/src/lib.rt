#![tactic(auto)]

mod branches;
mod calls;
mod cells;
mod frames;
mod machine;
mod returns;
mod statements;
mod tables;
mod values;

pub use cells::Cells;
pub use machine::{Halt, Machine, Observer, Progress};
pub use tables::Tables;
