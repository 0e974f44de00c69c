#![tactic(auto)]

mod outcome;

pub use machine::{Halt, Machine, Observer, Progress};
pub use outcome::{Ran, go, go_observed, work_words};
