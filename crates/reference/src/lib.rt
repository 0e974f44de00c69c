#![tactic(auto)]

pub mod boxes;
pub mod full;
pub mod interpreter;
pub mod reader;
pub mod rules;
pub mod tally;
pub mod tree;
pub mod words;
