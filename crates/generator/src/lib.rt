#![tactic(auto)]

mod author;
mod build;
mod calls;
pub mod damage;
pub mod draft;
mod flaw;
mod flaws;
pub mod limits;
mod plan;
pub mod rng;
mod rows;
mod tree;
