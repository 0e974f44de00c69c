#![tactic(auto)]

// Tests of the interpreter and of the options through their public functions.
#[cfg(test)]
mod requests;
#[cfg(test)]
mod runs;
