#![tactic(auto)]

// Tests of the libraries through their public functions.
#[cfg(test)]
mod limits;
#[cfg(test)]
mod says;
#[cfg(test)]
mod slips;
#[cfg(test)]
mod words;
