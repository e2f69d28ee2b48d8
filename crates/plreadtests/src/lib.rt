//! Tests of the crates that read and write text, from the public calls of each.
#![tactic(auto)]

#[cfg(test)]
mod lists;
#[cfg(test)]
mod looks;
#[cfg(test)]
mod made;
#[cfg(test)]
mod numbers;
#[cfg(test)]
mod reading;
#[cfg(test)]
mod tokens;
#[cfg(test)]
mod writing;
