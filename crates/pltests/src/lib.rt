//! Tests of the crates of values, of operators, of packed terms and of loading, from the public calls of each.
#![tactic(auto)]

#[cfg(test)]
mod bytes;
#[cfg(test)]
mod characters;
#[cfg(test)]
mod command_lines;
#[cfg(test)]
mod items;
#[cfg(test)]
mod loading;
#[cfg(test)]
mod names;
#[cfg(test)]
mod numbers;
#[cfg(test)]
mod operators;
#[cfg(test)]
mod packs;
#[cfg(test)]
mod terms;
