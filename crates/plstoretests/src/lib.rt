//! Tests of the database, from the public calls of each crate: the clauses of all batches, how their records are linked, own updates and
//! views over them, and the journal.
#![tactic(auto)]

#[cfg(test)]
mod chains;
#[cfg(test)]
mod made;
#[cfg(test)]
mod named;
#[cfg(test)]
mod owns;
#[cfg(test)]
mod stores;
#[cfg(test)]
mod views;
#[cfg(test)]
mod worlds;
