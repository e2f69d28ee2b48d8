//! Tests of terms on the machine's heap: cells, unification, what is seen to be apart, and values as packed bytes.
#![tactic(auto)]

#[cfg(test)]
mod apart;
#[cfg(test)]
mod cells;
#[cfg(test)]
mod made;
#[cfg(test)]
mod packs;
#[cfg(test)]
mod pairs;
#[cfg(test)]
mod plain;
