//! Records of clauses with the places of their erasures, linked by class so that a walk passes over what is erased.
#![tactic(auto)]

pub mod ends;
pub mod group;
pub mod leap;
pub mod links;
pub mod part;
pub mod record;
pub mod runs;
pub mod slot;
pub mod starts;

pub use record::{Cursor, Declared, Record};
