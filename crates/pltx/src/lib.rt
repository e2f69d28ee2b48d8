//! The own updates of a thread's open transactions, which that thread alone sees, on top of a place of the journal.
#![tactic(auto)]

pub mod laws;
pub mod level;
mod marks;
mod overlay;
pub mod own;
mod sides;
pub mod target;

pub use level::{Ended, Isolation, Level};
pub use own::{Own, OwnCursor};
pub use target::{Erasure, Target};
