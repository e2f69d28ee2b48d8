//! What the threads of a run share, as plain values: updates of the database, requests and their
//! replies, and the entries of the journal; and what a journal says.
#![tactic(auto)]

pub mod act;
pub mod id;
pub mod key;
pub mod request;
pub mod standing;
pub mod update;

pub use act::{Act, Entry};
pub use id::{JournalPlace, ThreadId, WorkerId};
pub use key::Key;
pub use request::{Reply, Request, ThreadEnd};
pub use standing::{Standing, Thread, Threads};
pub use update::{Batch, ClauseName, Living, Update};
