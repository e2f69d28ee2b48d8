//! Look-ups of clauses in a view of the journal and of own updates on top, as look-ups of the journal alone.
#![tactic(auto)]

pub mod laws;
pub mod layer;
pub mod lookup;
pub mod view;

pub use layer::Layer;
pub use lookup::{Lookup, Reach, Step};
pub use view::{Told, View};
