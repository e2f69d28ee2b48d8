//! Values of the heap as packed bytes, and back, with no term between.
//!
//! A term that goes from one heap to another, as in a message, or from a heap to where bytes are kept, is packed from its cells and put
//! from its bytes. Both walk without recursion, in time linear in the bytes.
#![tactic(auto)]

pub mod putting;
pub mod taking;
mod unfinished;

pub use putting::{Put, put_bytes, put_packed};
pub use taking::take_packed;
