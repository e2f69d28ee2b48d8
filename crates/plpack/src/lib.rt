//! Terms as bytes: the items of their nodes in prefix order, their variables 0, 1, .. by first occurrence.
//!
//! An item is a tag of one byte and what it tells: a variable's number or an integer's value, of eight bytes; an atom's name;
//! a compound's arity, of two bytes, and its name. Before a name stands how many bytes it has, in two. Numbers are big-endian.
#![tactic(auto)]

pub mod item;
pub mod laws;
pub mod packing;
mod parts;
pub mod shared;
mod tag;
pub mod unpacking;

pub use packing::pack;
pub use shared::Packed;
pub use unpacking::{UnpackError, Unpacked, unpack};
