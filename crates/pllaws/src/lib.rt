//! What is written is read back; a listing loads as its program: the laws of reading and writing (ISO/IEC 13211-1 6.2 to 6.4,
//! 7.4, 7.10.5).
//!
//! It has no code. `specs/Pieces.antt` to `specs/Terms.antt` say which tokens the text of words is, `specs/Written.antt` to
//! `specs/Again.antt` which signs a term is written with and how many levels they need, and `specs/Needs.antt` how many the
//! clauses of a text need.
#![tactic(auto)]

pub mod listing;
pub mod rereading;
pub mod spaces;
