//! All that the program does, as one call: it reads the text that the words name, and runs it, tells its counts, or lists it.
#![tactic(auto)]

pub mod command;
