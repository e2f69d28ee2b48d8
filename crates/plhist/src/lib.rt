//! The history of a run: what each thread did, and the one journal of all. A run follows its
//! thread's search, a journal is legal, a run is over; the report of a history, and its status.
#![tactic(auto)]

pub mod history;
pub mod report;
pub mod status;

pub use history::{History, Journal, Output, Places, Run, RunEnd, Runs};
pub use report::report_text;
pub use status::{Ending, Status, ending_of, kind_word, refusal_text, status_of};
