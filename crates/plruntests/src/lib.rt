//! Tests of what a run leaves, from the public calls of plhist, plrun and plcommand: reports and statuses, journals, faults, and depth.
#![tactic(auto)]

#[cfg(test)]
mod command;
#[cfg(test)]
mod depth;
#[cfg(test)]
mod faults;
#[cfg(test)]
mod histories;
#[cfg(test)]
mod schedules;
