//! Goal lists that share their rest: what is left to do, as the field's continuations.
//!
//! A goal list begins with a run of a clause's compiled goals, under the clause's slots, and goes on with a list of links. No goal of a
//! clause is put before it is selected.
#![tactic(auto)]

pub mod item;
pub mod level;
pub mod link;
pub mod list;

ghost use Rattle.pllinks.specs.Changing.{ListsAgree, ListsSubstitute};

/// Goal lists stand for the same where the values and the slots that they ask for do.
pub fn lists_agree()
    ensures { ListsAgree }
{}

/// What is put for variables in all values and slots is put into each goal list.
pub fn lists_substitute()
    ensures { ListsSubstitute }
{}
