//! The stack of a search: goal lists, open cases and what they come back to, over an environment.
#![tactic(auto)]

pub mod answer;
pub mod back;
pub mod basis;
pub mod call;
pub mod copier;
pub mod cut;
pub mod expression;
pub mod first;
pub mod fit;
pub mod frame;
pub mod give;
mod head;
pub mod hold;
mod key;
pub mod leave;
pub mod list;
pub mod open;
pub mod pair;
pub mod stack;
pub mod term;
pub mod value;
pub mod walk;
