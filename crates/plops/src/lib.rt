//! Operators: which names are operators, and what operands they take (ISO/IEC 13211-1 6.3.4.3 and 6.3.4.4).
#![tactic(auto)]

pub mod error;
pub mod flag;
pub mod operator;
pub mod table;
