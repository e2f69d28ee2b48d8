//! The predicates whose errors the machine raises.

ghost use Rattle.std.specs.Prelude.{◌≡◌, IfOk};
ghost use Rattle.plrefusals.specs.Predicates.{predicate_of, IsFew};

use plterm::indicator::Indicator;
use plterm::name::Name;
use std::alloc::{AllocError, Global};

/// A predicate that raises errors.
#[derive(Clone, Copy)]
pub enum Predicate {
    Once,
    Not,
    Catch,
    FindAll,
    Throw,
    /// call/N with N - 1 further arguments.
    CallWith(u16),
    /// halt/1
    Halt,
    Transaction,
    Snapshot,
}

impl Predicate {
    /// Its indicator.
    pub fn indicator(self, alloc: Global) -> Result<Indicator, AllocError>
        requires { IsFew self }
        ensures { IfOk result (λ p. p ≡ predicate_of self) }
    {
        let (name, arity) = match self {
            Predicate::Once => ("once", 1),
            Predicate::Not => ("\\+", 1),
            Predicate::Catch => ("catch", 3),
            Predicate::FindAll => ("findall", 3),
            Predicate::Throw => ("throw", 1),
            Predicate::CallWith(further) => ("call", further + 1),
            Predicate::Halt => ("halt", 1),
            Predicate::Transaction => ("transaction", 1),
            Predicate::Snapshot => ("snapshot", 1),
        };
        let name = Name::new(alloc, name)?;
        Ok(Indicator { name, arity })
    }
}
