//! Where expressions stand.
ghost use Rattle.std.specs.Prelude.{◌≡◌, IfOk};
ghost use Rattle.plterm.specs.Tree.{Tree};
ghost use Rattle.plarith.specs.declared.operand.Operand.{Operand};
ghost use Rattle.plarith.specs.declared.operand.Opened.TheVariants.{Known};
ghost use Rattle.plarith.specs.Evaluation.{not_evaluable};
ghost use Rattle.plarith.specs.Operands.{Opens};

use crate::error::{ArithError, Evaluated};
use platoms::evaluable::{Binary, Unary};
use plcells::cell::Cell;
use plterm::indicator::Indicator;
use plterm::name::Name;
use std::alloc::AllocError;

/// Where an operand stands.
#[derive(Clone, Copy)]
pub enum Operand {
    /// A value of the heap.
    Value(Cell),
    /// A node of a compiled clause, by its place.
    Node(u32),
}

/// What an operand is seen to be.
#[derive(Drop)]
pub enum Opened {
    /// A number, or a term that has no value whatever its arguments are.
    Known(Evaluated),
    /// A functor of one argument, and its argument.
    One(Unary, Operand),
    /// A functor of two arguments, and its arguments.
    Two(Binary, Operand, Operand),
}

/// What operands are looked up in.
pub trait Operands {
    /// What is an operand of it.
    ghost is_operand: { Self → Operand → Type 0 };

    /// The term that an operand stands for.
    ghost tree: { Self → Operand → Tree };

    /// Looks at an operand.
    fn open(&self, operand: Operand) -> Result<Opened, AllocError>
        requires { is_operand self.now operand }
        ensures { IfOk result (Opens (tree self.now) (is_operand self.now) (tree self.now operand)) };
}

impl Opened {
    /// A name with so many arguments that is not evaluable.
    pub fn unknown(name: &Name, arity: u16) -> Result<Opened, AllocError>
        ensures { IfOk result (λ o. o ≡ Known (not_evaluable name.now arity)) }
    {
        let name = name.copied()?;
        let indicator = Indicator { name, arity };
        Ok(Opened::Known(Err(ArithError::NotEvaluable(indicator))))
    }
}
