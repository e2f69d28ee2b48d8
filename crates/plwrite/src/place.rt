//! Where a term stands in the text.
ghost use Rattle.std.specs.Prelude.{◌≡◌};
ghost use Rattle.plwrite.specs.Places.{whole, argument, right_of_prefix, left_of, right_of, left_of_postfix, priority, is_right_open, needs_brackets, place_of};

use plops::operator::{Infix, Operator, Postfix, Prefix};

/// A place for a term: the greatest priority there, whether it is an operand, and whether the operator behind it
/// takes a left operand of its own priority.
#[derive(Clone, Copy)]
pub struct TermPlace {
    most: u16,
    is_operand: bool,
    is_strict: bool,
}

impl TermPlace {
    pub fn whole() -> TermPlace
        ensures { result ≡ whole }
    {
        TermPlace {
            most: 1200,
            is_operand: false,
            is_strict: false,
        }
    }

    pub fn argument() -> TermPlace
        ensures { result ≡ argument }
    {
        TermPlace {
            most: 999,
            is_operand: false,
            is_strict: false,
        }
    }

    pub fn right_of_prefix(op: Prefix) -> TermPlace
        ensures { result ≡ right_of_prefix op }
    {
        TermPlace {
            most: op.right,
            is_operand: true,
            is_strict: false,
        }
    }

    pub fn left_of(op: Infix) -> TermPlace
        ensures { result ≡ left_of op }
    {
        TermPlace {
            most: op.left,
            is_operand: true,
            is_strict: op.left == op.priority,
        }
    }

    pub fn right_of(op: Infix) -> TermPlace
        ensures { result ≡ right_of op }
    {
        TermPlace {
            most: op.right,
            is_operand: true,
            is_strict: false,
        }
    }

    pub fn left_of_postfix(op: Postfix) -> TermPlace
        ensures { result ≡ left_of_postfix op }
    {
        TermPlace {
            most: op.left,
            is_operand: true,
            is_strict: op.left == op.priority,
        }
    }

    pub fn is_operand(self) -> bool
        ensures { result ≡ self.is_operand }
    {
        self.is_operand
    }

    /// Whether an operator's term stands in brackets here.
    pub fn needs_brackets(self, op: Operator) -> bool
        ensures { result ≡ needs_brackets self op }
    {
        let priority = priority(op);
        self.most < priority || (self.is_strict && is_right_open(op) && priority == self.most)
    }
}

fn priority(op: Operator) -> u16
    ensures { result ≡ priority op }
{
    match op {
        Operator::Before(op) => op.priority,
        Operator::Between(op) => op.priority,
        Operator::Behind(op) => op.priority,
    }
}

/// Whether its right operand may have its own priority.
fn is_right_open(op: Operator) -> bool
    ensures { result ≡ is_right_open op }
{
    match op {
        Operator::Before(op) => op.right == op.priority,
        Operator::Between(op) => op.right == op.priority,
        Operator::Behind(_) => false,
    }
}

/// Where a term stands: in a place, or as what is left of a list.
#[derive(Clone, Copy)]
pub enum Position {
    At(TermPlace),
    Tail,
}

impl Position {
    /// The place of a term that ends no list.
    pub fn place(self) -> TermPlace
        ensures { result ≡ place_of self }
    {
        match self {
            Position::At(place) => place,
            Position::Tail => TermPlace::argument(),
        }
    }
}
