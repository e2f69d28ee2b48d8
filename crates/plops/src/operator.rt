//! An operator: its priority, and what operands it takes.
ghost use Rattle.std.specs.Prelude.{◌≡◌, ◌<◌};
ghost use Rattle.plops.specs.Operators.{operator_of, prefix_kind, infix_kind, postfix_kind};

/// Where an operator stands, `f`, and what operands stand beside it: `x` one of a lesser priority, `y` also one
/// of the operator's own priority (6.3.4.1).
#[derive(Clone, Copy, Debug, PartialEq, Eq)]
pub enum Kind {
    Xfx,
    Xfy,
    Yfx,
    Fx,
    Fy,
    Xf,
    Yf,
}

/// A prefix operator: its priority, 1 to 1,200, and the greatest priority of its operand.
#[derive(Clone, Copy, Debug, PartialEq, Eq)]
pub struct Prefix {
    pub priority: u16,
    pub right: u16,
}

/// An infix operator: its priority, 1 to 1,200, and the greatest priorities of its operands.
#[derive(Clone, Copy, Debug, PartialEq, Eq)]
pub struct Infix {
    pub priority: u16,
    pub left: u16,
    pub right: u16,
}

/// A postfix operator: its priority, 1 to 1,200, and the greatest priority of its operand.
#[derive(Clone, Copy, Debug, PartialEq, Eq)]
pub struct Postfix {
    pub priority: u16,
    pub left: u16,
}

impl Prefix {
    /// What operand it takes.
    pub fn kind(self) -> Kind
        ensures { result ≡ prefix_kind self }
    {
        if self.right == self.priority {
            Kind::Fy
        } else {
            Kind::Fx
        }
    }
}

impl Infix {
    /// What operands it takes.
    pub fn kind(self) -> Kind
        ensures { result ≡ infix_kind self }
    {
        if self.left == self.priority {
            Kind::Yfx
        } else if self.right == self.priority {
            Kind::Xfy
        } else {
            Kind::Xfx
        }
    }
}

impl Postfix {
    /// What operand it takes.
    pub fn kind(self) -> Kind
        ensures { result ≡ postfix_kind self }
    {
        if self.left == self.priority {
            Kind::Yf
        } else {
            Kind::Xf
        }
    }
}

/// An operator, by where it stands.
#[derive(Clone, Copy, Debug, PartialEq, Eq)]
pub enum Operator {
    Before(Prefix),
    Between(Infix),
    Behind(Postfix),
}

impl Operator {
    /// The operator of a priority, 1 to 1,200, and a kind.
    pub fn of(priority: u16, kind: Kind) -> Operator
        requires { 0 < priority }
        ensures { result ≡ operator_of priority kind }
    {
        let less = priority - 1;
        match kind {
            Kind::Xfx => Operator::Between(Infix {
                priority,
                left: less,
                right: less,
            }),
            Kind::Xfy => Operator::Between(Infix {
                priority,
                left: less,
                right: priority,
            }),
            Kind::Yfx => Operator::Between(Infix {
                priority,
                left: priority,
                right: less,
            }),
            Kind::Fx => Operator::Before(Prefix {
                priority,
                right: less,
            }),
            Kind::Fy => Operator::Before(Prefix {
                priority,
                right: priority,
            }),
            Kind::Xf => Operator::Behind(Postfix {
                priority,
                left: less,
            }),
            Kind::Yf => Operator::Behind(Postfix {
                priority,
                left: priority,
            }),
        }
    }
}
