//! The evaluable functors (ISO/IEC 13211-1 9.1, 9.3, 9.4).
ghost use Rattle.std.specs.Prelude.{◌≡◌};
ghost use Rattle.platoms.specs.Evaluable.{unary_named, binary_named, operation_of};

/// An evaluable functor of one argument.
#[derive(Clone, Copy)]
pub enum Unary {
    /// `-`/1 (9.1.7).
    Negate,
    /// `+`/1 (9.1.7).
    Keep,
    /// abs/1 (9.1.7).
    Absolute,
    /// sign/1 (9.1.7).
    Sign,
    /// `\`/1 (9.4.5).
    Complement,
}

/// An evaluable functor of two arguments.
#[derive(Clone, Copy)]
pub enum Binary {
    /// `+`/2 (9.1.7).
    Add,
    /// `-`/2 (9.1.7).
    Subtract,
    /// `*`/2 (9.1.7).
    Multiply,
    /// `//`/2, toward zero (9.1.7).
    Quotient,
    /// `/`/2, where it is exact (9.1.7).
    Divide,
    /// rem/2, with the sign of the dividend (9.1.7).
    Remainder,
    /// mod/2, with the sign of the divisor (9.1.7).
    Modulo,
    /// `**`/2 and `^`/2 (9.3.1, 9.3.10).
    Power,
    /// `<<`/2 (9.4.2).
    ShiftLeft,
    /// `>>`/2, rounded down (9.4.1).
    ShiftRight,
    /// `/\`/2 (9.4.3).
    And,
    /// `\/`/2 (9.4.4).
    Or,
    /// max/2 (9.3.8).
    Maximum,
    /// min/2 (9.3.9).
    Minimum,
}

/// What a compound of an evaluable functor does with the values of its arguments.
#[derive(Clone, Copy)]
pub enum Operation {
    One(Unary),
    Two(Binary),
}

impl Unary {
    /// The functor of one argument with this name, if it is evaluable.
    pub fn of_name(name: &str) -> Option<Unary>
        ensures { result ≡ unary_named name.now }
    {
        match name {
            "-" => Some(Unary::Negate),
            "+" => Some(Unary::Keep),
            "abs" => Some(Unary::Absolute),
            "sign" => Some(Unary::Sign),
            "\\" => Some(Unary::Complement),
            _ => None,
        }
    }
}

impl Binary {
    /// The functor of two arguments with this name, if it is evaluable.
    pub fn of_name(name: &str) -> Option<Binary>
        ensures { result ≡ binary_named name.now }
    {
        match name {
            "+" => Some(Binary::Add),
            "-" => Some(Binary::Subtract),
            "*" => Some(Binary::Multiply),
            "//" => Some(Binary::Quotient),
            "mod" => Some(Binary::Modulo),
            "rem" => Some(Binary::Remainder),
            "/" => Some(Binary::Divide),
            "max" => Some(Binary::Maximum),
            "min" => Some(Binary::Minimum),
            "<<" => Some(Binary::ShiftLeft),
            ">>" => Some(Binary::ShiftRight),
            "/\\" => Some(Binary::And),
            "\\/" => Some(Binary::Or),
            "**" | "^" => Some(Binary::Power),
            _ => None,
        }
    }
}

impl Operation {
    /// The operation of the functor with this name and so many arguments, if it is evaluable.
    pub fn of(name: &str, arity: u16) -> Option<Operation>
        ensures { result ≡ operation_of name.now arity }
    {
        match arity {
            1 => Some(Operation::One(Unary::of_name(name)?)),
            2 => Some(Operation::Two(Binary::of_name(name)?)),
            _ => None,
        }
    }
}
