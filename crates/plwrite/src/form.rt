//! How compounds are written, by their name and arguments.
ghost use Rattle.std.specs.Prelude.{◌≡◌};
ghost use Rattle.plwrite.specs.Writing.{operated, as_operator, numbered, alone_form, infix_form, pair_form};
ghost use Rattle.plwrite.specs.Words.{is_minus};

use crate::task::Notation;
use plops::operator::{Infix, Postfix, Prefix};

/// How a compound of one argument is written.
#[derive(Clone, Copy)]
pub enum Alone {
    /// As a variable.
    Letter(u64),
    /// In braces.
    Curly,
    /// Behind its prefix operator.
    Before(Prefix),
    /// Before its postfix operator.
    Behind(Postfix),
    Functional,
}

impl Alone {
    fn operated(before: Option<Prefix>, behind: Option<Postfix>, is_sign_of_int: bool) -> Alone
        ensures { result ≡ operated before behind is_sign_of_int }
    {
        match before {
            Some(op) => {
                if is_sign_of_int {
                    Alone::Functional
                } else {
                    Alone::Before(op)
                }
            }
            None => match behind {
                Some(op) => Alone::Behind(op),
                None => Alone::Functional,
            },
        }
    }

    fn as_operator(notation: &Notation<'_>, name: &str, is_sign_of_int: bool) -> Alone
        ensures { result ≡ as_operator notation.now.ops.now notation.now.style name.now is_sign_of_int }
    {
        Alone::operated(
            notation.prefix(name),
            notation.postfix(name),
            is_sign_of_int,
        )
    }

    fn numbered(notation: &Notation<'_>, name: &str, value: Option<i64>) -> Alone
        ensures { result ≡ numbered notation.now.ops.now notation.now.style name.now value }
    {
        match value {
            Some(value) => {
                if value >= 0 && notation.style.has_letters() && name == "$VAR" {
                    Alone::Letter(value as u64)
                } else {
                    Alone::as_operator(notation, name, name == "-")
                }
            }
            None => Alone::as_operator(notation, name, false),
        }
    }

    /// How a name is written before its only argument, of which the value is given if it is an integer.
    pub fn of(notation: &Notation<'_>, name: &str, value: Option<i64>) -> Alone
        ensures { result ≡ alone_form notation.now.ops.now notation.now.style name.now value }
    {
        if name == "{}" {
            Alone::Curly
        } else {
            Alone::numbered(notation, name, value)
        }
    }
}

/// How a compound of two arguments is written.
#[derive(Clone, Copy)]
pub enum Pair {
    List,
    Between(Infix),
    Functional,
}

impl Pair {
    /// How a name is written with its two arguments.
    pub fn of(notation: &Notation<'_>, name: &str) -> Pair
        ensures { result ≡ pair_form notation.now.ops.now notation.now.style name.now }
    {
        if name == "." {
            return Pair::List;
        }
        match notation.infix(name) {
            None => Pair::Functional,
            Some(op) => Pair::Between(op),
        }
    }
}
