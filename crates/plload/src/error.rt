//! Why a text is no program.
ghost use Rattle.std.specs.Prelude.{◌≡◌};
ghost use Rattle.plload.specs.declared.error.LoadError.TheVariants.{NoMemory};

use std::alloc::{AllocError, AllocFailed};

/// Why a clause of a program's text is refused.
#[derive(Clone, Copy, Debug, PartialEq, Eq)]
pub enum RefusalKind {
    /// A fault of its tokens.
    Lex,
    /// Its tokens spell no term.
    Syntax,
    /// The head is a variable or a number, or the body is not convertible.
    NotCallable,
    /// The head is a control construct, a built-in predicate, or `-->`/2.
    StaticRedefined,
    /// `initialization` as an atom, or a directive that is not callable or not convertible.
    BadDirective,
}

/// Why a text is no program.
#[derive(Clone, Copy, Debug, PartialEq, Eq)]
pub enum LoadError {
    /// The first clause that is refused: the line, from 1, and the column, in bytes from 1, of the fault of its tokens, or
    /// else of its first token.
    Refused {
        line: u64,
        column: u64,
        kind: RefusalKind,
    },
    NoMemory,
}

impl From<AllocError> for LoadError {
    ghost from_gives = { λ _ e. e ≡ NoMemory };

    fn from(_error: AllocError) -> LoadError {
        LoadError::NoMemory
    }
}

impl<T: Drop> From<AllocFailed<T>> for LoadError {
    ghost from_gives = { λ _ e. e ≡ NoMemory };

    fn from(_error: AllocFailed<T>) -> LoadError {
        LoadError::NoMemory
    }
}
