//! The keys of first arguments, by which clauses are passed over.
ghost use Rattle.std.specs.Prelude.{◌≡◌, IfOk, OnOk};
ghost use Rattle.plsearch.specs.Forms.{arguments};
ghost use Rattle.plcode.specs.Steps.{text, Extended};
ghost use Rattle.plcode.specs.Bodies.{IsCode};
ghost use Rattle.plcode.specs.Keys.{admits as admits_key, HeadsPart, IsFirstKey, IsKey, KeysPart};

use crate::draft::Draft;
use platoms::names::Functor;
use plterm::walk::{Shape, TermRef};
use std::alloc::AllocError;

/// What a first argument is: an integer, an atom or a compound by its number, or anything, as a variable is.
#[derive(Clone, Copy, Debug, PartialEq, Eq, Hash)]
pub enum Key {
    Any,
    Int(i64),
    Atom(u32),
    Fun(u32),
}

/// Terms whose keys differ do not unify, unless one key is that of anything.
pub fn keys_part()
    ensures { KeysPart }
{}

/// A goal does not unify with a head whose key its own does not admit, so that a clause that is passed over has no solution there.
pub fn heads_part()
    ensures { HeadsPart }
{}

impl Key {
    /// Whether a clause of the key `clause` may be for a goal of this one: where one of them is that of anything, or they are one.
    #[inline(always)]
    pub fn admits(self, clause: Key) -> bool
        ensures { result ≡ admits_key self clause }
    {
        match (self, clause) {
            (Key::Any, _) | (_, Key::Any) => true,
            (Key::Int(goal), Key::Int(head)) => goal == head,
            (Key::Atom(goal), Key::Atom(head)) => goal == head,
            (Key::Fun(goal), Key::Fun(head)) => goal == head,
            (Key::Int(_) | Key::Atom(_) | Key::Fun(_), _) => false,
        }
    }
}

/// The key of a term.
pub fn key_of(code: &mut Draft, term: &TermRef<'_>) -> Result<Key, AllocError>
    requires code { IsCode (text code.old) }
    ensures extended { OnOk result (Extended (text code.old) (text code.new)) }
    ensures code { OnOk result (IsCode (text code.new)) }
    ensures key { IfOk result (λ k. IsKey code.new.names k term.now) }
{
    match term.shape() {
        Shape::Var(_) => Ok(Key::Any),
        Shape::Int(value) => Ok(Key::Int(value)),
        Shape::Atom(name) => {
            let atom = code.names.atom(name)?;
            Ok(Key::Atom(atom))
        }
        Shape::Compound(name, args) => {
            let name = code.names.atom(name)?;
            let arity = args.len() as u16;
            let functor = code.names.functor(Functor { name, arity })?;
            Ok(Key::Fun(functor))
        }
    }
}

/// The key of a head's first argument; that of anything, if it has none.
pub fn head_key(code: &mut Draft, head: &TermRef<'_>) -> Result<Key, AllocError>
    requires code { IsCode (text code.old) }
    ensures extended { OnOk result (Extended (text code.old) (text code.new)) }
    ensures code { OnOk result (IsCode (text code.new)) }
    ensures key { IfOk result (λ k. IsFirstKey code.new.names k (arguments head.now)) }
{
    match head.shape() {
        Shape::Compound(_, mut args) => match args.next_term() {
            Some(first) => key_of(code, &first),
            None => Ok(Key::Any),
        },
        Shape::Var(_) | Shape::Int(_) | Shape::Atom(_) => Ok(Key::Any),
    }
}
