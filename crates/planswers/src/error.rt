//! The errors that built-in predicates raise for values of the heap (ISO/IEC 13211-1 7.12.2).
ghost use Rattle.std.specs.Prelude.{◌≡◌, codes, IfOk};
ghost use Rattle.plcells.specs.Store.{value, IsValue};
ghost use Rattle.plbuiltin.specs.Errors.{atom_error};
ghost use Rattle.plerror.specs.Errors.{instantiation_error, type_error, domain_error};
ghost use Rattle.plbuiltin.specs.Flags.{flag_and_value};

use crate::answer::Answer;
use plcells::cell::Cell;
use plcells::heap::Heap;
use plerror::error;
use plorder::shape::{Shape, shape_of};
use plterm::name::Name;
use plterm::term::Term;
use std::alloc::{AllocError, Global};

/// The term of a value is of another type.
pub fn type_error(alloc: Global, heap: &Heap, kind: &str, v: Cell) -> Result<Term, AllocError>
    requires { IsValue heap.now v }
    ensures { IfOk result (λ t. t ≡ type_error kind.now (value heap.now v)) }
{
    let culprit = heap.take(alloc, v)?;
    error::type_error(alloc, kind, culprit)
}

/// The error of a value that is to be a variable or an atom.
pub fn atom_error(alloc: Global, heap: &Heap, v: Cell) -> Result<Option<Term>, AllocError>
    requires { IsValue heap.now v }
    ensures { IfOk result (λ error. error ≡ atom_error (value heap.now v)) }
{
    match shape_of(heap, &v) {
        Shape::Variable(_) | Shape::Atom(_) => Ok(None),
        _ => Ok(Some(type_error(alloc, heap, "atom", v)?)),
    }
}

/// The term of a value is outside of a domain.
pub fn outside_error(alloc: Global, heap: &Heap, domain: &str, v: Cell) -> Result<Term, AllocError>
    requires { IsValue heap.now v }
    ensures { IfOk result (λ t. t ≡ domain_error domain.now (value heap.now v)) }
{
    let culprit = heap.take(alloc, v)?;
    error::domain_error(alloc, domain, culprit)
}

/// A flag does not have a value.
pub fn value_error(alloc: Global, heap: &Heap, flag: Cell, v: Cell) -> Result<Term, AllocError>
    requires flag { IsValue heap.now flag }
    requires value { IsValue heap.now v }
    ensures { IfOk result (λ t. t ≡ domain_error (codes "flag_value") (flag_and_value (value heap.now flag) (value heap.now v))) }
{
    let flag = heap.take(alloc, flag)?;
    let value = heap.take(alloc, v)?;
    let plus = Name::new(alloc, "+")?;
    match Term::compound(alloc, plus, vec![in alloc; flag, value]?) {
        Ok(culprit) => error::domain_error(alloc, "flag_value", culprit),
        Err(_) => Err(AllocError),
    }
}

/// A variable stands where a term is needed.
pub fn unbound(alloc: Global) -> Result<Answer, AllocError>
    ensures { IfOk result (λ answer. answer ≡ Answer.Raises instantiation_error) }
{
    Ok(Answer::Raises(error::instantiation_error(alloc)?))
}

/// The term of a value is of another type.
pub fn wrong_type(alloc: Global, heap: &Heap, kind: &str, v: Cell) -> Result<Answer, AllocError>
    requires { IsValue heap.now v }
    ensures { IfOk result (λ answer. answer ≡ Answer.Raises (type_error kind.now (value heap.now v))) }
{
    Ok(Answer::Raises(type_error(alloc, heap, kind, v)?))
}

/// The term of a value is outside of a domain.
pub fn outside(alloc: Global, heap: &Heap, domain: &str, v: Cell) -> Result<Answer, AllocError>
    requires { IsValue heap.now v }
    ensures { IfOk result (λ answer. answer ≡ Answer.Raises (domain_error domain.now (value heap.now v))) }
{
    Ok(Answer::Raises(outside_error(alloc, heap, domain, v)?))
}
