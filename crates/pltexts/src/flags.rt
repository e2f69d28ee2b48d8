//! Built-in predicates that change the operators and the flags (ISO/IEC 13211-1 8.14.3, 8.17.1).
ghost use Rattle.std.specs.Prelude.{◌≡◌, ◌<◌, ℕ, Ok, length, map, IfOk, option_copied};
ghost use Rattle.plcells.specs.Store.{Store, value, IsValue, AreValues};
ghost use Rattle.platoms.specs.Names.{atom_at};
ghost use Rattle.plprogram.specs.Changes.{with_flag};
ghost use Rattle.plbuiltin.specs.Flags.{on_flags, asked as asked_of, of_priority, names_of as names_of_terms, names_by, one_name as one_name_of, op as op_of, refused_as, set_flag as set_flag_of, unset_as, value_named};
ghost use Rattle.planswers.specs.Answers.{IsThere, meant};
ghost use Rattle.pltexts.specs.Flags.{asked_as, names_as};
ghost use Rattle.planswers.specs.Lists.{tail_as};
ghost use Rattle.plterm.specs.Tree.{atom};

use crate::current::{Pattern, current_flag, current_op};
use planswers::answer::Answer;
use planswers::error::{outside, type_error, unbound, value_error, wrong_type};
use planswers::list::{Elements, Tail, elements_of, is_partial, is_variable};
use plcells::cell::Cell;
use plcells::heap::Heap;
use plerror::error::{self, domain_error, permission_error};
use plnames::kind::Flags;
use plops::error::OpError;
use plops::operator::Kind;
use plorder::shape::{Shape, shape_of};
use plprogram::change::{Flag, FlagError, Refusal, declare, flag_named, kind_named};
use plprogram::settings::Settings;
use plterm::name::Name;
use plterm::term::Term;
use std::alloc::{AllocError, Global};

/// Names that are to be operators of a priority and a kind.
#[derive(Drop)]
pub(crate) struct Declaration {
    priority: u16,
    kind: Kind,
    names: Vec<Name>,
}

/// What a call of one of them comes to.
pub fn flags_answer(
    alloc: Global,
    heap: &Heap,
    settings: &Settings,
    b: Flags,
    args: &[Cell],
) -> Result<Answer, AllocError>
    requires args { AreValues heap.now args.now }
    ensures is { IfOk result (λ answer. (n : ℕ) → meant heap.now settings.now n answer ≡ on_flags b (map (value heap.now) args.now) settings.now) }
    ensures there { IfOk result (IsThere heap.now) }
{
    match (b, args) {
        (Flags::Operator, [priority, kind, names]) => {
            match asked(alloc, heap, *priority, *kind, names)? {
                Ok(asked) => operators(alloc, settings, &asked),
                Err(error) => Ok(Answer::Raises(error)),
            }
        }
        (Flags::CurrentOperator, [priority, kind, name]) => {
            let op = Pattern {
                priority: *priority,
                kind: *kind,
                name: *name,
            };
            current_op(alloc, heap, settings, op)
        }
        (Flags::Set, [flag, value]) => set_flag(alloc, heap, settings, *flag, *value),
        (Flags::Current, [flag, value]) => current_flag(alloc, heap, settings, *flag, *value),
        _ => Ok(Answer::Fails),
    }
}

/// What op/3 asks for, or its error (8.14.3).
fn asked(
    alloc: Global,
    heap: &Heap,
    priority: Cell,
    kind: Cell,
    names: &Cell,
) -> Result<Result<Declaration, Term>, AllocError>
    requires priority { IsValue heap.now priority }
    requires kind { IsValue heap.now kind }
    requires names { IsValue heap.now names.now }
    ensures { IfOk result (λ r. asked_as r ≡ asked_of (value heap.now priority) (value heap.now kind) (value heap.now names.now)) }
{
    let list = elements_of(alloc, heap, *names)?;
    if is_variable(heap, &priority) || is_variable(heap, &kind) || is_partial(heap, &list) {
        return Ok(Err(error::instantiation_error(alloc)?));
    }
    match (shape_of(heap, &priority), shape_of(heap, &kind)) {
        (Shape::Integer(number), Shape::Atom(name)) => match names_in(alloc, heap, *names, &list)? {
            Ok(found) => of_domains(alloc, heap, number, name, found),
            Err(error) => Ok(Err(error)),
        },
        (Shape::Integer(_), _) => Ok(Err(type_error(alloc, heap, "atom", kind)?)),
        _ => Ok(Err(type_error(alloc, heap, "integer", priority)?)),
    }
}

/// What is asked for with a priority and a specifier that may be outside of their domains.
fn of_domains(
    alloc: Global,
    heap: &Heap,
    number: i64,
    kind: u32,
    names: Vec<Name>,
) -> Result<Result<Declaration, Term>, AllocError>
    requires { kind < length heap.now.names.atoms }
    ensures { IfOk result (λ r. asked_as r ≡ of_priority number (atom_at heap.now.names kind) (Ok names.items)) }
{
    if number < 0 || number > 1200 {
        let culprit = Term::int(alloc, number)?;
        return Ok(Err(domain_error(alloc, "operator_priority", culprit)?));
    }
    let priority = number as u16;
    let name = heap.names().atom_name(kind).as_str();
    match kind_named(name) {
        Some(kind) => Ok(Ok(Declaration {
            priority,
            kind,
            names,
        })),
        None => {
            let culprit = error::atom(alloc, name)?;
            Ok(Err(domain_error(alloc, "operator_specifier", culprit)?))
        }
    }
}

/// The names that a value says, as one atom or as a list of them, which is no partial one.
fn names_in(
    alloc: Global,
    heap: &Heap,
    v: Cell,
    list: &Elements,
) -> Result<Result<Vec<Name>, Term>, AllocError>
    requires value { IsValue heap.now v }
    requires items { AreValues heap.now list.now.items.items }
    ensures { IfOk result (λ r. names_as r ≡ names_by (value heap.now v) (map (value heap.now) list.now.items.items) (tail_as list.now.tail)) }
{
    match list.tail {
        Tail::Empty => names_of(alloc, heap, &list.items),
        Tail::Unbound => Ok(Err(error::instantiation_error(alloc)?)),
        Tail::Other => one_name(alloc, heap, v),
    }
}

/// The names of atoms, or the error of the first value that is none.
fn names_of(
    alloc: Global,
    heap: &Heap,
    items: &[Cell],
) -> Result<Result<Vec<Name>, Term>, AllocError>
    requires { AreValues heap.now items.now }
    ensures { IfOk result (λ r. names_as r ≡ names_of_terms (map (value heap.now) items.now)) }
{
    let mut names = Vec::new(alloc);
    for v in items {
        match shape_of(heap, v) {
            Shape::Atom(name) => names.push(heap.names().atom_name(name).copied()?)?,
            _ => return Ok(Err(type_error(alloc, heap, "atom", *v)?)),
        }
    }
    Ok(Ok(names))
}

/// The one name that an atom says, or the error of a value that is no list.
fn one_name(alloc: Global, heap: &Heap, v: Cell) -> Result<Result<Vec<Name>, Term>, AllocError>
    requires { IsValue heap.now v }
    ensures { IfOk result (λ r. names_as r ≡ one_name_of (value heap.now v)) }
{
    let Shape::Atom(name) = shape_of(heap, &v) else {
        return Ok(Err(type_error(alloc, heap, "list", v)?));
    };
    let name = heap.names().atom_name(name).copied()?;
    Ok(Ok(vec![in alloc; name]?))
}

/// Names become operators of a copy of the settings, so that a refusal changes nothing.
fn operators(alloc: Global, settings: &Settings, asked: &Declaration) -> Result<Answer, AllocError>
    ensures is { IfOk result (λ answer. (h : Store) (n : ℕ) → meant h settings.now n answer ≡ op_of (asked_as (Ok asked.now)) settings.now) }
    ensures there { IfOk result (λ answer. (h : Store) → IsThere h answer) }
{
    let mut changed = settings.copied(alloc)?;
    match declare(
        &mut changed.operators,
        asked.priority,
        asked.kind,
        &asked.names,
    )? {
        Ok(()) => Ok(Answer::Sets(changed)),
        Err(refusal) => Ok(Answer::Raises(refused(alloc, &refusal)?)),
    }
}

/// The error of a name that is not made an operator.
fn refused(alloc: Global, refusal: &Refusal) -> Result<Term, AllocError>
    ensures { IfOk result (λ t. t ≡ refused_as refusal.now.cause (atom refusal.now.name)) }
{
    let name = error::atom(alloc, refusal.name.as_str())?;
    match refusal.cause {
        OpError::Comma => permission_error(alloc, "modify", "operator", name),
        _ => permission_error(alloc, "create", "operator", name),
    }
}

/// set_prolog_flag/2 (8.17.1).
fn set_flag(
    alloc: Global,
    heap: &Heap,
    settings: &Settings,
    flag: Cell,
    v: Cell,
) -> Result<Answer, AllocError>
    requires flag { IsValue heap.now flag }
    requires value { IsValue heap.now v }
    ensures is { IfOk result (λ answer. (n : ℕ) → meant heap.now settings.now n answer ≡ set_flag_of (value heap.now flag) (value heap.now v) settings.now) }
    ensures there { IfOk result (IsThere heap.now) }
{
    match (shape_of(heap, &flag), shape_of(heap, &v)) {
        (Shape::Variable(_), _) | (_, Shape::Variable(_)) => unbound(alloc),
        (Shape::Atom(name), _) => {
            let name = heap.names().atom_name(name).as_str();
            match flag_named(name, value_named(heap, &v)) {
                Ok(to) => set_to(alloc, settings, to),
                Err(error) => unset(alloc, heap, error, flag, v),
            }
        }
        _ => wrong_type(alloc, heap, "atom", flag),
    }
}

/// The name that a value is.
fn value_named<'h>(heap: &'h Heap, v: &Cell) -> Option<&'h Name>
    requires { IsValue heap.now v.now }
    ensures { option_copied result ≡ value_named (value heap.now v.now) }
{
    match shape_of(heap, v) {
        Shape::Atom(name) => Some(heap.names().atom_name(name)),
        _ => None,
    }
}

/// A flag is set in a copy of the settings.
fn set_to(alloc: Global, settings: &Settings, to: Flag) -> Result<Answer, AllocError>
    ensures { IfOk result (λ answer. answer ≡ Answer.Sets (with_flag to settings.now)) }
{
    let mut changed = settings.copied(alloc)?;
    changed.set(to);
    Ok(Answer::Sets(changed))
}

/// The error of a flag that is not set.
fn unset(
    alloc: Global,
    heap: &Heap,
    error: FlagError,
    flag: Cell,
    v: Cell,
) -> Result<Answer, AllocError>
    requires flag { IsValue heap.now flag }
    requires value { IsValue heap.now v }
    ensures { IfOk result (λ answer. answer ≡ Answer.Raises (unset_as error (value heap.now flag) (value heap.now v))) }
{
    match error {
        FlagError::NoFlag => outside(alloc, heap, "prolog_flag", flag),
        FlagError::ReadOnly => {
            let culprit = heap.take(alloc, flag)?;
            let term = permission_error(alloc, "modify", "flag", culprit)?;
            Ok(Answer::Raises(term))
        }
        FlagError::NoValue => Ok(Answer::Raises(value_error(alloc, heap, flag, v)?)),
    }
}
