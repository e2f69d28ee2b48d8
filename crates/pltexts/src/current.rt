//! Built-in predicates that tell the operators and the flags (ISO/IEC 13211-1 8.14.4, 8.17.2).
ghost use Rattle.std.specs.Prelude.{◌≡◌, ◌≤◌, ◌<◌, ℕ, [], ◌∷◌, true, length, map, IfOk};
ghost use Rattle.std.specs.List.{list_all};
ghost use Rattle.plterm.specs.Tree.{atom, int};
ghost use Rattle.plterm.specs.Ground.{is_ground};
ghost use Rattle.plcells.specs.Store.{Store, value, IsValue, AreValues};
ghost use Rattle.plprogram.specs.declared.settings.Settings.{Settings};
ghost use Rattle.plbuiltin.specs.Current.{current_flag as current_flag_of, current_flags, current_op as current_op_of, flag_error, flag_terms, is_flag, kind_name, operator_terms, priority_error, quotes_name, specifier_error, unknown_name};
ghost use Rattle.plbuiltin.specs.Errors.{atom_error as atom_error_of, first_error};
ghost use Rattle.plbuiltin.specs.Solution.{Gives, against, together};
ghost use Rattle.planswers.specs.Answers.{IsThere, meant};

use planswers::answer::Answer;
use planswers::equation::are_together;
use planswers::error::{atom_error, outside_error, type_error};
use plcells::cell::Cell;
use plcells::heap::Heap;
use plerror::error::atom;
use plgenerator::equation::together;
use plops::flag::Quotes;
use plops::operator::Kind;
use plops::table::CurrentOp;
use plorder::shape::{Shape, shape_of};
use plprogram::change::{FlagError, flag_named, kind_named};
use plprogram::settings::{Settings, Unknown};
use plterm::term::{ARITY, Term};
use std::alloc::{AllocError, Global};

/// An operator that is asked for.
#[derive(Clone, Copy)]
pub(crate) struct Pattern {
    pub priority: Cell,
    pub kind: Cell,
    pub name: Cell,
}

/// current_op/3 (8.14.4).
pub(crate) fn current_op(
    alloc: Global,
    heap: &Heap,
    settings: &Settings,
    op: Pattern,
) -> Result<Answer, AllocError>
    requires priority { IsValue heap.now op.priority }
    requires kind { IsValue heap.now op.kind }
    requires name { IsValue heap.now op.name }
    ensures is { IfOk result (λ answer. (n : ℕ) → meant heap.now settings.now n answer ≡ current_op_of (value heap.now op.priority) (value heap.now op.kind) (value heap.now op.name) settings.now) }
    ensures there { IfOk result (IsThere heap.now) }
{
    match operator_error(alloc, heap, &op)? {
        Some(error) => Ok(Answer::Raises(error)),
        None => {
            let ops = settings.operators.list(alloc)?;
            let groups = operator_groups(alloc, &ops)?;
            one_of(
                alloc,
                vec![in alloc; op.priority, op.kind, op.name]?,
                groups,
            )
        }
    }
}

/// The first error of its arguments.
fn operator_error(alloc: Global, heap: &Heap, op: &Pattern) -> Result<Option<Term>, AllocError>
    requires priority { IsValue heap.now op.now.priority }
    requires kind { IsValue heap.now op.now.kind }
    requires name { IsValue heap.now op.now.name }
    ensures { IfOk result (λ error. error ≡ first_error (priority_error (value heap.now op.now.priority) ∷ specifier_error (value heap.now op.now.kind) ∷ atom_error_of (value heap.now op.now.name) ∷ [])) }
{
    if let Some(error) = priority_error(alloc, heap, op.priority)? {
        return Ok(Some(error));
    }
    if let Some(error) = specifier_error(alloc, heap, op.kind)? {
        return Ok(Some(error));
    }
    atom_error(alloc, heap, op.name)
}

/// The error of a value that is to be a variable or a priority.
fn priority_error(alloc: Global, heap: &Heap, v: Cell) -> Result<Option<Term>, AllocError>
    requires { IsValue heap.now v }
    ensures { IfOk result (λ error. error ≡ priority_error (value heap.now v)) }
{
    match shape_of(heap, &v) {
        Shape::Variable(_) => Ok(None),
        Shape::Integer(number) if number >= 0 && number <= 1200 => Ok(None),
        _ => Ok(Some(outside_error(alloc, heap, "operator_priority", v)?)),
    }
}

/// The error of a value that is to be a variable or the name of a kind of operator.
fn specifier_error(alloc: Global, heap: &Heap, v: Cell) -> Result<Option<Term>, AllocError>
    requires { IsValue heap.now v }
    ensures { IfOk result (λ error. error ≡ specifier_error (value heap.now v)) }
{
    match shape_of(heap, &v) {
        Shape::Variable(_) => Ok(None),
        Shape::Atom(name) if kind_named(heap.names().atom_name(name).as_str()).is_some() => {
            Ok(None)
        }
        _ => Ok(Some(outside_error(alloc, heap, "operator_specifier", v)?)),
    }
}

/// Operators, each with its priority, its specifier and its name.
fn operator_groups(alloc: Global, ops: &[CurrentOp]) -> Result<Vec<Term>, AllocError>
    ensures { IfOk result (λ groups. groups.items ≡ map together (map operator_terms ops.now)) }
{
    let mut groups = Vec::new(alloc);
    for op in ops {
        groups.push(operator_group(alloc, op)?)?;
    }
    Ok(groups)
}

/// The priority, the specifier and the name of an operator.
fn operator_group(alloc: Global, op: &CurrentOp) -> Result<Term, AllocError>
    ensures { IfOk result (λ t. t ≡ together (operator_terms op.now)) }
{
    let priority = Term::int(alloc, op.priority.into())?;
    let kind = atom(alloc, kind_name(op.kind))?;
    let name = atom(alloc, op.name.as_str())?;
    together(alloc, vec![in alloc; priority, kind, name]?)
}

/// The name of a kind of operator (6.3.4.1).
fn kind_name(kind: Kind) -> &'static str
    ensures { result.now ≡ kind_name kind }
{
    match kind {
        Kind::Xfx => "xfx",
        Kind::Xfy => "xfy",
        Kind::Yfx => "yfx",
        Kind::Fx => "fx",
        Kind::Fy => "fy",
        Kind::Xf => "xf",
        Kind::Yf => "yf",
    }
}

/// current_prolog_flag/2 (8.17.2).
pub(crate) fn current_flag(
    alloc: Global,
    heap: &Heap,
    settings: &Settings,
    flag: Cell,
    v: Cell,
) -> Result<Answer, AllocError>
    requires flag { IsValue heap.now flag }
    requires value { IsValue heap.now v }
    ensures is { IfOk result (λ answer. (n : ℕ) → meant heap.now settings.now n answer ≡ current_flag_of (value heap.now flag) (value heap.now v) settings.now) }
    ensures there { IfOk result (IsThere heap.now) }
{
    match flag_error(alloc, heap, &flag)? {
        Some(error) => Ok(Answer::Raises(error)),
        None => {
            let groups = flag_groups(alloc, settings)?;
            one_of(alloc, vec![in alloc; flag, v]?, groups)
        }
    }
}

/// The error of a value that is to be a variable or the name of a flag.
fn flag_error(alloc: Global, heap: &Heap, v: &Cell) -> Result<Option<Term>, AllocError>
    requires { IsValue heap.now v.now }
    ensures { IfOk result (λ error. error ≡ flag_error (value heap.now v.now)) }
{
    match shape_of(heap, v) {
        Shape::Variable(_) => Ok(None),
        Shape::Atom(name) if is_flag(heap.names().atom_name(name).as_str()) => Ok(None),
        Shape::Atom(_) => Ok(Some(outside_error(alloc, heap, "prolog_flag", *v)?)),
        _ => Ok(Some(type_error(alloc, heap, "atom", *v)?)),
    }
}

/// Whether there is a flag of this name.
fn is_flag(name: &str) -> bool
    ensures { result ≡ is_flag name.now }
{
    !matches!(flag_named(name, None), Err(FlagError::NoFlag))
}

/// The flags, each with its value.
fn flag_groups(alloc: Global, settings: &Settings) -> Result<Vec<Term>, AllocError>
    ensures { IfOk result (λ groups. groups.items ≡ map together (current_flags settings.now)) }
{
    let mut groups = Vec::new(alloc);
    groups.push(named(alloc, "bounded", "true")?)?;
    groups.push(numbered(alloc, "max_integer", i64::MAX)?)?;
    groups.push(numbered(alloc, "min_integer", i64::MIN)?)?;
    groups.push(named(alloc, "integer_rounding_function", "toward_zero")?)?;
    groups.push(numbered(alloc, "max_arity", ARITY as i64)?)?;
    groups.push(named(alloc, "occurs_check", "true")?)?;
    groups.push(named(alloc, "unknown", unknown_name(settings.unknown))?)?;
    groups.push(named(alloc, "double_quotes", quotes_name(settings.quotes))?)?;
    Ok(groups)
}

/// A flag whose value is an atom.
fn named(alloc: Global, flag: &str, value: &str) -> Result<Term, AllocError>
    ensures { IfOk result (λ t. t ≡ together (flag_terms flag.now (atom value.now))) }
{
    let flag = atom(alloc, flag)?;
    let value = atom(alloc, value)?;
    together(alloc, vec![in alloc; flag, value]?)
}

/// A flag whose value is an integer.
fn numbered(alloc: Global, flag: &str, value: i64) -> Result<Term, AllocError>
    ensures { IfOk result (λ t. t ≡ together (flag_terms flag.now (int value))) }
{
    let flag = atom(alloc, flag)?;
    let value = Term::int(alloc, value)?;
    together(alloc, vec![in alloc; flag, value]?)
}

/// The name of a value of the flag `unknown` (7.11.2.4).
fn unknown_name(unknown: Unknown) -> &'static str
    ensures { result.now ≡ unknown_name unknown }
{
    match unknown {
        Unknown::Error => "error",
        Unknown::Fail => "fail",
    }
}

/// The name of a value of the flag `double_quotes` (7.11.2.5).
fn quotes_name(quotes: Quotes) -> &'static str
    ensures { result.now ≡ quotes_name quotes }
{
    match quotes {
        Quotes::Codes => "codes",
        Quotes::Chars => "chars",
        Quotes::Atom => "atom",
    }
}

/// The terms of some values are unified, together, with one of some terms after another. These have no variables.
fn one_of(alloc: Global, values: Vec<Cell>, groups: Vec<Term>) -> Result<Answer, AllocError>
    requires some { 0 < length values.items }
    requires few { length values.items ≤ 1023 }
    requires ground { list_all is_ground groups.items ≡ true }
    ensures is { (h : Store) → IfOk result (λ answer. (s : Settings) (n : ℕ) → meant h s n answer ≡ Gives (map (against (map (value h) values.items)) groups.items) [] s) }
    ensures there { (h : Store) → AreValues h values.items → IfOk result (IsThere h) }
{
    if groups.len() > 1 {
        return several(values, groups);
    }
    match groups.into_iter().next() {
        Some(group) => are_together(alloc, values, group),
        None => Ok(Answer::Fails),
    }
}

/// The same for more than one term. They have room on a heap beside the values.
fn several(values: Vec<Cell>, groups: Vec<Term>) -> Result<Answer, AllocError>
    requires some { 0 < length values.items }
    requires few { length values.items ≤ 1023 }
    requires ground { list_all is_ground groups.items ≡ true }
    requires several { 1 < length groups.items }
    ensures is { (h : Store) → IfOk result (λ answer. (s : Settings) (n : ℕ) → meant h s n answer ≡ Gives (map (against (map (value h) values.items)) groups.items) [] s) }
    ensures there { (h : Store) → AreValues h values.items → IfOk result (IsThere h) }
{
    if u32::try_from(values.len() + groups.len()).is_err() {
        return Err(AllocError);
    }
    Ok(Answer::Groups(values, groups))
}
