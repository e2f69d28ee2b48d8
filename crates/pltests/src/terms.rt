//! Terms (plterm).
ghost use Rattle.std.specs.Prelude.{◌≡◌, length, OnOk};

use plterm::builder::Builder;
use plterm::error::TermError;
use plterm::indicator::Indicator;
use plterm::name::Name;
use plterm::node::Node;
use plterm::numbers::Numbers;
use plterm::term::Term;
use plterm::walk::{Shape, TermRef, Terms};
use std::alloc::{AllocError, Global};
use std::cmp::Ordering;
use std::test::Fail;

/// Adds a variable.
fn push_variable(alloc: Global, args: &mut Vec<Term>, number: u64) -> Result<(), TermError> {
    args.push(Term::var(alloc, number)?)?;
    Ok(())
}

/// Adds a variable, the atom a and another variable.
fn push_args(alloc: Global, args: &mut Vec<Term>, x: u64, y: u64) -> Result<(), TermError> {
    push_variable(alloc, args, x)?;
    args.push(Term::atom(alloc, Name::new(alloc, "a")?)?)?;
    push_variable(alloc, args, y)
}

/// The term f(X, a, Y), where the variables have these numbers.
pub fn triple(alloc: Global, x: u64, y: u64) -> Result<Term, TermError> {
    let mut args = Vec::new(alloc);
    push_args(alloc, &mut args, x, y)?;
    Term::compound(alloc, Name::new(alloc, "f")?, args)
}

/// Adds the nodes of the same term, each compound behind its arguments.
fn push_nodes(alloc: Global, builder: &mut Builder, x: u64, y: u64) -> Result<(), AllocError>
    requires { length builder.old ≡ 0 }
    ensures { OnOk result (length builder.new ≡ 1) }
{
    builder.push(Node::Var(x))?;
    builder.push(Node::Atom(Name::new(alloc, "a")?))?;
    builder.push(Node::Var(y))?;
    builder.push(Node::Compound(Name::new(alloc, "f")?, 3))
}

/// Whether a term is f(V7, a, V3) as it is built from its nodes.
fn is_built(alloc: Global, term: &Term) -> Result<bool, AllocError> {
    let mut builder = Builder::new(alloc);
    push_nodes(alloc, &mut builder, 7, 3)?;
    let built = builder.finish(alloc)?;
    Ok(term.is_same(&built))
}

/// Whether a term is the same as its copy.
fn is_copied(alloc: Global, term: &Term) -> Result<bool, AllocError> {
    let copied = term.copied(alloc)?;
    Ok(term.is_same(&copied))
}

/// Whether a term is the one with these variables, and a variant of it.
pub fn compared(alloc: Global, term: &Term, x: u64, y: u64) -> Result<(bool, bool), TermError> {
    let other = triple(alloc, x, y)?;
    Ok((term.is_same(&other), term.is_variant(alloc, &other)?))
}

/// Whether a term is f(V10, a, V11), and its variables are 10 and 11.
fn is_from_ten(alloc: Global, term: &Term) -> Result<bool, TermError> {
    let (same, _) = compared(alloc, term, 10, 11)?;
    let variables = term.variables(alloc)?;
    Ok(same && variables.as_slice() == [10, 11].as_slice())
}

/// The same of a term's copy from 10.
fn is_copied_from_ten(alloc: Global, term: &Term) -> Result<bool, TermError> {
    let copy = term.copy(alloc, 10)?;
    is_from_ten(alloc, &copy)
}

/// Whether the numbers are 3 and 7.
fn are_seen(seen: Numbers) -> bool {
    let count = seen.count();
    let order = seen.into_order();
    count == 2 && order.as_slice() == [3, 7].as_slice()
}

/// Whether a term with the places of its variables' numbers in place of these is f(V1, a, V0), where 3 was met before.
fn is_numbered(alloc: Global, term: &Term) -> Result<bool, TermError> {
    let mut seen = Numbers::new(alloc);
    let place = seen.place_of(3)?;
    let (numbered, seen) = term.root().numbered(alloc, seen)?;
    let are_seen = are_seen(seen);
    let (same, _) = compared(alloc, &numbered, 1, 0)?;
    Ok(place == 0 && same && are_seen)
}

/// Whether the copy of a term is the atom a.
fn is_a(alloc: Global, term: TermRef<'_>) -> Result<bool, AllocError> {
    let copied = term.copied(alloc)?;
    Ok(match copied.root().shape() {
        Shape::Atom(name) => name.as_str() == "a",
        Shape::Var(_) | Shape::Int(_) | Shape::Compound(_, _) => false,
    })
}

/// Whether the arguments are three, the second is the atom a, and the third is entered as a term without arguments.
fn are_as_made(alloc: Global, mut args: Terms<'_>) -> Result<bool, Fail> {
    let count = args.len();
    let _first = args.next_term();
    let second = args.next_term().ok_or("two arguments")?;
    let is_entered = args.enter().is_some();
    Ok(count == 3 && is_a(alloc, second)? && is_entered && args.is_empty())
}

/// Whether a term has the name f, and these arguments.
fn has_shape(alloc: Global, term: &Term) -> Result<bool, Fail> {
    match term.root().shape() {
        Shape::Compound(name, args) => Ok(name.as_str() == "f" && are_as_made(alloc, args)?),
        Shape::Var(_) | Shape::Int(_) | Shape::Atom(_) => Ok(false),
    }
}

/// The term of the nodes that a walk through a term adds, and that of its nodes as they are held.
fn by_nodes(alloc: Global, term: &Term) -> Result<(Term, Term), AllocError> {
    let mut nodes = Vec::new(alloc);
    let mut terms = term.root().alone();
    terms.copy_nodes(1, &mut nodes)?;
    let held = TermRef::of(term.nodes()).copied(alloc)?;
    Ok((Term::from_prefix(nodes), held))
}

/// Whether both are the term again.
fn is_of_nodes(alloc: Global, term: &Term) -> Result<bool, AllocError> {
    let (walked, held) = by_nodes(alloc, term)?;
    Ok(term.is_same(&walked) && term.is_same(&held))
}

/// Adds the nodes of the first two arguments, and gives how many are left.
fn add_two(term: &Term, nodes: &mut Vec<Node>) -> Result<usize, Fail> {
    match term.root().shape() {
        Shape::Compound(_, mut args) if args.len() >= 2 => {
            args.copy_nodes(2, nodes)?;
            Ok(args.len())
        }
        _ => Err("fewer than two arguments".into()),
    }
}

/// Whether the first two arguments have a node each, and a third is left.
fn has_nodes(alloc: Global, term: &Term) -> Result<bool, Fail> {
    let mut nodes = Vec::new(alloc);
    let left = add_two(term, &mut nodes)?;
    Ok(left == 1 && matches!(nodes.as_slice(), [Node::Var(7), Node::Atom(_)]))
}

/// What is not so of the parts of f(V7, a, V3), the first of it, or "nothing".
fn first_false_of_parts(alloc: Global, term: &Term) -> Result<&'static str, Fail> {
    Ok(if !has_shape(alloc, term)? {
        "it has a name and arguments"
    } else if !is_of_nodes(alloc, term)? {
        "it is the term of its nodes"
    } else if !has_nodes(alloc, term)? {
        "its arguments have nodes"
    } else if term.root().alone().len() != 1 || term.is_ground() {
        "it stands alone, and a variable in it"
    } else {
        "nothing"
    })
}

/// The same of f(V7, a, V3) beside other terms, and of its parts.
fn first_false(alloc: Global, term: &Term) -> Result<&'static str, Fail> {
    Ok(if !is_built(alloc, term)? {
        "it is built from its nodes"
    } else if !is_copied(alloc, term)? {
        "it is the same as its copy"
    } else if compared(alloc, term, 7, 7)? != (false, false) {
        "f(V7, a, V7) is another one"
    } else if compared(alloc, term, 3, 7)? != (false, true) {
        "f(V3, a, V7) is a variant"
    } else if !is_copied_from_ten(alloc, term)? {
        "its copy from 10 is f(V10, a, V11)"
    } else if !is_numbered(alloc, term)? {
        "numbers have places as they are met"
    } else {
        first_false_of_parts(alloc, term)?
    })
}

#[test]
fn terms_made_and_compared(rt: HostRuntime) -> Result<(), Fail> {
    let term = triple(rt.alloc(), 7, 3)?;
    assert_eq!(rt; first_false(rt.alloc(), &term)?, "nothing");
    Ok(())
}

/// A term, by its parts.
enum Parts {
    Var(u64),
    Int(i64),
    Atom(&'static str),
    /// A compound of so many times this integer.
    Compound(&'static str, usize, i64),
}

/// Adds so many times an integer.
fn push_integers(
    alloc: Global,
    args: &mut Vec<Term>,
    count: usize,
    value: i64,
) -> Result<(), TermError> {
    for _ in 0..count {
        args.push(Term::int(alloc, value)?)?;
    }
    Ok(())
}

/// The compound of so many times an integer.
fn compound(alloc: Global, name: &str, count: usize, value: i64) -> Result<Term, TermError> {
    let mut args = Vec::new(alloc);
    push_integers(alloc, &mut args, count, value)?;
    Term::compound(alloc, Name::new(alloc, name)?, args)
}

/// The term of these parts.
fn of_parts(alloc: Global, parts: &Parts) -> Result<Term, TermError> {
    match parts {
        Parts::Var(number) => Ok(Term::var(alloc, *number)?),
        Parts::Int(value) => Ok(Term::int(alloc, *value)?),
        Parts::Atom(name) => Term::atom(alloc, Name::new(alloc, name)?),
        Parts::Compound(name, count, value) => compound(alloc, name, *count, *value),
    }
}

/// Two terms, and how the first stands to the second.
type TermRow = (Parts, Parts, Ordering);

/// Variables stand before integers, these before atoms, and these before compounds, which stand by their arity, then their
/// name, and then their arguments (7.2).
const TERMS: [&[TermRow]; 2] = [
    &[
        (Parts::Var(2), Parts::Var(10), Ordering::Less),
        (Parts::Var(10), Parts::Int(-1), Ordering::Less),
        (Parts::Int(-1), Parts::Int(-1), Ordering::Equal),
        (Parts::Int(-1), Parts::Int(0), Ordering::Less),
        (Parts::Int(-1), Parts::Int(1), Ordering::Less),
        (Parts::Int(9), Parts::Atom(""), Ordering::Less),
        (Parts::Atom("b"), Parts::Atom("ab"), Ordering::Greater),
    ],
    &[
        (Parts::Atom("z"), Parts::Compound("a", 1, 0), Ordering::Less),
        (
            Parts::Compound("b", 1, 9),
            Parts::Compound("a", 2, 0),
            Ordering::Less,
        ),
        (
            Parts::Compound("b", 2, 0),
            Parts::Compound("a", 2, 9),
            Ordering::Greater,
        ),
        (
            Parts::Compound("a", 2, 9),
            Parts::Compound("a", 2, 0),
            Ordering::Greater,
        ),
        (
            Parts::Compound("a", 2, 9),
            Parts::Compound("a", 2, 9),
            Ordering::Equal,
        ),
        (Parts::Compound("a", 1, 9), Parts::Int(9), Ordering::Greater),
    ],
];

/// Whether a term stands so to the one of these parts, and is the same where they are equal.
fn stands_so(
    alloc: Global,
    left: &Term,
    right: &Parts,
    order: Ordering,
) -> Result<bool, TermError> {
    let right = of_parts(alloc, right)?;
    Ok(left.compare(&right) == order && left.is_same(&right) == (order == Ordering::Equal))
}

/// The same of the terms of a row.
fn is_row(alloc: Global, row: &TermRow) -> Result<bool, TermError> {
    let (left, right, order) = row;
    let left = of_parts(alloc, left)?;
    stands_so(alloc, &left, right, *order)
}

/// The place of the first row of which that is not so.
fn first_wrong(alloc: Global, rows: &[TermRow]) -> Result<Option<usize>, TermError> {
    for (place, row) in rows.iter().enumerate() {
        if !is_row(alloc, row)? {
            return Ok(Some(place));
        }
    }
    Ok(None)
}

#[test]
fn order_of_terms(rt: HostRuntime) -> Result<(), Fail> {
    for rows in TERMS {
        assert_eq!(rt; first_wrong(rt.alloc(), rows)?, None);
    }
    Ok(())
}

/// Two names, and how the first stands to the second.
type NameRow = (&'static str, &'static str, Ordering);

/// Names stand by their characters, of which those past ASCII stand behind the others (7.2).
const NAMES: [NameRow; 7] = [
    ("a", "a", Ordering::Equal),
    ("a", "b", Ordering::Less),
    ("ab", "a", Ordering::Greater),
    ("", "a", Ordering::Less),
    ("Z", "a", Ordering::Less),
    ("é", "z", Ordering::Greater),
    ("p", "q", Ordering::Less),
];

/// Whether a name stands so to another one, and is the same where they are equal.
fn are_ordered(alloc: Global, row: &NameRow) -> Result<bool, AllocError> {
    let (left, right, order) = *row;
    let left = Name::new(alloc, left)?;
    let right = Name::new(alloc, right)?;
    Ok(left.compare(&right) == order && left.is_same(&right) == (order == Ordering::Equal))
}

#[test]
fn order_of_names(rt: HostRuntime) -> Result<(), Fail> {
    for row in NAMES.iter() {
        assert!(rt; are_ordered(rt.alloc(), row)?, "{} {}", row.0, row.1);
    }
    Ok(())
}

/// Whether a compound without arguments is refused, and an empty name is not.
fn are_limits(alloc: Global) -> Result<bool, AllocError> {
    let empty = Name::new(alloc, "")?;
    let made = Term::compound(alloc, Name::new(alloc, "f")?, Vec::new(alloc));
    Ok(matches!(made, Err(TermError::Arity)) && empty.is_empty())
}

/// Whether the node of f/3 has three arguments and a name of one byte, and a variable neither.
fn are_measured(alloc: Global) -> Result<bool, AllocError> {
    let node = Node::Compound(Name::new(alloc, "f")?, 3);
    let variable = Node::Var(7);
    Ok(
        (node.arity(), node.name_len()) == (3, 1)
            && (variable.arity(), variable.name_len()) == (0, 0),
    )
}

/// The indicator of this name and this arity.
pub fn indicator(alloc: Global, name: &str, arity: u16) -> Result<Indicator, AllocError> {
    let name = Name::new(alloc, name)?;
    Ok(Indicator { name, arity })
}

/// Whether p/2 is the one of this name and this arity.
fn is_p2(alloc: Global, p2: &Indicator, name: &str, arity: u16) -> Result<bool, AllocError> {
    let other = indicator(alloc, name, arity)?;
    Ok(p2.is_same(&other))
}

/// Whether an indicator is the same as its copy, and as the one of a copy of its name.
fn is_copied_indicator(indicator: &Indicator) -> Result<bool, AllocError> {
    let name = indicator.name.copied()?;
    let arity = indicator.arity;
    let copied = indicator.copied()?;
    Ok(copied.is_same(indicator) && copied.is_same(&Indicator { name, arity }))
}

// A compound has arguments, a name may be empty, and no variable stands in g(1, 1).
#[test]
fn compounds(rt: HostRuntime) -> Result<(), Fail> {
    let alloc = rt.alloc();
    let closed = compound(alloc, "g", 2, 1)?;
    assert!(rt; closed.is_ground() && are_limits(alloc)? && are_measured(alloc)?);
    Ok(())
}

// p/2 is itself, and neither p/1 nor q/2.
#[test]
fn indicators(rt: HostRuntime) -> Result<(), Fail> {
    let alloc = rt.alloc();
    let p2 = indicator(alloc, "p", 2)?;
    assert!(rt;
        is_copied_indicator(&p2)? && !is_p2(alloc, &p2, "p", 1)? && !is_p2(alloc, &p2, "q", 2)?
    );
    Ok(())
}
