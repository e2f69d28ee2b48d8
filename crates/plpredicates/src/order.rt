//! Built-in predicates that compare terms (ISO/IEC 13211-1 8.4), and ground/1 (8.3.10).
ghost use Rattle.std.specs.Prelude.{◌≡◌, ℕ, [], ◌∷◌, IfOk, map};
ghost use Rattle.plterm.specs.Order.{order};
ghost use Rattle.plterm.specs.Tree.{atom};
ghost use Rattle.plcells.specs.Store.{Store, value, IsValue, AreValues};
ghost use Rattle.plprogram.specs.declared.settings.Settings.{Settings};
ghost use Rattle.plbuiltin.specs.Solution.{decides, unifies};
ghost use Rattle.plbuiltin.specs.Order.{compare as compare_of, is_sign, on_order, sign, stand};
ghost use Rattle.planswers.specs.Answers.{IsThere, meant};

use planswers::answer::Answer;
use planswers::equation::is_term;
use planswers::error::{outside, wrong_type};
use plcells::cell::Cell;
use plcells::heap::Heap;
use plerror::error::atom;
use plnames::kind::{Order, Relation};
use plorder::compare::{Room, compare};
use plorder::shape::{Shape, shape_of};
use plorder::variables::is_ground;
use plterm::name::Name;
use std::alloc::{AllocError, Global};
use std::cmp::Ordering;

/// What a call of one of them comes to.
pub(crate) fn order_answer(
    alloc: Global,
    heap: &Heap,
    b: Order,
    args: &[Cell],
) -> Result<Answer, AllocError>
    requires args { AreValues heap.now args.now }
    ensures is { IfOk result (λ answer. (s : Settings) (n : ℕ) → meant heap.now s n answer ≡ on_order b (map (value heap.now) args.now) s) }
    ensures there { IfOk result (IsThere heap.now) }
{
    match (b, args) {
        (Order::Holds(relation), [a, b]) => {
            let order = compare(heap, &mut Room::new(alloc), *a, *b)?;
            Ok(decided(stand(relation, order)))
        }
        (Order::Ground, [v]) => {
            let mut work = Vec::new(alloc);
            Ok(decided(is_ground(heap, &mut work, *v)?))
        }
        (Order::Compare, [o, a, b]) => compare_answer(alloc, heap, *o, *a, *b),
        _ => Ok(Answer::Fails),
    }
}

/// True, or a failure.
fn decided(holds: bool) -> Answer
    ensures is { (h : Store) (s : Settings) (n : ℕ) → meant h s n result ≡ decides holds s }
    ensures there { (h : Store) → IsThere h result }
{
    if holds {
        Answer::Succeeds
    } else {
        Answer::Fails
    }
}

/// Whether two terms of an order stand so.
fn stand(relation: Relation, order: Ordering) -> bool
    ensures { result ≡ stand relation order }
{
    match relation {
        Relation::Same => order.is_eq(),
        Relation::Different => order.is_ne(),
        Relation::Before => order.is_lt(),
        Relation::NotAfter => order.is_le(),
        Relation::After => order.is_gt(),
        Relation::NotBefore => order.is_ge(),
    }
}

/// An order as compare/3 names it.
fn sign_of(order: Ordering) -> &'static str
    ensures { result.now ≡ sign order }
{
    match order {
        Ordering::Less => "<",
        Ordering::Equal => "=",
        Ordering::Greater => ">",
    }
}

/// Whether a name is that of an order.
fn is_sign(name: &Name) -> bool
    ensures { result ≡ is_sign name.now }
{
    let text = name.as_str();
    text == "<" || text == "=" || text == ">"
}

/// The order of two values is unified with a value.
fn ordered(alloc: Global, heap: &Heap, o: Cell, a: Cell, b: Cell) -> Result<Answer, AllocError>
    requires order { IsValue heap.now o }
    requires left { IsValue heap.now a }
    requires right { IsValue heap.now b }
    ensures is { IfOk result (λ answer. (s : Settings) (n : ℕ) → meant heap.now s n answer ≡ unifies (value heap.now o) (atom (sign (order (value heap.now a) (value heap.now b)))) s) }
    ensures there { IfOk result (IsThere heap.now) }
{
    let order = compare(heap, &mut Room::new(alloc), a, b)?;
    is_term(alloc, o, atom(alloc, sign_of(order))?)
}

/// compare/3 (8.4.2).
fn compare_answer(
    alloc: Global,
    heap: &Heap,
    o: Cell,
    a: Cell,
    b: Cell,
) -> Result<Answer, AllocError>
    requires order { IsValue heap.now o }
    requires left { IsValue heap.now a }
    requires right { IsValue heap.now b }
    ensures is { IfOk result (λ answer. (s : Settings) (n : ℕ) → meant heap.now s n answer ≡ compare_of (value heap.now o ∷ value heap.now a ∷ value heap.now b ∷ []) s) }
    ensures there { IfOk result (IsThere heap.now) }
{
    match shape_of(heap, &o) {
        Shape::Variable(_) => ordered(alloc, heap, o, a, b),
        Shape::Atom(name) if is_sign(heap.names().atom_name(name)) => ordered(alloc, heap, o, a, b),
        Shape::Atom(_) => outside(alloc, heap, "order", o),
        _ => wrong_type(alloc, heap, "atom", o),
    }
}
