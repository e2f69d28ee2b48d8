//! Built-in predicates that put the elements of a list in order (ISO/IEC 13211-1 Cor.2 8.4.3, 8.4.4).
ghost use Rattle.std.specs.Prelude.{◌≡◌, ℕ, map, IfOk};
ghost use Rattle.platoms.specs.Names.{IsTable};
ghost use Rattle.plcells.specs.Store.{term, value, IsBlock, IsValue, AreValues};
ghost use Rattle.plprogram.specs.declared.settings.Settings.{Settings};
ghost use Rattle.plbuiltin.specs.Lists.{Whole};
ghost use Rattle.plbuiltin.specs.Sorting.{on_sorting, in_order as in_order_of, is_pair as is_pair_of, pair_fault as pair_fault_of, pairs_fault as pairs_fault_of};
ghost use Rattle.planswers.specs.Answers.{IsThere, meant};

use planswers::answer::Answer;
use planswers::equation::is_list_of;
use planswers::error::type_error;
use planswers::list::{Checked, whole_list};
use plcells::cell::Cell;
use plcells::heap::Heap;
use plerror::error::instantiation_error;
use plnames::kind::Sorting;
use plorder::compare::Room;
use plorder::shape::{Block, Shape, shape_of};
use plsort::sort::{by_key, set_of, sorted};
use plterm::term::Term;
use std::alloc::{AllocError, Global};

/// What a call of one of them comes to.
pub(crate) fn sorting_answer(
    alloc: Global,
    heap: &Heap,
    b: Sorting,
    args: &[Cell],
) -> Result<Answer, AllocError>
    requires args { AreValues heap.now args.now }
    ensures is { IfOk result (λ answer. (s : Settings) (n : ℕ) → meant heap.now s n answer ≡ on_sorting b (map (value heap.now) args.now) s) }
    ensures there { IfOk result (IsThere heap.now) }
{
    let [list, made] = args else {
        return Ok(Answer::Fails);
    };
    match whole_list(alloc, heap, list)? {
        Checked::Amiss(error) => Ok(Answer::Raises(error)),
        Checked::Whole(items) => in_order(alloc, heap, b, &items, *made),
    }
}

/// A value is unified with the list of others in their order.
fn in_order(
    alloc: Global,
    heap: &Heap,
    b: Sorting,
    items: &[Cell],
    made: Cell,
) -> Result<Answer, AllocError>
    requires items { AreValues heap.now items.now }
    requires made { IsValue heap.now made }
    ensures is { IfOk result (λ answer. (s : Settings) (n : ℕ) → meant heap.now s n answer ≡ in_order_of b (Whole (map (value heap.now) items.now)) (value heap.now made) s) }
    ensures there { IfOk result (IsThere heap.now) }
{
    let mut room = Room::new(alloc);
    let cells = match b {
        Sorting::Once => set_of(alloc, heap, &mut room, items)?,
        Sorting::Each => sorted(alloc, heap, &mut room, items)?,
        Sorting::Keys => match pairs_fault(alloc, heap, items)? {
            Some(error) => return Ok(Answer::Raises(error)),
            None => by_key(alloc, heap, &mut room, items)?,
        },
    };
    is_list_of(alloc, made, &cells)
}

/// The error of the first value that is no pair, if there is one.
fn pairs_fault(alloc: Global, heap: &Heap, items: &[Cell]) -> Result<Option<Term>, AllocError>
    requires { AreValues heap.now items.now }
    ensures { IfOk result (λ fault. fault ≡ pairs_fault_of (map (value heap.now) items.now)) }
{
    for v in items {
        if let Some(error) = pair_fault(alloc, heap, *v)? {
            return Ok(Some(error));
        }
    }
    Ok(None)
}

/// The error of a value that is no pair `K-V` (8.4.4.3).
fn pair_fault(alloc: Global, heap: &Heap, v: Cell) -> Result<Option<Term>, AllocError>
    requires { IsValue heap.now v }
    ensures { IfOk result (λ fault. fault ≡ pair_fault_of (value heap.now v)) }
{
    match shape_of(heap, &v) {
        Shape::Variable(_) => Ok(Some(instantiation_error(alloc)?)),
        Shape::Compound(block) if is_pair(heap, block) => Ok(None),
        _ => Ok(Some(type_error(alloc, heap, "pair", v)?)),
    }
}

/// Whether a compound is `K-V`.
fn is_pair(heap: &Heap, block: Block) -> bool
    requires names { IsTable heap.now.names }
    requires block { IsBlock heap.now block.place block.functor block.arity }
    ensures { result ≡ is_pair_of (term heap.now block.place) }
{
    let functor = heap.names().functor_of(block.functor);
    block.arity == 2 && heap.names().atom_name(functor.name).as_str() == "-"
}
