//! The next answer.
ghost use Rattle.std.specs.Prelude.{◌≡◌, [], ◌∷◌, option_map, IfOk, IfSome, IfNone};
ghost use Rattle.plcells.specs.Store.{value, IsValue, AreValues};
ghost use Rattle.plgenerator.specs.Fitting.{fitting};
ghost use Rattle.plgenerator.specs.Answers.{left, IsRemaining, Finds};

use crate::argument::{atom_in, text_of};
use crate::equation::{part_name, split_equation};
use crate::group::next_group;
use crate::part::{first_part, part_after};
use crate::split::first_split;
use crate::turn::{Part, Remaining, Split};
use crate::wanted::{Sought, wanted};
use plcells::cell::Cell;
use plcells::equation::Equation;
use plcells::heap::Heap;
use plterm::name::Name;
use std::alloc::{AllocError, Global};

/// A part of an atom, and its text.
#[derive(Drop)]
pub struct Piece {
    pub part: Part,
    pub text: Name,
}

/// What is to be unified in an answer.
#[derive(Drop)]
pub enum Sides {
    /// The two terms of an equation; no variable is new.
    Terms(Equation),
    /// What is sought of a part, with the numbers of characters before it, in it and behind it, and with the atom of its text.
    Part(Sought, Piece),
}

/// An answer, and those behind it.
#[derive(Drop)]
pub struct Found {
    /// What is to be unified.
    pub sides: Sides,
    /// The answers behind it, if there are any.
    pub rest: Option<Remaining>,
}

/// The turn of a part.
fn part_turn(part: Option<Part>) -> Option<Remaining>
    ensures { result ≡ option_map Remaining.Part part }
{
    match part {
        Some(part) => Some(Remaining::Part(part)),
        None => None,
    }
}

/// The turn of a way to divide a text.
fn split_turn(split: Option<Split>) -> Option<Remaining>
    ensures { result ≡ option_map Remaining.Split split }
{
    match split {
        Some(split) => Some(Remaining::Split(split)),
        None => None,
    }
}

/// The next answer of sub_atom/5 (8.16.3), whose parts are those of the atom of a value.
fn next_part(
    alloc: Global,
    heap: &Heap,
    atom: Cell,
    sought: Sought,
    part: Part,
) -> Result<Option<Found>, AllocError>
    requires atom { IsValue heap.now atom }
    requires before { IsValue heap.now sought.before }
    requires length { IsValue heap.now sought.length }
    requires after { IsValue heap.now sought.after }
    requires text { IsValue heap.now sought.text }
    requires turn { IsRemaining heap.now (atom ∷ sought.before ∷ sought.length ∷ sought.after ∷ sought.text ∷ []) (Remaining.Part part) }
    ensures some { IfOk result (λ o. IfSome o (Finds heap.now (atom ∷ sought.before ∷ sought.length ∷ sought.after ∷ sought.text ∷ []) (Remaining.Part part))) }
    ensures none { IfOk result (λ o. IfNone o (fitting (left heap.now (atom ∷ sought.before ∷ sought.length ∷ sought.after ∷ sought.text ∷ []) (Remaining.Part part)) ≡ [])) }
{
    let Some(name) = atom_in(heap, atom) else {
        return Ok(None);
    };
    let text = name.as_str();
    let wanted = wanted(heap, &sought)?;
    let Some(part) = first_part(&wanted, text, part) else {
        return Ok(None);
    };
    let piece = Piece {
        part,
        text: part_name(alloc, text, part)?,
    };
    let rest = part_turn(part_after(&wanted, text, part));
    let sides = Sides::Part(sought, piece);
    Ok(Some(Found { sides, rest }))
}

/// The next answer of atom_concat/3 (8.16.2), whose third argument is divided.
fn next_split(
    alloc: Global,
    heap: &Heap,
    sides: (Cell, Cell),
    whole: Cell,
    split: Split,
) -> Result<Option<Found>, AllocError>
    requires front { IsValue heap.now sides.0 }
    requires back { IsValue heap.now sides.1 }
    requires whole { IsValue heap.now whole }
    requires turn { IsRemaining heap.now (sides.0 ∷ sides.1 ∷ whole ∷ []) (Remaining.Split split) }
    ensures some { IfOk result (λ o. IfSome o (Finds heap.now (sides.0 ∷ sides.1 ∷ whole ∷ []) (Remaining.Split split))) }
    ensures none { IfOk result (λ o. IfNone o (fitting (left heap.now (sides.0 ∷ sides.1 ∷ whole ∷ []) (Remaining.Split split)) ≡ [])) }
{
    let Some(name) = text_of(alloc, heap, whole)? else {
        return Ok(None);
    };
    let front = text_of(alloc, heap, sides.0)?;
    let back = text_of(alloc, heap, sides.1)?;
    let text = name.as_str();
    let Some((split, rest)) = first_split(text, &front, &back, split) else {
        return Ok(None);
    };
    let equation = split_equation(alloc, heap, sides, text, split)?;
    let rest = split_turn(rest);
    let sides = Sides::Terms(equation);
    Ok(Some(Found { sides, rest }))
}

/// The next of the answers that are left which may fit (ISO/IEC 13211-1 8.14.4, 8.16.2, 8.16.3, 8.17.2): it is to be unified, and where it has no
/// unifier, those behind it are asked. Those passed over have none. The cost is that of making the answer, and of passing over; no name, term or
/// cell stays.
pub fn next(
    alloc: Global,
    heap: &Heap,
    args: &[Cell],
    turn: Remaining,
) -> Result<Option<Found>, AllocError>
    requires args { AreValues heap.now args.now }
    requires turn { IsRemaining heap.now args.now turn }
    ensures some { IfOk result (λ o. IfSome o (Finds heap.now args.now turn)) }
    ensures none { IfOk result (λ o. IfNone o (fitting (left heap.now args.now turn) ≡ [])) }
{
    match (turn, args) {
        (Remaining::Part(part), [atom, before, length, after, text]) => {
            let sought = Sought {
                before: *before,
                length: *length,
                after: *after,
                text: *text,
            };
            next_part(alloc, heap, *atom, sought, part)
        }
        (Remaining::Split(split), [front, back, whole]) => {
            next_split(alloc, heap, (*front, *back), *whole, split)
        }
        (Remaining::Groups(groups), _) => next_group(alloc, args, groups),
        _ => Ok(None),
    }
}
