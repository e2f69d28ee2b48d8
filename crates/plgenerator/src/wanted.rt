//! What the arguments of a call of sub_atom/5 say of a part.
ghost use Rattle.std.specs.Prelude.{◌≡◌, pos, length, IfOk, IfSome, IfNone};
ghost use Rattle.std.specs.Str.{chars, IsUtf8};
ghost use Rattle.plterm.specs.Tree.{int};
ghost use Rattle.plcells.specs.Store.{value, IsValue};
ghost use Rattle.plgenerator.specs.Wanting.{AreWanted};
ghost use Rattle.plgenerator.specs.Answers.{sought_terms};

use crate::argument::{atom_copied, count_in};
use crate::part::Wanted;
use plcells::cell::Cell;
use plcells::heap::Heap;
use plterm::name::Name;
use std::alloc::AllocError;

/// The arguments of a call of sub_atom/5 behind the atom (ISO/IEC 13211-1 8.16.3), as values: the numbers of characters before a part, in it and
/// behind it, and its text.
#[derive(Clone, Copy)]
pub struct Sought {
    pub before: Cell,
    pub length: Cell,
    pub after: Cell,
    pub text: Cell,
}

/// How many characters a part has to have, if that is known: as many as its text, and else as its number says.
fn wanted_length(heap: &Heap, text: &Option<Name>, v: Cell) -> Option<u64>
    requires { IsValue heap.now v }
    ensures known { IfSome text.now (λ s. IsUtf8 s × IfSome result (λ n. n ≡ length (chars s))) }
    ensures other { IfNone text.now (IfSome result (λ n. value heap.now v ≡ int (pos n))) }
{
    match text {
        Some(name) => Some(name.as_str().chars().count() as u64),
        None => count_in(heap, v),
    }
}

/// What the arguments say of a part.
pub(crate) fn wanted(heap: &Heap, sought: &Sought) -> Result<Wanted, AllocError>
    requires before { IsValue heap.now sought.now.before }
    requires length { IsValue heap.now sought.now.length }
    requires after { IsValue heap.now sought.now.after }
    requires text { IsValue heap.now sought.now.text }
    ensures { IfOk result (AreWanted (sought_terms heap.now sought.now)) }
{
    let before = count_in(heap, sought.before);
    let after = count_in(heap, sought.after);
    let text = atom_copied(heap, sought.text)?;
    let length = wanted_length(heap, &text, sought.length);
    Ok(Wanted {
        before,
        length,
        after,
        text,
    })
}
