//! Answers as equations: what the arguments of a call are unified with.
ghost use Rattle.std.specs.Prelude.{◌≡◌, ◌<◌, ◌≤◌, ℕ, suc, [], ◌∷◌, length, take, drop, IfOk};
ghost use Rattle.std.specs.Str.{chars, encode_utf8_all};
ghost use Rattle.plterm.specs.Reading.{IsName};
ghost use Rattle.plterm.specs.Tree.{Tree, atom};
ghost use Rattle.plterm.specs.Variables.{AllBelow};
ghost use Rattle.plsubst.specs.Subst.{bind};
ghost use Rattle.plcells.specs.Store.{Store, value, IsValue};
ghost use Rattle.plcells.specs.Equations.{IsEquation};
ghost use Rattle.plbuiltin.specs.Solution.{together as tuple};
ghost use Rattle.plbuiltin.specs.Pieces.{part as part_of, split as split_of, as_text};
ghost use Rattle.plgenerator.specs.Turns.{IsPart, IsSplit};
ghost use Rattle.plgenerator.specs.Alone.{alone, IsAlone};
ghost use Rattle.plgenerator.specs.Answers.{solution_of, sought_terms};

use crate::text::{behind, divided};
use crate::turn::{Part, Split};
use crate::wanted::Sought;
use itoa::Buffer;
use plcells::cell::Cell;
use plcells::equation::Equation;
use plcells::heap::Heap;
use plorder::shape::{Shape, shape_of};
use plterm::name::Name;
use plterm::node::Node;
use plterm::term::Term;
use std::alloc::{AllocError, Global};

/// Several terms at once.
pub fn together(alloc: Global, terms: Vec<Term>) -> Result<Term, AllocError>
    requires some { 0 < length terms.items }
    requires few { length terms.items ≤ 1024 }
    ensures { IfOk result (λ t. t ≡ tuple terms.items) }
{
    let name = Name::new(alloc, "-")?;
    match Term::compound(alloc, name, terms) {
        Ok(term) => Ok(term),
        Err(_) => Err(AllocError),
    }
}

/// The atom of a text. An `Err` comes for want of memory, and where the text has more than 65,535 bytes.
fn atom(alloc: Global, text: &str) -> Result<Term, AllocError>
    ensures { IfOk result (λ t. t ≡ atom text.now) }
{
    let name = Name::new(alloc, text)?;
    match Term::atom(alloc, name) {
        Ok(term) => Ok(term),
        Err(_) => Err(AllocError),
    }
}

/// What stands for the term of a value that is variable x: the atom of its text where it is an integer.
fn side(alloc: Global, heap: &Heap, v: Cell, x: u64) -> Result<Term, AllocError>
    requires { IsValue heap.now v }
    ensures is { (σ : ℕ → Tree) → σ x ≡ value heap.now v → IfOk result (λ t. bind σ t ≡ as_text (value heap.now v)) }
    ensures below { (n : ℕ) → x < n → IfOk result (AllBelow n) }
{
    match shape_of(heap, &v) {
        Shape::Integer(i) => {
            let mut buffer = Buffer::new();
            atom(alloc, buffer.format(i))
        }
        _ => Term::var(alloc, x),
    }
}

/// Four terms at once, each of one node.
fn four(
    alloc: Global,
    first: Node,
    second: Node,
    third: Node,
    fourth: Node,
) -> Result<Term, AllocError>
    requires first { IsAlone first }
    requires second { IsAlone second }
    requires third { IsAlone third }
    requires fourth { IsAlone fourth }
    ensures { IfOk result (λ t. t ≡ tuple (alone first ∷ alone second ∷ alone third ∷ alone fourth ∷ [])) }
{
    let name = Name::new(alloc, "-")?;
    let nodes = vec![in alloc; Node::Compound(name, 4), first, second, third, fourth]?;
    Ok(Term::from_prefix(nodes))
}

/// The name of a text. An `Err` comes for want of memory, and where the text has more than 65,535 bytes.
fn short_name(alloc: Global, text: &str) -> Result<Name, AllocError>
    ensures is { IfOk result (λ name. name ≡ text.now) }
    ensures name { IfOk result IsName }
{
    let name = Name::new(alloc, text)?;
    if name.len() > 65535 {
        return Err(AllocError);
    }
    Ok(name)
}

/// The text of a part, as a name of its own.
pub(crate) fn part_name(alloc: Global, text: &str, part: Part) -> Result<Name, AllocError>
    requires { IsPart (chars text.now) part }
    ensures is { IfOk result (λ name. name ≡ encode_utf8_all (take part.length (drop part.offset.characters (chars text.now)))) }
    ensures name { IfOk result IsName }
{
    let (front, _) = divided(behind(text, part.offset), part.length);
    short_name(alloc, front)
}

/// What the values are unified with: the numbers of characters before a part, in it and behind it, and its text.
fn part_term(alloc: Global, text: &str, part: Part) -> Result<Term, AllocError>
    requires { IsPart (chars text.now) part }
    ensures { IfOk result (λ t. t ≡ (part_of (chars text.now) [] part.offset.characters part.length part.after).right) }
{
    let name = part_name(alloc, text, part)?;
    let before = Node::Int(part.offset.characters.into());
    let length = Node::Int(part.length.into());
    let after = Node::Int(part.after.into());
    four(alloc, before, length, after, Node::Atom(name))
}

/// The answer that a part of an atom is: its arguments behind the atom are unified with the numbers of characters before the part, in it and
/// behind it, and with its text (ISO/IEC 13211-1 8.16.3).
pub fn part_equation(
    alloc: Global,
    sought: Sought,
    text: &str,
    part: Part,
) -> Result<Equation, AllocError>
    requires { IsPart (chars text.now) part }
    ensures is { (h : Store) (n : ℕ) → IfOk result (λ e. solution_of h n e ≡ part_of (chars text.now) (sought_terms h sought) part.offset.characters part.length part.after) }
    ensures there { (h : Store) → IsValue h sought.before → IsValue h sought.length → IsValue h sought.after → IsValue h sought.text → IfOk result (IsEquation h) }
{
    let right = part_term(alloc, text, part)?;
    let left = four(
        alloc,
        Node::Var(0),
        Node::Var(1),
        Node::Var(2),
        Node::Var(3),
    )?;
    let values = vec![in alloc; sought.before, sought.length, sought.after, sought.text]?;
    Ok(Equation {
        left,
        right,
        values,
        new: 0,
    })
}

/// The answer that a way to divide a text is: two arguments, where an integer stands for its text, are unified with the front and the back
/// (ISO/IEC 13211-1 8.16.2).
pub fn split_equation(
    alloc: Global,
    heap: &Heap,
    sides: (Cell, Cell),
    text: &str,
    split: Split,
) -> Result<Equation, AllocError>
    requires front { IsValue heap.now sides.0 }
    requires back { IsValue heap.now sides.1 }
    requires split { IsSplit (chars text.now) split }
    ensures is { (n : ℕ) → IfOk result (λ e. solution_of heap.now n e ≡ split_of (chars text.now) (as_text (value heap.now sides.0) ∷ as_text (value heap.now sides.1) ∷ []) split.offset.characters) }
    ensures there { IfOk result (IsEquation heap.now) }
{
    let (front, back) = text.split_at(split.offset.bytes as usize);
    let front = atom(alloc, front)?;
    let back = atom(alloc, back)?;
    let right = together(alloc, vec![in alloc; front, back]?)?;
    let first = side(alloc, heap, sides.0, 0)?;
    let second = side(alloc, heap, sides.1, 1)?;
    let left = together(alloc, vec![in alloc; first, second]?)?;
    let values = vec![in alloc; sides.0, sides.1]?;
    Ok(Equation {
        left,
        right,
        values,
        new: 0,
    })
}
