//! Lists among the terms of complete operands (6.3.5).
ghost use Rattle.std.specs.Prelude.{◌≡◌, ◌<◌, ◌≤◌, ◌∷◌, length, map, IfOk, OnOk};
ghost use Rattle.std.specs.Char.{encode_utf8};
ghost use Rattle.std.specs.Str.{chars};
ghost use Rattle.plterm.specs.Tree.{atom};
ghost use Rattle.plterm.specs.Building.{IsWithinLimits};
ghost use Rattle.plread.specs.Texts.{nil, listed, code_tree, char_tree};
ghost use Rattle.plread.specs.Machine.{with_tail};

use crate::words::Words;
use plterm::builder::Builder;
use plterm::name::Name;
use plterm::node::Node;
use std::alloc::{AllocError, Global};

/// Makes a list of the latest terms: the latest is the tail of so many before it.
pub fn join(alloc: Global, words: &Words, terms: &mut Builder, count: u64) -> Result<(), AllocError>
    requires { count < length terms.old }
    ensures { OnOk result (terms.new ≡ with_tail count terms.old) }
{
    'cells: for _ in 0..count {
        let cell = words.name(alloc, words.dot())?;
        terms.push(Node::Compound(cell, 2))?;
    }
    Ok(())
}

/// Closes a list of the latest terms, which has so many elements.
pub fn close(
    alloc: Global,
    words: &Words,
    terms: &mut Builder,
    count: u64,
) -> Result<(), AllocError>
    requires { count ≤ length terms.old }
    ensures { OnOk result (terms.new ≡ with_tail count (atom nil ∷ terms.old)) }
{
    let end = words.name(alloc, words.nil())?;
    terms.push(Node::Atom(end))?;
    join(alloc, words, terms, count)
}

/// Adds the list of the codes of a text's characters.
pub fn push_codes(
    alloc: Global,
    words: &Words,
    terms: &mut Builder,
    text: &str,
) -> Result<(), AllocError>
    ensures { OnOk result (terms.new ≡ listed (map code_tree (chars text.now)) ∷ terms.old) }
{
    for c in text.chars() {
        terms.push(Node::Int(i64::from(u32::from(c))))?;
    }
    close(alloc, words, terms, text.chars().count() as u64)
}

/// Adds the list of a text's characters as atoms.
pub fn push_chars(
    alloc: Global,
    words: &Words,
    terms: &mut Builder,
    text: &str,
) -> Result<(), AllocError>
    ensures { OnOk result (terms.new ≡ listed (map char_tree (chars text.now)) ∷ terms.old) }
{
    for c in text.chars() {
        terms.push(one_character(alloc, c)?)?;
    }
    close(alloc, words, terms, text.chars().count() as u64)
}

/// The atom of a character.
fn one_character(alloc: Global, c: char) -> Result<Node, AllocError>
    ensures value { IfOk result (λ node. node ≡ Node.Atom (encode_utf8 c)) }
    ensures limits { IfOk result IsWithinLimits }
{
    let mut bytes = [0; 4];
    let name = Name::new(alloc, c.encode_utf8(&mut bytes))?;
    Ok(Node::Atom(name))
}
