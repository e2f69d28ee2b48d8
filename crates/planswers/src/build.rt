//! Terms of which equations are made.
ghost use Rattle.std.specs.Prelude.{◌≡◌, ◌+◌, ◌<◌, ◌≤◌, ◌^◌, length, IfOk};
ghost use Rattle.plterm.specs.Tree.{compound, trees};
ghost use Rattle.plread.specs.Texts.{listed};
ghost use Rattle.plbuiltin.specs.Parts.{variables_from};
ghost use Rattle.plbuiltin.specs.Texts.{spelled};

use plnames::kind::Spelling;
use plread::lists;
use plread::words::Words;
use plterm::builder::Builder;
use plterm::name::Name;
use plterm::node::Node;
use plterm::term::Term;
use std::alloc::{AllocError, Global};

/// The list of so many variables, with the numbers from one on.
pub fn list_of_variables(alloc: Global, from: u64, count: u64) -> Result<Term, AllocError>
    requires { from + count < 2 ^ 64 }
    ensures { IfOk result (λ t. t ≡ listed (variables_from from count)) }
{
    let words = Words::new(alloc)?;
    let mut terms = Builder::new(alloc);
    for i in 0..count {
        terms.push(Node::Var(from + i))?;
    }
    lists::close(alloc, &words, &mut terms, count)?;
    terms.finish(alloc)
}

/// The compound of a name and so many variables, with the numbers from one on.
pub fn compound_of_variables(
    alloc: Global,
    name: Name,
    from: u64,
    count: u16,
) -> Result<Term, AllocError>
    requires name { length name ≤ 65535 }
    requires some { 0 < count }
    requires few { count ≤ 1024 }
    requires room { from + count < 2 ^ 64 }
    ensures { IfOk result (λ t. t ≡ compound name (trees (variables_from from count))) }
{
    let mut terms = Builder::new(alloc);
    for i in 0..count {
        terms.push(Node::Var(from + u64::from(i)))?;
    }
    terms.push(Node::Compound(name, count))?;
    terms.finish(alloc)
}

/// The list that spells a text.
pub fn spelled(alloc: Global, k: Spelling, text: &str) -> Result<Term, AllocError>
    ensures { IfOk result (λ t. t ≡ spelled k text.now) }
{
    let words = Words::new(alloc)?;
    let mut terms = Builder::new(alloc);
    match k {
        Spelling::Characters => lists::push_chars(alloc, &words, &mut terms, text)?,
        Spelling::Codes => lists::push_codes(alloc, &words, &mut terms, text)?,
    }
    terms.finish(alloc)
}
