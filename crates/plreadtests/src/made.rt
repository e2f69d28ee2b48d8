//! Terms from their text, and the nodes of terms.
use pllex::clause::clause_tokens;
use plops::flag::Quotes;
use plops::table::OpTable;
use plread::read::{ReadTerm, read_clause};
use plterm::node::Node;
use plterm::term::Term;
use std::alloc::{AllocError, Global};
use std::fmt::Write;
use std::string::String;
use std::test::Fail;

/// The term that a clause's text spells under the standard operators.
pub(crate) fn term_of(alloc: Global, text: &str) -> Result<Term, Fail> {
    let mut clause = Vec::from_slice(alloc, text.as_bytes())?;
    clause.extend_from_slice(b" .")?;
    let operators = OpTable::iso(alloc)?;
    match clause_tokens(alloc, &clause, 0) {
        Ok(Some(found)) => match read_clause(
            alloc,
            &clause,
            &found.tokens,
            &operators,
            Quotes::Codes,
            65536,
        ) {
            Ok(read) => {
                let ReadTerm { term, .. } = read;
                Ok(term)
            }
            Err(error) => Err(error.into()),
        },
        Ok(None) => Err("nothing there".into()),
        Err(error) => Err(error.into()),
    }
}

/// The nodes of a term in prefix order, with the arity of each compound.
pub(crate) fn shape(alloc: Global, term: &Term) -> Result<String, Fail> {
    let mut made = String::new(alloc);
    for node in term.nodes().iter().rev() {
        if !made.is_empty() {
            made.push(' ')?;
        }
        tell(&mut made, node)?;
    }
    Ok(made)
}

/// Adds one node.
fn tell(made: &mut String, node: &Node) -> Result<(), AllocError> {
    match node {
        Node::Var(number) => write!(made, "_{}", number),
        Node::Int(value) => write!(made, "{}", value),
        Node::Atom(name) => write!(made, "{}", name.as_str()),
        Node::Compound(name, arity) => write!(made, "{}/{}", name.as_str(), arity),
    }
}
