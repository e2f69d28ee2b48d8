//! Reading a clause of a text.
ghost use Rattle.std.specs.Prelude.{◌≡◌, ℕ, List, map, IfOk, IfErr};
ghost use Rattle.pllex.specs.Named.{AreNamed};
ghost use Rattle.plterm.specs.Tree.{Tree};
ghost use Rattle.pllex.specs.declared.token.Token as lex;
ghost use Rattle.plops.specs.declared.flag.Quotes as flags;
ghost use Rattle.plops.specs.declared.table.OpTable.{OpTable};
ghost use Rattle.plread.specs.Signs.{Sign};
ghost use Rattle.plread.specs.Spelling.{signs_of, variable_names};
ghost use Rattle.plread.specs.Reading.{Spells};
ghost use Rattle.plread.specs.Named.{NamesStand};
ghost use Rattle.plread.specs.Refusals.{start_of, Refuses};

use crate::clause::term_of;
use crate::error::ReadError;
use crate::input::{Input, input_of};
use pllex::token::Token;
use plops::flag::Quotes;
use plops::table::OpTable;
use plterm::term::Term;
use std::alloc::Global;

/// A term that was read, and the names of its variables (7.10.3). The variables are numbered from 0 by first occurrence, and
/// the name of each stands at its number. An anonymous variable has the name `_`. The names are parts of the text.
#[derive(Drop)]
pub struct ReadTerm<'a> {
    pub term: Term,
    pub names: Vec<&'a str>,
}

/// The term that a clause's tokens spell under these operators and this value of the flag double_quotes, with at
/// most `levels` open levels: open brackets and operators that wait for their right operand (6.2, 6.3). The time is
/// linear in the tokens and their text, and the stack does not grow with the term's depth.
pub fn read_clause<'a>(
    alloc: Global,
    text: &'a [u8],
    tokens: &[Token],
    ops: &OpTable,
    quotes: Quotes,
    levels: u64,
) -> Result<ReadTerm<'a>, ReadError>
    requires { AreNamed text.now tokens.now }
    ensures found { IfOk result (λ read.
        Spells ops.now levels (signs_of quotes text.now tokens.now) read.term) }
    ensures names { IfOk result (λ read.
        map (λ name. name.now) read.names.items ≡ variable_names text.now tokens.now) }

    // The tokens spell no term.
    ensures none { IfErr result (Refuses ops.now quotes levels text.now tokens.now) }
{
    let Input {
        words,
        tokens: signs,
        names,
    } = input_of(alloc, text, quotes, tokens)?;
    match term_of(alloc, &words, &signs, ops, levels)? {
        Some(term) => Ok(ReadTerm { term, names }),
        None => Err(ReadError::Syntax(start_of(tokens))),
    }
}

/// Where the first token starts.
fn start_of(tokens: &[Token]) -> usize
    ensures { result ≡ start_of tokens.now }
{
    match tokens.first() {
        None => 0,
        Some(token) => token.start,
    }
}

/// Signs spell at most one term.
pub fn one_term()
    ensures { (ops : OpTable) (levels : ℕ) (signs : List Sign) (t u : Tree) →
        Spells ops levels signs t → Spells ops levels signs u → t ≡ u }
{}

/// The names that are read with a term tell its variables: each variable of the clause has its name at its number.
pub fn names_stand()
    ensures { (quotes : flags.Quotes) (text : List ℕ) (tokens : List lex.Token) →
        NamesStand text (variable_names text tokens) tokens (signs_of quotes text tokens) }
{}
