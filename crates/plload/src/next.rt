//! The next clause of a program's text.
ghost use Rattle.std.specs.Prelude.{◌≡◌, ◌<◌, ◌≤◌, length, IfOk};
ghost use Rattle.pllex.specs.Named.{AreNamed};
ghost use Rattle.plread.specs.Spelling.{signs_of};
ghost use Rattle.plread.specs.Refusals.{start_of};
ghost use Rattle.plload.specs.Loading.{Follows, IsNext, Moves, Spelled};

use crate::error::RefusalKind;
use pllex::clause::clause_tokens;
use pllex::error::{ClauseTokens, LexError};
use pllex::token::Token;
use plprogram::settings::Settings;
use plread::error::ReadError;
use plread::read::{ReadTerm, read_clause};
use plterm::term::Term;
use std::alloc::{AllocError, Global};

/// How many levels a clause may leave open.
const LEVELS: u64 = 65536;

/// What stands next in a program's text.
#[derive(Drop)]
pub enum Next {
    /// Only layout is left.
    Over,
    /// A clause is refused for its tokens or its reading, at a place of the text.
    Stops(usize, RefusalKind),
    /// A clause spells a term: the place of its first token, and the place behind it.
    Reads(Term, usize, usize),
}

/// What stands next in the text from a place on, under the operators and flags as they stand.
pub fn next_of(
    alloc: Global,
    text: &[u8],
    from: usize,
    settings: &Settings,
) -> Result<Next, AllocError>
    requires { from ≤ length text.now }
    ensures next { IfOk result (IsNext text.now from settings.now) }
    ensures onward { IfOk result (Moves from (length text.now)) }
{
    match clause_tokens(alloc, text, from) {
        Ok(None) => Ok(Next::Over),
        Ok(Some(clause)) => clause_next(alloc, text, &clause, settings),
        Err(LexError::Bad(_, place)) => Ok(Next::Stops(place, RefusalKind::Lex)),
        Err(LexError::NoMemory) => Err(AllocError),
    }
}

/// What a clause with these tokens comes to.
fn clause_next(
    alloc: Global,
    text: &[u8],
    clause: &ClauseTokens,
    settings: &Settings,
) -> Result<Next, AllocError>
    requires { AreNamed text.now clause.now.tokens.items }
    ensures { IfOk result (Follows text.now settings.now clause.now.tokens.items clause.now.after) }
{
    let first = first_place(&clause.tokens);
    match read(alloc, text, &clause.tokens, settings)? {
        None => Ok(Next::Stops(first, RefusalKind::Syntax)),
        Some(term) => Ok(Next::Reads(term, first, clause.after)),
    }
}

/// The place of a clause's first token.
fn first_place(tokens: &[Token]) -> usize
    ensures { result ≡ start_of tokens.now }
{
    match tokens {
        [] => 0,
        [first, ..] => first.start,
    }
}

/// The term that a clause's tokens spell, if they do.
pub(crate) fn read(
    alloc: Global,
    text: &[u8],
    tokens: &[Token],
    settings: &Settings,
) -> Result<Option<Term>, AllocError>
    requires { AreNamed text.now tokens.now }
    ensures { IfOk result (Spelled settings.now (signs_of settings.now.quotes text.now tokens.now)) }
{
    match read_clause(
        alloc,
        text,
        tokens,
        &settings.operators,
        settings.quotes,
        LEVELS,
    ) {
        Ok(read) => {
            let ReadTerm { term, .. } = read;
            Ok(Some(term))
        }
        Err(ReadError::Syntax(_)) => Ok(None),
        Err(ReadError::NoMemory) => Err(AllocError),
    }
}
