//! A goal of main that is given beside the text of a program.
ghost use Rattle.std.specs.Prelude.{◌≡◌, ◌↔◌, length, true, IfOk};
ghost use Rattle.pllex.specs.Named.{AreNamed};
ghost use Rattle.pllex.specs.Tokens.{IsClause};
ghost use Rattle.plload.specs.Goals.{Whole, Runnable, Goal, HasGoal, ended};

use crate::directive::goal_of;
use crate::meaning::Meaning;
use crate::next::read;
use pllex::clause::clause_tokens;
use pllex::error::{ClauseTokens, LexError};
use plprogram::settings::Settings;
use plterm::term::Term;
use std::alloc::{AllocError, Global};

/// The goal of main that a text is, if it is one: with ` .` behind it, it spells a term under the standard operators and
/// flags that is callable and convertible.
pub fn read_goal(alloc: Global, text: &str) -> Result<Option<Term>, AllocError>
    ensures { IfOk result (Goal text.now) }
{
    let whole = ended(alloc, text)?;
    let settings = Settings::iso(alloc)?;
    match whole_term(alloc, &whole, &settings)? {
        None => Ok(None),
        Some(term) => runnable(alloc, &term),
    }
}

/// Whether a text is a goal of main.
pub fn is_goal(alloc: Global, text: &str) -> Result<bool, AllocError>
    ensures { IfOk result (λ is. (is ≡ true) ↔ HasGoal text.now) }
{
    let goal = read_goal(alloc, text)?;
    Ok(goal.is_some())
}

/// The text with ` .` behind it.
fn ended(alloc: Global, text: &str) -> Result<Vec<u8>, AllocError>
    ensures { IfOk result (λ whole. whole.items ≡ ended text.now) }
{
    let mut whole = Vec::from_slice(alloc, text.as_bytes())?;
    whole.extend_from_slice(b" .")?;
    Ok(whole)
}

/// The term that the whole text spells, if it is one clause.
fn whole_term(alloc: Global, text: &[u8], settings: &Settings) -> Result<Option<Term>, AllocError>
    ensures { IfOk result (Whole text.now settings.now) }
{
    match clause_tokens(alloc, text, 0) {
        Ok(None) => Ok(None),
        Ok(Some(clause)) => clause_term(alloc, text, &clause, settings),
        Err(LexError::Bad(_, _)) => Ok(None),
        Err(LexError::NoMemory) => Err(AllocError),
    }
}

/// The term that a clause of these tokens spells, if the text ends with it.
fn clause_term(
    alloc: Global,
    text: &[u8],
    clause: &ClauseTokens,
    settings: &Settings,
) -> Result<Option<Term>, AllocError>
    requires named { AreNamed text.now clause.now.tokens.items }
    requires clause { IsClause text.now 0 clause.now.tokens.items clause.now.after }
    ensures { IfOk result (Whole text.now settings.now) }
{
    if clause.after == text.len() {
        read(alloc, text, &clause.tokens, settings)
    } else {
        Ok(None)
    }
}

/// What a term is as a goal of main.
fn runnable(alloc: Global, term: &Term) -> Result<Option<Term>, AllocError>
    ensures { IfOk result (Runnable term.now) }
{
    match goal_of(alloc, &term.root())? {
        Meaning::Runs(goal) => Ok(Some(goal)),
        _ => Ok(None),
    }
}
