//! What a run added to the journal, as text: each act behind main's start on a line of its own, as a term without operators, and then the
//! places of what was asked, and the steps.
use plclause::clause::Clause;
use plevent::{Act, Batch, ClauseName, JournalPlace, ThreadEnd, Update};
use plhist::History;
use plops::table::OpTable;
use plterm::error::TermError;
use plterm::indicator::Indicator;
use plterm::name::Name;
use plterm::term::Term;
use plwrite::style::Style;
use plwrite::write::write_term;
use std::alloc::{AllocError, Global};

/// The text of what a run of main added.
pub fn added(alloc: Global, history: &History) -> Result<Vec<u8>, TermError> {
    let operators = OpTable::iso(alloc)?;
    let mut text = Vec::new(alloc);
    for entry in history.journal.as_slice().iter().skip(2) {
        let act = act(alloc, &entry.act)?;
        text.extend_from_slice(&write_term(alloc, &act, &operators, Style::Canonical)?)?;
        text.extend_from_slice(b"\n")?;
    }
    for run in history.runs.as_slice() {
        text.extend_from_slice(b"places ")?;
        let places = places(alloc, run.places.as_slice())?;
        text.extend_from_slice(&write_term(alloc, &places, &operators, Style::Canonical)?)?;
        let steps = run.steps;
        let line = format!(in alloc; " steps {steps}\n")?;
        text.extend_from_slice(line.as_bytes())?;
    }
    Ok(text)
}

fn act(alloc: Global, act: &Act) -> Result<Term, TermError> {
    match act {
        Act::Start => atom(alloc, "start"),
        Act::Batch(batch) => one(alloc, "batch", updates(alloc, batch)?),
        Act::End(end) => one(alloc, "end", ended(alloc, end)?),
        Act::Halt(number) => one(alloc, "halt", Term::int(alloc, i64::from(*number))?),
        Act::Left => atom(alloc, "left"),
    }
}

fn ended(alloc: Global, end: &ThreadEnd) -> Result<Term, TermError> {
    match end {
        ThreadEnd::True => atom(alloc, "true"),
        ThreadEnd::False => atom(alloc, "false"),
        ThreadEnd::Exception(ball) => one(alloc, "exception", ball.copied(alloc)?),
        ThreadEnd::Budget => atom(alloc, "budget"),
        ThreadEnd::Halt(number) => one(alloc, "halt", Term::int(alloc, i64::from(*number))?),
    }
}

/// The list of a batch's updates. The variables of each are its own.
fn updates(alloc: Global, batch: &Batch) -> Result<Term, TermError> {
    let mut list = atom(alloc, "[]")?;
    let mut from = 0;
    for update in batch.as_slice().iter().rev() {
        let first = term_of(alloc, update, from)?;
        from = behind(update, from)?;
        list = two(alloc, ".", first, list)?;
    }
    Ok(list)
}

/// A number behind those of the variables of an update that are numbered from there.
fn behind(update: &Update, from: u64) -> Result<u64, AllocError> {
    match update {
        Update::First(clause) | Update::Last(clause) => match from.checked_add(clause.variables()) {
            Some(number) => Ok(number),
            None => Err(AllocError),
        },
        Update::Erase(_) | Update::EraseOwn(_) | Update::Declare(_) => Ok(from),
    }
}

/// An update, its variables numbered from here.
fn term_of(alloc: Global, update: &Update, from: u64) -> Result<Term, TermError> {
    match update {
        Update::First(clause) => one(alloc, "first", rule(alloc, clause, from)?),
        Update::Last(clause) => one(alloc, "last", rule(alloc, clause, from)?),
        Update::Erase(name) => erase(alloc, name),
        Update::EraseOwn(number) => one(alloc, "erase", count(alloc, *number)?),
        Update::Declare(pred) => one(alloc, "declare", indicator(alloc, pred)?),
    }
}

fn erase(alloc: Global, name: &ClauseName) -> Result<Term, TermError> {
    let place = count(alloc, name.place)?;
    let number = count(alloc, name.number)?;
    two(alloc, "erase", place, number)
}

/// A clause as a head and a body.
fn rule(alloc: Global, clause: &Clause, from: u64) -> Result<Term, TermError> {
    let head = clause.head().copied(alloc)?;
    let body = clause.body().copied(alloc)?;
    let rule = two(alloc, ":-", head, body)?;
    Ok(rule.copy(alloc, from)?)
}

fn indicator(alloc: Global, pred: &Indicator) -> Result<Term, TermError> {
    let name = Term::atom(alloc, pred.name.copied()?)?;
    let arity = Term::int(alloc, i64::from(pred.arity))?;
    two(alloc, "/", name, arity)
}

/// The list of some places.
fn places(alloc: Global, places: &[JournalPlace]) -> Result<Term, TermError> {
    let mut list = atom(alloc, "[]")?;
    for place in places.iter().rev() {
        list = two(alloc, ".", count(alloc, place.get())?, list)?;
    }
    Ok(list)
}

fn count(alloc: Global, number: u64) -> Result<Term, AllocError> {
    match i64::try_from(number) {
        Ok(value) => Term::int(alloc, value),
        Err(_) => Err(AllocError),
    }
}

fn atom(alloc: Global, name: &str) -> Result<Term, TermError> {
    Term::atom(alloc, Name::new(alloc, name)?)
}

fn one(alloc: Global, name: &str, first: Term) -> Result<Term, TermError> {
    let mut args = Vec::new(alloc);
    args.push(first)?;
    Term::compound(alloc, Name::new(alloc, name)?, args)
}

fn two(alloc: Global, name: &str, first: Term, second: Term) -> Result<Term, TermError> {
    let mut args = Vec::new(alloc);
    args.push(first)?;
    args.push(second)?;
    Term::compound(alloc, Name::new(alloc, name)?, args)
}
