//! Updates with the procedures that they name: what can be refused is taken before anything changes.
ghost use Rattle.std.specs.Prelude.{◌≡◌, IfOk};
ghost use Rattle.plstore.specs.Plan.{put_update, update_of, updates_of, IsPlanned, AllPlanned};

use plclause::clause::Clause;
use plevent::{ClauseName, Update};
use plterm::indicator::Indicator;
use std::alloc::{AllocError, Global};

/// An update, with the procedure that it names.
#[derive(Drop)]
pub(crate) enum Planned {
    /// A clause, its procedure, and whether it goes before all others.
    Put(Clause, Indicator, bool),
    Drop(ClauseName),
    DropOwn(u64),
    /// A declared procedure, twice: for the record and for the index.
    Name(Indicator, Indicator),
}

/// The plan of updates, in order. It shares their clauses.
pub(crate) fn plan(alloc: Global, updates: &[Update]) -> Result<Vec<Planned>, AllocError>
    ensures updates { IfOk result (λ plan. updates_of plan.items ≡ updates.now) }
    ensures planned { IfOk result (λ plan. AllPlanned plan.items) }
{
    let mut plan = Vec::with_capacity(alloc, updates.len())?;
    for update in updates {
        plan.push(made_plan(update)?)?;
    }
    Ok(plan)
}

/// The plan of one update.
pub(crate) fn made_plan(update: &Update) -> Result<Planned, AllocError>
    ensures update { IfOk result (λ made. update_of made ≡ update.now) }
    ensures planned { IfOk result (λ made. IsPlanned made) }
{
    match update {
        Update::First(clause) => put(clause, true),
        Update::Last(clause) => put(clause, false),
        Update::Erase(name) => Ok(Planned::Drop(*name)),
        Update::EraseOwn(number) => Ok(Planned::DropOwn(*number)),
        Update::Declare(pred) => {
            let name = pred.copied()?;
            let key = pred.copied()?;
            Ok(Planned::Name(name, key))
        }
    }
}

/// The plan of a clause that is added, before all others of its procedure or behind them.
fn put(clause: &Clause, is_first: bool) -> Result<Planned, AllocError>
    ensures update { IfOk result (λ made. update_of made ≡ put_update is_first clause.now) }
    ensures planned { IfOk result (λ made. IsPlanned made) }
{
    let pred = clause.indicator()?;
    let copy = clause.copied()?;
    Ok(Planned::Put(copy, pred, is_first))
}
