//! Clauses as candidates of a walk, by what is done with them.
ghost use Rattle.std.specs.Prelude.{◌≡◌, IfOk};
ghost use Rattle.plstack.specs.Places.{candidate_of, erased_by, text_candidate};

use plclause::clause::Clause;
use plevent::ClauseName;
use plstack::frame::Use;
use plstack::walk::Candidate;
use std::alloc::AllocError;

/// The name of a clause that is to be erased, by what is done with it.
fn erased_for(uses: Use, name: ClauseName) -> Option<ClauseName>
    ensures { result ≡ erased_by uses name }
{
    match uses {
        Use::Call | Use::Tell => None,
        Use::Erase => Some(name),
    }
}

/// A clause of the program's text as a candidate.
pub fn of_text(uses: Use, clause: &Clause) -> Result<Candidate, AllocError>
    ensures { IfOk result (λ x. x ≡ text_candidate uses clause.now) }
{
    let clause = clause.copied()?;
    Ok(Candidate {
        clause,
        uses,
        erased: None,
    })
}

/// A clause that is alive as a candidate.
pub fn of_name(uses: Use, name: ClauseName, clause: Clause) -> Candidate
    ensures { result ≡ candidate_of uses (record { name = name; clause = clause }) }
{
    Candidate {
        clause,
        uses,
        erased: erased_for(uses, name),
    }
}
