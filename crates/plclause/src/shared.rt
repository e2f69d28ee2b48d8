//! Terms that are shared.
ghost use Rattle.std.specs.Prelude.{◌≡◌, IfOk};

use plterm::term::Term;
use std::alloc::{AllocError, Global};
use std::marker::Model;
use std::sync::Arc;

/// A term that many may hold: a copy of it is the same one.
#[derive(Drop)]
pub struct SharedTerm {
    term: Arc<Term>,
}

impl Model for SharedTerm {
    ghost use Rattle.std.specs.Arc.{arc_value};
    ghost use Rattle.plterm.specs.Tree.{Tree};
    ghost use Rattle.plterm.specs.Reading.{tree_code};

    ghost Value = { Tree };

    ghost coded = { tree_code };

    ghost view = { λ a. arc_value a.term };
}

impl SharedTerm {
    /// The term, which is shared from now on.
    pub fn new(alloc: Global, term: Term) -> Result<SharedTerm, AllocError>
        ensures { IfOk result (λ t. t ≡ term) }
    {
        let term = Arc::new(alloc, term)?;
        Ok(SharedTerm { term })
    }

    /// The term itself.
    pub fn term(&self) -> &Term
        ensures { result.now ≡ self.now }
    {
        &*self.term
    }

    /// The same term again, which copies no nodes.
    pub fn copied(&self) -> Result<SharedTerm, AllocError>
        ensures { IfOk result (λ t. t ≡ self.now) }
    {
        let term = Arc::try_clone(&self.term)?;
        Ok(SharedTerm { term })
    }
}
