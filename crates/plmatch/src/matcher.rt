//! Patterns and messages.
ghost use Rattle.std.specs.Prelude.{◌≡◌, ℕ, IfOk};
ghost use Rattle.plcells.specs.Store.{IsFresh, Keeps};
ghost use Rattle.plmatch.specs.Matching.{fits};

use platoms::names::Names;
use plbind::unify::{Scratch, unify_in_choice};
use plcells::heap::Heap;
use plpack::shared::Packed;
use plpacked::put_packed;
use std::alloc::{AllocError, Global};
use std::marker::Model;

/// Room in which patterns and messages are unified. Between two calls no term is in it, and names stay.
#[derive(Drop)]
pub struct Matcher {
    alloc: Global,
    heap: Heap,
    scratch: Scratch,
}

impl Model for Matcher {
    ghost use Rattle.std.specs.Bool.{⊤};
    ghost use Rattle.plmatch.specs.Rooms.{IsBare};

    ghost Value = { ⊤ };

    ghost view = { λ _. tt };

    ghost invariant = { λ a. IsBare a.heap };
}

/// Puts both terms, apart in their variables, and unifies them: whether they have a unifier.
fn unify_apart(
    alloc: Global,
    heap: &mut Heap,
    scratch: &mut Scratch,
    pattern: &Packed,
    message: &Packed,
) -> Result<bool, AllocError>
    requires { (n : ℕ) → IsFresh heap.old n }
    ensures ok { IfOk result (λ yes. yes ≡ fits pattern.now message.now) }
    ensures keeps { Keeps heap.old heap.new }
{
    let p = put_packed(alloc, heap, pattern, 0)?;
    let m = put_packed(alloc, heap, message, p.variables)?;
    unify_in_choice(heap, scratch, p.value, m.value)
}

impl Matcher {
    /// With no names.
    pub fn new(alloc: Global) -> Matcher {
        Matcher {
            alloc,
            heap: Heap::new(alloc, Names::new(alloc)),
            scratch: Scratch::new(alloc),
        }
    }

    /// Whether a pattern and a message have a unifier, with the occurs check, where no variable of the one is the other's.
    pub fn fits(&mut self, pattern: &Packed, message: &Packed) -> Result<bool, AllocError>
        ensures { IfOk result (λ yes. yes ≡ fits pattern.now message.now) }
    {
        let boundary = self.heap.boundary();
        let mark = self.heap.mark();
        let answer = unify_apart(
            self.alloc,
            &mut self.heap,
            &mut self.scratch,
            pattern,
            message,
        );
        self.heap.cut_back(mark, boundary);
        answer
    }
}
