//! Packed terms that are shared.
ghost use Rattle.std.specs.Prelude.{◌≡◌, ◌↔◌, IfOk, IsTrue};
ghost use Rattle.plterm.specs.Tree.{Tree};
ghost use Rattle.plterm.specs.Variables.{copied};
ghost use Rattle.plpack.specs.Packing.{packed};
ghost use Rattle.plpack.specs.Shared.{ArePacked, IsCanonical};

use crate::packing::pack;
use crate::unpacking::{UnpackError, unpack};
use plterm::term::Term;
use std::alloc::{AllocError, Global};
use std::marker::Model;
use std::sync::ArcSlice;

/// A term as its packed bytes, so that its variables are 0, 1, .. by first occurrence. The bytes are shared: a copy copies none of them.
#[derive(Drop)]
pub struct Packed {
    bytes: ArcSlice<u8>,
}

impl Model for Packed {
    ghost use Rattle.std.specs.Arc.{arc_slice_items};
    ghost use Rattle.plterm.specs.Tree.{Tree};
    ghost use Rattle.plterm.specs.Reading.{tree_code};
    ghost use Rattle.plpack.specs.Shared.{term_of, IsHeld};

    ghost Value = { Tree };

    ghost coded = { tree_code };

    ghost view = { λ a. term_of (arc_slice_items a.bytes) };

    ghost invariant = { λ a. IsHeld (arc_slice_items a.bytes) };
}

impl Packed {
    /// The term of these bytes, which are a packed term's.
    pub fn of_bytes(bytes: Vec<u8>) -> Result<Packed, AllocError>
        requires { (t : Tree) × ArePacked bytes.items t }
        ensures { IfOk result (λ p. (t : Tree) → ArePacked bytes.items t → p ≡ copied 0 t) }
    {
        let bytes = ArcSlice::from_vec(bytes)?;
        Ok(Packed { bytes })
    }

    /// A copy of the term, in time linear in its nodes.
    pub fn of_term(alloc: Global, term: &Term) -> Result<Packed, AllocError>
        ensures { IfOk result (λ p. p ≡ copied 0 term.now) }
    {
        Packed::of_bytes(pack(alloc, &term.root())?)
    }

    /// The term, in time linear in its bytes.
    pub fn term(&self, alloc: Global) -> Result<Term, AllocError>
        ensures { IfOk result (λ t. t ≡ self.now) }
    {
        match unpack(alloc, self.bytes()) {
            Ok(found) => Ok(found.term),
            Err(UnpackError::NoMemory) => Err(AllocError),
            Err(UnpackError::BadPack(_)) => unreachable!(),
        }
    }

    /// The bytes.
    pub fn bytes(&self) -> &[u8]
        ensures is { result.now ≡ packed self.now }
        ensures canonical { IsCanonical self.now }
    {
        self.bytes.as_slice()
    }

    /// The same term again, which shares the bytes.
    pub fn copied(&self) -> Result<Packed, AllocError>
        ensures { IfOk result (λ p. p ≡ self.now) }
    {
        let bytes = self.bytes.clone()?;
        Ok(Packed { bytes })
    }

    /// Whether the terms are the same. Terms that were packed are the same here exactly where they were variants of one another.
    pub fn is_same(&self, other: &Packed) -> bool
        ensures { IsTrue result ↔ (self.now ≡ other.now) }
    {
        self.bytes.as_slice() == other.bytes.as_slice()
    }
}
