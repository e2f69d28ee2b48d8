//! Substitutions, and the most general unifier of two terms (ISO/IEC 13211-1 7.3).
//!
//! What they are is defined in `specs/`; the functions here state the laws of it and do nothing.
#![tactic(auto)]

ghost use Rattle.std.specs.Prelude.{◌≡◌, ℕ, Some, None};
ghost use Rattle.plterm.specs.Tree.{Tree};
ghost use Rattle.plsubst.specs.Subst.{bind};
ghost use Rattle.plsubst.specs.Unify.{unify, IsMostGeneral, BindsYounger};

/// What `unify` gives makes the terms equal, and every unifier of them is an instance of it; of two variables the younger stands for the older.
pub fn unify_is_most_general()
    ensures general { (a b : Tree) → (σ : ℕ → Tree) → unify a b ≡ Some σ → IsMostGeneral a b σ }
    ensures younger { (a b : Tree) → (σ : ℕ → Tree) → unify a b ≡ Some σ → BindsYounger σ }
{}

/// Where `unify` gives none, no substitution makes the terms equal.
pub fn unify_finds()
    ensures { (a b : Tree) → unify a b ≡ None → (τ : ℕ → Tree) → bind τ a ≡ bind τ b → ⊥ }
{}

/// A most general unifier that binds the younger of two variables is the one that `unify` gives, and where there is no unifier it gives none.
pub fn most_general_is_unique()
    ensures is { (a b : Tree) → (σ : ℕ → Tree) → IsMostGeneral a b σ → BindsYounger σ → unify a b ≡ Some σ }
    ensures none { (a b : Tree) → ((τ : ℕ → Tree) → bind τ a ≡ bind τ b → ⊥) → unify a b ≡ None }
{}
