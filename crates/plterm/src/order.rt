//! The order of terms (ISO/IEC 13211-1 7.2), and its laws.
ghost use Rattle.std.specs.Prelude.{◌≡◌, ◌↔◌};
ghost use Rattle.std.specs.Ordering.{ordering_reverse};
ghost use Rattle.std.specs.declared.cmp.Ordering.TheVariants.{Less, Equal};
ghost use Rattle.plterm.specs.Tree.{Tree};
ghost use Rattle.plterm.specs.Order.{order};

/// Terms are equal in the order exactly where they are the same.
pub fn order_tells_terms_apart()
    ensures { (a b : Tree) → ((order a b ≡ Equal) ↔ (a ≡ b)) }
{}

/// Of two terms the one precedes the other exactly where the other follows the one.
pub fn order_turns()
    ensures { (a b : Tree) → order b a ≡ ordering_reverse (order a b) }
{}

/// What precedes a term precedes all that the term precedes.
pub fn order_is_transitive()
    ensures { (a b c : Tree) → order a b ≡ Less → order b c ≡ Less → order a c ≡ Less }
{}
