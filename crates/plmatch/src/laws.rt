//! What it is that a pattern and a message fit.
ghost use Rattle.std.specs.Prelude.{◌≡◌, ◌↔◌, true, false};
ghost use Rattle.plterm.specs.Tree.{Tree};
ghost use Rattle.plterm.specs.Variables.{copied};
ghost use Rattle.plbind.specs.Apart.{AreApart};
ghost use Rattle.plmatch.specs.Matching.{fits, HaveInstance};

/// They fit exactly where something that is put for the variables of the one, and something for those of the other, makes them the same,
/// and otherwise they are apart.
pub fn fits_law()
    ensures instance { (p m : Tree) → copied 0 p ≡ p → ((fits p m ≡ true) ↔ HaveInstance p m) }
    ensures apart { (p m : Tree) → copied 0 p ≡ p → ((fits p m ≡ false) ↔ AreApart p m) }
{}
