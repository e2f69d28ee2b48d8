//! What is written is read back: the law of writing and reading terms (ISO/IEC 13211-1 6.3, 7.10.5).
ghost use Rattle.std.specs.Prelude.{◌≡◌, ◌≤◌, ◌<◌, ◌+◌, ◌^◌, ◌++◌, ℕ, List, [], length, drop, None, true, false, codes};
ghost use Rattle.plterm.specs.Tree.{Tree};
ghost use Rattle.plterm.specs.Variables.{variables, copied, AllBelow, IsVariant};
ghost use Rattle.plops.specs.declared.table.OpTable.{OpTable};
ghost use Rattle.plops.specs.Sane.{IsSane};
ghost use Rattle.pllex.specs.Tokens.{ends_here};
ghost use Rattle.plops.specs.declared.flag.Quotes.{Quotes};
ghost use Rattle.plread.specs.Reading.{Spells};
ghost use Rattle.plwrite.specs.declared.style.Style.{Style};
ghost use Rattle.plwrite.specs.declared.style.Style.TheVariants.{Listed};
ghost use Rattle.plwrite.specs.declared.place.Position.TheVariants.{At};
ghost use Rattle.plwrite.specs.Places.{whole};
ghost use Rattle.plwrite.specs.Styles.{has_letters};
ghost use Rattle.plwrite.specs.Writing.{words, written, clause_text};
ghost use Rattle.pllaws.specs.Terms.{IsFit};
ghost use Rattle.pllaws.specs.Written.{clause_signs, IsWhole};
ghost use Rattle.pllaws.specs.Levels.{levels_of};
ghost use Rattle.pllaws.specs.Told.{Tell};
ghost use Rattle.pllaws.specs.Numbered.{all_numbered};
ghost use Rattle.pllaws.specs.Again.{IsWithinLimits, ReadsAs};

/// The signs that a term is written with spell it where as many levels may be open as it needs, and spell nothing where
/// fewer may be.
pub fn written_is_read()
    ensures spelled { (ops : OpTable) → IsSane ops → (style : Style) → (t : Tree) → IsWhole t →
        (levels : ℕ) → levels_of ops style (At whole) t ≤ levels → Spells ops levels (clause_signs ops style t) t }
    ensures needed { (ops : OpTable) → IsSane ops → (style : Style) → (t : Tree) → IsWhole t →
        (levels : ℕ) (u : Tree) → Spells ops levels (clause_signs ops style t) u → levels_of ops style (At whole) t ≤ levels }
{}

/// The words of a term, in a style that writes no variable as a letter, are the texts of its signs. Two signs stand
/// directly behind each other where no space is put between them.
pub fn words_tell_signs()
    ensures { (ops : OpTable) → IsSane ops → (style : Style) → has_letters style ≡ false → (t : Tree) → IsFit t → AllBelow (2 ^ 64) t →
        Tell style None (words ops style (At whole) t []) (clause_signs ops style t) }
{}

/// The variables `_1`, `_2`, .. that a term is written with are read as 0, 1, .. by first occurrence.
pub fn variables_are_numbered()
    ensures { (ops : OpTable) (style : Style) (t : Tree) → length (variables t) < 2 ^ 64 →
        all_numbered [] (clause_signs ops style (copied 1 t)) ≡ clause_signs ops style (copied 0 t) }
{}

/// What is written is read back: as a clause that is listed, and in any style that writes no variable as a letter with
/// ` .` behind it, wherever it stands in a text. Under the same operators it is read as the term with the variables 0, 1,
/// .. by first occurrence, a variant, whatever the flag double_quotes is, where as many levels may be open as it needs.
/// Where fewer may be, it is not read.
pub fn clause_is_read()
    ensures listed { (ops : OpTable) → IsSane ops → (t : Tree) → IsWithinLimits t →
        (quotes : Quotes) (levels : ℕ) → levels_of ops Listed (At whole) t ≤ levels →
        (text : List ℕ) (from after : ℕ) (rest : List ℕ) →
        drop from text ≡ clause_text ops t ++ rest → after + 1 ≡ from + length (clause_text ops t) →
        ReadsAs ops quotes levels text from after (copied 0 t) }
    ensures apart { (ops : OpTable) → IsSane ops → (style : Style) → has_letters style ≡ false → (t : Tree) → IsWithinLimits t →
        (quotes : Quotes) (levels : ℕ) → levels_of ops style (At whole) t ≤ levels →
        (text : List ℕ) (from after : ℕ) (rest : List ℕ) →
        drop from text ≡ written ops style t ++ (codes " ." ++ rest) → ends_here rest ≡ true → after ≡ from + length (written ops style t ++ codes " .") →
        ReadsAs ops quotes levels text from after (copied 0 t) }
    ensures listed_needs { (ops : OpTable) → IsSane ops → (t : Tree) → IsWithinLimits t →
        (quotes : Quotes) (levels : ℕ) (text : List ℕ) (from after : ℕ) (rest : List ℕ) (u : Tree) →
        drop from text ≡ clause_text ops t ++ rest →
        ReadsAs ops quotes levels text from after u → levels_of ops Listed (At whole) t ≤ levels }
    ensures apart_needs { (ops : OpTable) → IsSane ops → (style : Style) → has_letters style ≡ false → (t : Tree) → IsWithinLimits t →
        (quotes : Quotes) (levels : ℕ) (text : List ℕ) (from after : ℕ) (rest : List ℕ) (u : Tree) →
        drop from text ≡ written ops style t ++ (codes " ." ++ rest) → ends_here rest ≡ true →
        ReadsAs ops quotes levels text from after u → levels_of ops style (At whole) t ≤ levels }
    ensures variant { (t : Tree) → IsVariant (copied 0 t) t }
{}

/// A text is read as one term, and to one place.
pub fn read_once()
    ensures { (ops : OpTable) (quotes : Quotes) (levels : ℕ) (text : List ℕ) (from a b : ℕ) (t u : Tree) →
        ReadsAs ops quotes levels text from a t → ReadsAs ops quotes levels text from b u → (a ≡ b) × (t ≡ u) }
{}
