//! The text of words is read as the words' tokens: the law of the writer's spacing (ISO/IEC 13211-1 6.4, 7.10.5).
ghost use Rattle.std.specs.Prelude.{◌≡◌, ◌+◌, ◌<◌, ◌^◌, ◌++◌, ℕ, List, length, drop, map, Bool, true, codes};
ghost use Rattle.plterm.specs.Tree.{Tree};
ghost use Rattle.plterm.specs.Variables.{variables, copied, AllBelow};
ghost use Rattle.plterm.specs.Characters.{is_symbol};
ghost use Rattle.plops.specs.declared.table.Entry.{Entry};
ghost use Rattle.plwrite.specs.declared.style.Style.{Style};
ghost use Rattle.pllex.specs.Tokens.{ends_here};
ghost use Rattle.plwrite.specs.declared.style.Style.TheVariants.{Listed};
ghost use Rattle.plwrite.specs.Words.{last_byte};
ghost use Rattle.plwrite.specs.Writing.{written, clause_text};
ghost use Rattle.pllaws.specs.Pieces.{Piece, QuotesNames, Fits, AllFit, word, parts};
ghost use Rattle.pllaws.specs.Tokens.{tokens_at, text, tokens, values, end_at};
ghost use Rattle.pllaws.specs.Terms.{IsFit, StandsTerm, ReadsTerm};
ghost use Rattle.pllaws.specs.Read.{StandsWord, Stands, Told, Reads};

/// A word in a style that quotes names is its tokens, wherever what stands behind it may stand there; the value of a
/// name's token is the name.
pub fn word_is_read()
    ensures { (style : Style) → QuotesNames style → (p : Piece) → Fits p →
        (whole : List ℕ) (from : ℕ) (rest : List ℕ) → StandsWord style p whole from rest →
        Told whole from (tokens_at from (parts p)) (from + length (word style p).text) (map (λ part. part.value) (parts p)) }
{}

/// The text of any words in a style that quotes names, with a full stop, is a clause of the words' tokens.
pub fn words_are_read()
    ensures { (style : Style) → QuotesNames style → (ps : List Piece) → AllFit ps →
        (whole : List ℕ) (from : ℕ) (is_apart : Bool) (rest : List ℕ) → Stands style ps whole from is_apart rest →
        Reads whole from (tokens style from ps) (end_at is_apart (from + length (text style ps))) (values ps) }
{}

/// The text of a term in a style that quotes names, with a full stop, is a clause of the tokens of the term's words.
pub fn term_is_read()
    ensures { (ops : List Entry) (style : Style) → QuotesNames style → (t : Tree) → IsFit t → AllBelow (2 ^ 64) t →
        (all : List ℕ) (from : ℕ) (is_apart : Bool) (rest : List ℕ) → StandsTerm ops style t all from is_apart rest →
        ReadsTerm ops style t all from is_apart }
{}

/// So is what `write_term` writes with ` .` behind it, and what `write_clause` writes, wherever it stands in a text: the
/// tokens are those of the words of the term with its variables numbered from 1.
pub fn written_is_clause()
    ensures apart { (ops : List Entry) (style : Style) → QuotesNames style → (t : Tree) → IsFit t → length (variables t) < 2 ^ 64 →
        (all : List ℕ) (from : ℕ) (rest : List ℕ) → ends_here rest ≡ true →
        drop from all ≡ written ops style t ++ (codes " ." ++ rest) → ReadsTerm ops style (copied 1 t) all from true }
    ensures listed { (ops : List Entry) (t : Tree) → IsFit t → length (variables t) < 2 ^ 64 →
        (all : List ℕ) (from : ℕ) (rest : List ℕ) → drop from all ≡ clause_text ops t ++ rest →
        ReadsTerm ops Listed (copied 1 t) all from (is_symbol (last_byte (written ops Listed t))) }
{}
