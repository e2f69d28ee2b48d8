//! A listing loads as the program that it lists: the law of loading and listing programs (ISO/IEC 13211-1 6.2, 7.4).
ghost use Rattle.std.specs.Prelude.{◌≤◌, ◌<◌, ◌^◌, ℕ, List, length};
ghost use Rattle.plprogram.specs.Program.{Program};
ghost use Rattle.plload.specs.Loading.{Accepts, Loads, levels};
ghost use Rattle.plload.specs.Listing.{Lists};
ghost use Rattle.pllaws.specs.Needs.{Needs, IsTooDeep};

/// An accepted text is listed, and its clauses need some number of open levels. Where that is at most the number that may
/// be open, the listing loads as the text does, to the same program, and lists as itself. Where it is more, the listing is
/// refused as syntax, at a clause that needs more.
pub fn listing_is_loaded()
    ensures listed { (text : List ℕ) (program : Program) → Loads text (Accepts program) →
        ((lines : List ℕ) × Lists text (Accepts lines)) × ((most : ℕ) × Needs text (Accepts most)) }
    ensures program { (text lines : List ℕ) (program : Program) (most : ℕ) → length text < 2 ^ 64 →
        Loads text (Accepts program) → Lists text (Accepts lines) → Needs text (Accepts most) → most ≤ levels →
        Loads lines (Accepts program) }
    ensures listing { (text lines : List ℕ) (most : ℕ) → length text < 2 ^ 64 →
        Lists text (Accepts lines) → Needs text (Accepts most) → most ≤ levels →
        Lists lines (Accepts lines) }
    ensures refused { (text lines : List ℕ) (most : ℕ) → length text < 2 ^ 64 →
        Lists text (Accepts lines) → Needs text (Accepts most) → levels < most →
        IsTooDeep lines }
{}
