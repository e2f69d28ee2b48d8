//! From one clause of a walk to the next.
ghost use Rattle.std.specs.Prelude.{◌≡◌, ◌<◌, IfSome, Some, false, length};
ghost use Rattle.plevent.specs.declared.update.ClauseName.{ClauseName as Named};
ghost use Rattle.plevent.specs.declared.key.Key.TheVariants.{Any};
ghost use Rattle.plstore.specs.Chains.{in_chain};
ghost use Rattle.plrecords.specs.Kept.{behind_all, picked, walk};
ghost use Rattle.plstore.specs.Like.{first_like, past};
ghost use Rattle.plrecords.specs.Links.{Marked};
ghost use Rattle.plstore.specs.Merged.{found, found_from, IsMerged};
ghost use Rattle.plrecords.specs.Parts.{marks};
ghost use Rattle.plrecords.specs.Rising.{IsRising, OneIs};
ghost use Rattle.plstore.specs.Tables.{chain_ends, Chained};

use crate::chain::{Chain, Merged, MergedEnds, merge};
use crate::named::find;
use crate::sought::Sought;
use crate::tables::Tables;
use crate::walk::{heads, onward, record_at, seek, seek_any};
use plevent::{ClauseName, Key};
use plrecords::part::Part;

/// The name of the first clause that is sought.
pub(crate) fn first_sought(tables: &Tables, sought: &Sought<'_>) -> Option<ClauseName>
    requires chained { Chained tables.now }
    ensures { result ≡ first_like sought.now.key.now (walk sought.now.g sought.now.pred.now tables.now.records.items) }
{
    sought_from(tables, sought, Part::whole(true))
}

/// The name of the first one of a part, and where that is in front, then of those behind.
fn sought_from(tables: &Tables, sought: &Sought<'_>, part: Part) -> Option<ClauseName>
    requires chained { Chained tables.now }
    requires within { IfSome part.behind (λ i. i < length tables.now.records.items) }
    ensures { result ≡ found_from sought.now tables.now.records.items part }
{
    let merged = merge(tables, sought);
    let ends = merged.ends(tables, sought.pred);
    let found = found_in(tables, sought, &merged, &ends, part);
    if part.front && found.is_none() {
        return found_in(tables, sought, &merged, &ends, Part::whole(false));
    }
    found
}

/// The name of the first one of a part of one side. Mostly there are no clauses in front.
fn found_in(
    tables: &Tables,
    sought: &Sought<'_>,
    merged: &Merged,
    ends: &MergedEnds,
    part: Part,
) -> Option<ClauseName>
    requires chained { Chained tables.now }
    requires merged { IsMerged sought.now.pred.now sought.now.key.now tables.now.records.items merged.now }
    requires own { ends.now.own ≡ chain_ends tables.now sought.now.pred.now merged.now.own }
    requires any { ends.now.any ≡ chain_ends tables.now sought.now.pred.now merged.now.any }
    requires within { IfSome part.behind (λ i. i < length tables.now.records.items) }
    ensures { result ≡ found sought.now tables.now.records.items part }
{
    if ends.are_none(part.front) {
        return None;
    }
    let heads = heads(tables, sought, merged, ends, part);
    seek(tables, sought, merged, part, heads)
}

/// The name of the first clause that is sought among those put behind.
pub(crate) fn first_back(tables: &Tables, sought: &Sought<'_>) -> Option<ClauseName>
    requires { Chained tables.now }
    ensures { result ≡ first_like sought.now.key.now (picked (behind_all sought.now.pred.now) sought.now.g tables.now.records.items) }
{
    sought_from(tables, sought, Part::whole(false))
}

/// The name of the first clause that is sought behind the one with this name; none where that one is not alive, or is of
/// another procedure.
pub(crate) fn sought_after(
    tables: &Tables,
    sought: &Sought<'_>,
    name: ClauseName,
) -> Option<ClauseName>
    requires rising { IsRising tables.now.records.items }
    requires chained { Chained tables.now }
    ensures { result ≡ first_like sought.now.key.now (past name (walk sought.now.g sought.now.pred.now tables.now.records.items)) }
{
    match find(tables.records.as_slice(), &tables.starts, name) {
        None => return None,
        Some(number) => return sought_behind(tables, sought, number),
    }
}

/// The same of a record, by its number.
fn sought_behind(tables: &Tables, sought: &Sought<'_>, number: usize) -> Option<ClauseName>
    requires chained { Chained tables.now }
    requires within { number < length tables.now.records.items }
    ensures { (x : Named) → OneIs x tables.now.records.items number →
        result ≡ first_like sought.now.key.now (past x (walk sought.now.g sought.now.pred.now tables.now.records.items)) }
{
    let one = record_at(tables.records.as_slice(), number);
    if !sought.is_shown(one) {
        return None;
    }
    if !one.front && matches!(sought.key, Key::Any) {
        return any_behind(tables, sought, number);
    }
    let part = Part {
        front: one.front,
        behind: Some(number),
    };
    sought_from(tables, sought, part)
}

/// The same for a goal of any key, behind a record of the procedure that was put behind: along the links of the procedure alone.
fn any_behind(tables: &Tables, sought: &Sought<'_>, number: usize) -> Option<ClauseName>
    requires any { sought.now.key.now ≡ Any }
    requires held { Marked (marks false (in_chain sought.now.pred.now Chain.Procedure) tables.now.records.items) (Some number) }
    requires chained { Chained tables.now }
    requires within { number < length tables.now.records.items }
    ensures { result ≡ found sought.now tables.now.records.items (record { front = false; behind = Some number }) }
{
    let part = Part {
        front: false,
        behind: Some(number),
    };
    let at = onward(tables, sought, Chain::Procedure, part, part.behind);
    seek_any(tables, sought, part, at)
}
