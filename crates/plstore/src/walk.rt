//! The walk over the clauses of two chains, merged by place.
ghost use Rattle.std.specs.Prelude.{◌≡◌, ◌<◌, IfSome, Some, length, slice_index_or, true};
ghost use Rattle.plevent.specs.declared.key.Key.TheVariants.{Any};
ghost use Rattle.plstore.specs.Chains.{in_chain};
ghost use Rattle.plrecords.specs.Links.{Marked};
ghost use Rattle.plstore.specs.Merged.{found, IsMerged, MayBegin, MayStand};
ghost use Rattle.plrecords.specs.Parts.{extent, marks};
ghost use Rattle.plstore.specs.Tables.{chain_ends, Chained};

use crate::chain::{Chain, Merged, MergedEnds};
use crate::sought::Sought;
use crate::tables::Tables;
use plevent::ClauseName;
use plrecords::ends::{Ends, wide};
use plrecords::leap::near;
use plrecords::part::{Heads, Part};
use plrecords::record::Record;

/// The name of the first clause of a part that is sought, from where a walk over it may begin.
pub(crate) fn seek(
    tables: &Tables,
    sought: &Sought<'_>,
    merged: &Merged,
    part: Part,
    heads: Heads,
) -> Option<ClauseName>
    requires chained { Chained tables.now }
    requires merged { IsMerged sought.now.pred.now sought.now.key.now tables.now.records.items merged.now }
    requires own { MayBegin tables.now sought.now merged.now.own part heads.own }
    requires any { MayBegin tables.now sought.now merged.now.any part heads.any }
    requires within { IfSome part.behind (λ i. i < length tables.now.records.items) }
    ensures { result ≡ found sought.now tables.now.records.items part }
{
    let records = tables.records.as_slice();
    let links = merged.own.links(tables);
    let mut at = heads;
    while let Some(number) = at.first(part.front) {
        let record = record_at(records, number);
        if sought.is_met(record) {
            return Some(record.name);
        }
        at = at.behind(number, links.next_behind(number, sought.g));
    }
    None
}

/// The same for a goal of any key, along the links of the procedure: each record there is one of its clauses.
pub(crate) fn seek_any(
    tables: &Tables,
    sought: &Sought<'_>,
    part: Part,
    from: Option<usize>,
) -> Option<ClauseName>
    requires chained { Chained tables.now }
    requires any { sought.now.key.now ≡ Any }
    requires from { MayBegin tables.now sought.now Chain.Procedure part from }
    requires within { IfSome part.behind (λ i. i < length tables.now.records.items) }
    ensures { result ≡ found sought.now tables.now.records.items part }
{
    let records = tables.records.as_slice();
    let links = &tables.by_procedure;
    let mut at = from;
    while let Some(number) = at {
        let record = record_at(records, number);
        if record.is_seen(sought.g) {
            return Some(record.name);
        }
        at = links.next_behind(number, sought.g);
    }
    None
}

/// Where the walk over a part stands in both chains at its beginning.
pub(crate) fn heads(
    tables: &Tables,
    sought: &Sought<'_>,
    merged: &Merged,
    ends: &MergedEnds,
    part: Part,
) -> Heads
    requires chained { Chained tables.now }
    requires own_ends { ends.now.own ≡ chain_ends tables.now sought.now.pred.now merged.now.own }
    requires any_ends { ends.now.any ≡ chain_ends tables.now sought.now.pred.now merged.now.any }
    requires within { IfSome part.behind (λ i. i < length tables.now.records.items) }
    ensures own { MayBegin tables.now sought.now merged.now.own part result.own }
    ensures any { MayBegin tables.now sought.now merged.now.any part result.any }
{
    let own = start(tables, sought, merged.own, ends.own, part);
    if merged.is_one() {
        return Heads { own, any: own };
    }
    let any = start(tables, sought, merged.any, ends.any, part);
    Heads { own, any }
}

/// The first record of a chain in a part, but for those that are not seen.
fn start(
    tables: &Tables,
    sought: &Sought<'_>,
    chain: Chain,
    ends: Ends,
    part: Part,
) -> Option<usize>
    requires chained { Chained tables.now }
    requires ends { ends ≡ chain_ends tables.now sought.now.pred.now chain }
    requires within { IfSome part.behind (λ i. i < length tables.now.records.items) }
    ensures { MayBegin tables.now sought.now chain part result }
{
    // Behind the newest of those put behind there is none.
    if !part.front && !part.reaches(wide(ends.newest_back)) {
        return None;
    }
    let at = close(tables, sought, chain, ends, part).or(ends.first(part.front));
    onward(tables, sought, chain, part, at)
}

/// The first record of a chain in a part, but for those that are not seen, from one on.
pub(crate) fn onward(
    tables: &Tables,
    sought: &Sought<'_>,
    chain: Chain,
    part: Part,
    from: Option<usize>,
) -> Option<usize>
    requires chained { Chained tables.now }
    requires from { MayStand part.front (in_chain sought.now.pred.now chain) sought.now.g tables.now.records.items (extent part (length tables.now.records.items)) from }
    requires within { IfSome part.behind (λ i. i < length tables.now.records.items) }
    ensures { MayBegin tables.now sought.now chain part result }
{
    let links = chain.links(tables);
    let mut at = from;
    while let Some(number) = at {
        if part.has(number) {
            return at;
        }
        at = links.next_behind(number, sought.g);
    }
    None
}

/// A record of a chain close before a part, or the one behind which that begins, if such a one is found.
fn close(
    tables: &Tables,
    sought: &Sought<'_>,
    chain: Chain,
    ends: Ends,
    part: Part,
) -> Option<usize>
    ensures { IfSome result (λ i. MayStand part.front (in_chain sought.now.pred.now chain) sought.now.g tables.now.records.items (extent part (length tables.now.records.items)) (Some i)) }
{
    let number = part.behind?;
    if part.has(ends.first(part.front)?) {
        return None;
    }
    if is_held(tables, sought, chain, part.front, number) {
        return Some(number);
    }
    let newest = ends.newest(part.front)?;
    let before = near(chain.links(tables), part.front, newest, number, sought.g);
    if part.has(before) || !is_held(tables, sought, chain, part.front, before) {
        return None;
    }
    Some(before)
}

/// Whether there is such a record on a side of a chain.
fn is_held(tables: &Tables, sought: &Sought<'_>, chain: Chain, front: bool, number: usize) -> bool
    ensures { result ≡ true → Marked (marks front (in_chain sought.now.pred.now chain) tables.now.records.items) (Some number) }
{
    let records = tables.records.as_slice();
    if records.len() <= number {
        return false;
    }
    let one = record_at(records, number);
    one.front == front && one.is_of(sought.pred) && chain.has(sought.pred, one)
}

pub(crate) fn record_at(records: &[Record], number: usize) -> &Record
    requires { number < length records.now }
    ensures { result.now ≡ slice_index_or records.now number result.now }
{
    &records[number]
}
