//! The tables of a store, and how an update changes them.
ghost use Rattle.std.specs.Prelude.{◌≡◌, ◌+◌, ◌<◌, ◌≤◌, ◌^◌, ◌++◌, ◌∷◌, [], true, false, IfSome, OnOk, MatchOption, slice_index_or, ℕ, None, Some, fold, length, nat_eq, ◌≢◌, vec_len};
ghost use Rattle.std.specs.Vec.{vec_capacity};
ghost use Rattle.plclause.specs.Indicators.{indicator};
ghost use Rattle.plevent.specs.Alive.{stamped, named};
ghost use Rattle.plevent.specs.declared.key.Key.TheVariants.{Any};
ghost use Rattle.plrecords.specs.Kept.{keep, made, erase_at, first_of, changed_where, is_named, nothing};
ghost use Rattle.plstore.specs.Plan.{update_of, updates_of, IsPlanned, AllPlanned};
ghost use Rattle.plrecords.specs.Rising.{IsRising, InOrder};
ghost use Rattle.plstore.specs.Room.{HasRoom};
ghost use Rattle.plrecords.specs.Runs.{IsGone};
ghost use Rattle.plrecords.specs.Slots.{slot_behind};
ghost use Rattle.plstore.specs.Tables.{kept_in, Chained, IsStored};
ghost use Rattle.plrecords.specs.Undone.{WasRecord};
ghost use Rattle.plstore.specs.Trail.{SameTables, WasDeclared, WasErased, WasPut};
ghost use Rattle.plstore.specs.declared.tables.Tables.{Tables as Tabled};
ghost use Rattle.plrecords.specs.Links.{ends_in};
ghost use Rattle.plterm.specs.Indicators.{same_indicator};
ghost use Rattle.plrecords.specs.declared.record.Record.{Record as Recorded};

use crate::named::find;
use crate::plan::Planned;
use plclause::clause::Clause;
use plevent::ClauseName;
use plrecords::ends::{Ends, earlier, ends_of, restore_ends, set_ends};
use plrecords::links::{Added, Links, add};
use plrecords::record::{Declared, Record};
use plrecords::runs::Buried;
use plrecords::slot::Slots;
use plrecords::starts::Starts;
use plterm::indicator::Indicator;
use std::alloc::{AllocError, Global};
use std::collections::HashMap;

/// Each clause ever made, in the order of their names, and each declaration; and where to find those of a procedure, and
/// those of a slot.
#[derive(Drop)]
pub(crate) struct Tables {
    /// Where the records of a place stand.
    pub(crate) starts: Starts,
    pub(crate) records: Vec<Record>,
    pub(crate) declared: Vec<Declared>,
    /// Where the records of each procedure begin and end, and how they are linked.
    pub(crate) index: HashMap<Indicator, Ends>,
    pub(crate) by_procedure: Links,
    /// The same of each slot.
    pub(crate) slots: HashMap<u64, Ends>,
    pub(crate) by_slot: Links,
    /// Whether a clause was ever put that has a variable, or nothing, as its first argument.
    pub(crate) unkeyed: bool,
}

/// What a record that is put was linked with: the ends of its procedure, its slot, and the ends of that, all before it.
#[derive(Clone, Copy)]
pub(crate) struct Linked {
    pub(crate) by_procedure: Ends,
    pub(crate) slot: u64,
    pub(crate) by_slot: Ends,
}

/// A record that was erased, and what that changed in its chains.
#[derive(Clone, Copy)]
pub(crate) struct Erasure {
    pub(crate) number: usize,
    pub(crate) by_procedure: Buried,
    pub(crate) by_slot: Buried,
}

impl Tables {
    pub(crate) fn new(alloc: Global) -> Tables
        ensures kept { kept_in result ≡ nothing }
        ensures stored { IsStored result }
    {
        Tables {
            starts: Starts::new(alloc),
            records: Vec::new(alloc),
            declared: Vec::new(alloc),
            index: HashMap::new(alloc),
            by_procedure: Links::new(alloc),
            slots: HashMap::new(alloc),
            by_slot: Links::new(alloc),
            unkeyed: false,
        }
    }
}

/// Whether a clause was put that has no key of its own, once one of this slot is put too.
fn unkeyed_with(was: bool, slots: Slots, slot: u64) -> bool
    ensures before { result ≡ false → was ≡ false }
    ensures this { result ≡ false → slot ≢ slot_behind slots.hasher Any }
{
    was || slot == slots.any()
}

/// The most records of a store: their numbers have 32 bits.
const MOST: usize = 1 << 32;

/// Whether so many records, and more, have numbers.
fn have_numbers(records: usize, more: usize) -> bool
    ensures { result ≡ true → records + more ≤ 2 ^ 32 }
{
    records <= MOST && more <= MOST - records
}

/// Makes room for so many updates. Where there would be more records than numbers for them, memory is wanting.
pub(crate) fn reserve(tables: &mut Tables, count: usize) -> Result<(), AllocError>
    requires chained { Chained tables.old }
    ensures room { OnOk result (HasRoom count tables.new) }
    ensures same { SameTables tables.old tables.new }
    ensures kept { kept_in tables.new ≡ kept_in tables.old }
    ensures chained { Chained tables.new }
{
    if !have_numbers(tables.records.len(), count) {
        return Err(AllocError);
    }
    tables.records.reserve(count)?;
    tables.declared.reserve(count)?;
    tables.index.reserve(count)?;
    tables.by_procedure.reserve(count)?;
    tables.slots.reserve(count)?;
    tables.by_slot.reserve(count)?;
    Ok(())
}

/// Makes the updates of a batch, for which there is room.
pub(crate) fn make_all(tables: &mut Tables, plan: Vec<Planned>, place: u64)
    requires room { HasRoom (vec_len plan) tables.old }
    requires planned { AllPlanned plan.items }
    requires order { InOrder (named place 0) tables.old.records.items }
    requires chained { Chained tables.old }
    ensures made { kept_in tables.new ≡ fold keep (kept_in tables.old) (stamped place 0 (updates_of plan.items)) }
    ensures order { IsRising tables.new.records.items }
    ensures chained { Chained tables.new }
{
    let mut number = 0;
    for planned in plan {
        make(tables, ClauseName { place, number }, planned);
        number += 1;
    }
}

/// Makes one update, for which there is room.
pub(crate) fn make(tables: &mut Tables, name: ClauseName, planned: Planned)
    requires room { HasRoom 1 tables.old }
    requires planned { IsPlanned planned }
    requires order { InOrder name tables.old.records.items }
    requires chained { Chained tables.old }
    ensures made { kept_in tables.new ≡ keep (kept_in tables.old) (record { at = name; update = update_of planned }) }
    ensures chained { Chained tables.new }
    ensures room { (n : ℕ) → HasRoom (n + 1) tables.old → HasRoom n tables.new }
{
    match planned {
        Planned::Put(clause, pred, front) => {
            put(tables, name, clause, pred, front);
        }
        Planned::Drop(of) => {
            erase(tables, of, name.place);
        }
        Planned::DropOwn(number) => {
            let place = name.place;
            erase(tables, ClauseName { place, number }, place);
        }
        Planned::Name(pred, key) => {
            declare(tables, pred, key, name.place);
        }
    }
}

/// Appends a record, for which there is room.
pub(crate) fn put(
    tables: &mut Tables,
    name: ClauseName,
    clause: Clause,
    pred: Indicator,
    front: bool,
) -> Linked
    requires room { HasRoom 1 tables.old }
    requires pred { pred ≡ indicator clause.head }
    requires chained { Chained tables.old }
    ensures made { tables.new.records.items ≡ tables.old.records.items ++ made name clause front ∷ [] }
    ensures declared { tables.new.declared ≡ tables.old.declared }
    ensures chained { Chained tables.new }
    ensures was { WasPut pred result tables.old tables.new }
    ensures room { (n : ℕ) → HasRoom (n + 1) tables.old → HasRoom n tables.new }
{
    let number = tables.records.len();
    let added = Added {
        number: number as u32,
        front,
        place: name.place,
    };
    tables.starts.note(name, number);
    let slots = Slots::new(&pred);
    let slot = slots.of_head(&clause.head().root());
    tables.unkeyed = unkeyed_with(tables.unkeyed, slots, slot);
    let by_procedure = add(&mut tables.by_procedure, &mut tables.index, pred, added);
    let by_slot = add(&mut tables.by_slot, &mut tables.slots, slot, added);
    let record = Record {
        name,
        clause,
        front,
        erased: None,
    };
    match tables.records.push(record) {
        Ok(()) => {}
        Err(_) => unreachable!(),
    }
    Linked {
        by_procedure,
        slot,
        by_slot,
    }
}

/// Takes back the last record, of the procedure `key`.
pub(crate) fn unput(tables: &mut Tables, key: Indicator, linked: &Linked)
    requires index { (ends_in same_indicator tables.old.index key).since ≢ None }
    requires slots { (ends_in nat_eq tables.old.slots linked.now.slot).since ≢ None }
    ensures back { (was : Tabled) → WasPut key linked.now was tables.old → SameTables was tables.new }
{
    restore_ends(&mut tables.index, key, linked.by_procedure);
    restore_ends(&mut tables.slots, linked.slot, linked.by_slot);
    match tables.records.pop() {
        None => {}
        Some(last) => {
            let front = last.front;
            tables.by_procedure.drop_last(front, linked.by_procedure);
            tables.by_slot.drop_last(front, linked.by_slot);
            tables.starts.forget_above(last_place(&tables.records));
        }
    }
}

/// The place of the last record.
fn last_place(records: &[Record]) -> u64 {
    match records.last() {
        None => 0,
        Some(last) => last.name.place,
    }
}

/// Appends a declaration, for which there is room. Answers the ends of the procedure before.
pub(crate) fn declare(tables: &mut Tables, pred: Indicator, key: Indicator, place: u64) -> Ends
    requires room { HasRoom 1 tables.old }
    requires key { key ≡ pred }
    requires chained { Chained tables.old }
    ensures made { tables.new.declared.items ≡ tables.old.declared.items ++ record { pred = pred; place = place } ∷ [] }
    ensures records { tables.new.records ≡ tables.old.records }
    ensures chained { Chained tables.new }
    ensures was { WasDeclared key result tables.old tables.new }
    ensures room { (n : ℕ) → HasRoom (n + 1) tables.old → HasRoom n tables.new }
{
    let was = ends_of(&tables.index, &key);
    let mut ends = was;
    ends.since = earlier(was.since, place);
    set_ends(&mut tables.index, key, ends);
    match tables.declared.push(Declared { pred, place }) {
        Ok(()) => {}
        Err(_) => unreachable!(),
    }
    was
}

/// Takes back the last declaration, of the procedure `key`.
pub(crate) fn undeclare(tables: &mut Tables, key: Indicator, ends: Ends)
    requires { (ends_in same_indicator tables.old.index key).since ≢ None }
    ensures back { (was : Tabled) → WasDeclared key ends was tables.old → SameTables was tables.new }
{
    tables.declared.pop();
    restore_ends(&mut tables.index, key, ends);
}

/// Marks the clause of a name as erased, if there is one and it is not. Answers what that changed.
pub(crate) fn erase(tables: &mut Tables, of: ClauseName, place: u64) -> Option<Erasure>
    requires rising { IsRising tables.old.records.items }
    requires chained { Chained tables.old }
    ensures erased { tables.new.records.items ≡ changed_where (is_named of) (erase_at place) tables.old.records.items }
    ensures declared { tables.new.declared ≡ tables.old.declared }
    ensures chained { Chained tables.new }
    ensures was { MatchOption result (SameTables tables.old tables.new) (λ e. WasErased e tables.old tables.new) }
    ensures room { (n : ℕ) → HasRoom (n + 1) tables.old → HasRoom n tables.new }
{
    match erase_record(&mut tables.records, &tables.starts, of, place) {
        None => return None,
        Some(number) => {
            let by_procedure = tables.by_procedure.bury(number, place);
            let by_slot = tables.by_slot.bury(number, place);
            return Some(Erasure {
                number,
                by_procedure,
                by_slot,
            });
        }
    }
}

/// Takes back an erasure.
pub(crate) fn revive(tables: &mut Tables, erasure: &Erasure)
    requires { erasure.now.number < length tables.old.records.items }
    ensures back { (was : Tabled) → WasErased erasure.now was tables.old → SameTables was tables.new }
{
    tables.records[erasure.number].erased = None;
    tables.by_procedure.unbury(&erasure.by_procedure);
    tables.by_slot.unbury(&erasure.by_slot);
}

/// The number of the record that is erased now, and was not before.
fn erase_record(
    records: &mut Vec<Record>,
    starts: &Starts,
    of: ClauseName,
    place: u64,
) -> Option<usize>
    requires { IsRising records.old.items }
    ensures erased { records.new.items ≡ changed_where (is_named of) (erase_at place) records.old.items }
    ensures within { IfSome result (λ i. i < length records.old.items) }
    ensures gone { IfSome result (λ i. (d : Recorded) → IsGone place (slice_index_or records.new.items i d).erased) }
    ensures was { MatchOption result (records.new.items ≡ records.old.items) (λ i. WasRecord i records.old.items records.new.items) }
    ensures room { vec_capacity records.new ≡ vec_capacity records.old }
    ensures len { vec_len records.new ≡ vec_len records.old }
{
    erase_in(records.as_mut_slice(), starts, of, place)
}

fn erase_in(records: &mut [Record], starts: &Starts, of: ClauseName, place: u64) -> Option<usize>
    requires { IsRising records.old }
    ensures erased { records.new ≡ changed_where (is_named of) (erase_at place) records.old }
    ensures within { IfSome result (λ i. i < length records.old) }
    ensures gone { IfSome result (λ i. (d : Recorded) → IsGone place (slice_index_or records.new i d).erased) }
    ensures was { MatchOption result (records.new ≡ records.old) (λ i. WasRecord i records.old records.new) }
{
    if let Some(number) = find(records, starts, of) {
        let record = &mut records[number];
        let was = record.erased;
        record.erased = first(was, place);
        return fresh(was, number);
    }
    None
}

/// The number of a record that was not erased before.
fn fresh(was: Option<u64>, number: usize) -> Option<usize>
    ensures some { (i : ℕ) → result ≡ Some i → (was ≡ None) × (i ≡ number) }
    ensures none { result ≡ None → was ≢ None }
{
    match was {
        None => Some(number),
        Some(_) => None,
    }
}

/// The first erasure counts.
fn first(erased: Option<u64>, place: u64) -> Option<u64>
    ensures { result ≡ first_of erased place }
{
    match erased {
        None => Some(place),
        Some(at) => Some(at),
    }
}
