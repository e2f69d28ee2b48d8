//! Runs of erased records, which a walk at a later time passes over in one step.
ghost use Rattle.std.specs.Prelude.{◌≡◌, ◌<◌, ◌≤◌, ◌+◌, ◌++◌, ◌∷◌, [], ℕ, List, None, Some, length, slice_index_or, vec_len};
ghost use Rattle.std.specs.Vec.{vec_capacity};
ghost use Rattle.plrecords.specs.declared.record.Record.{Record};
ghost use Rattle.plrecords.specs.declared.runs.ErasedRun.{ErasedRun as Ran};
ghost use Rattle.plrecords.specs.Links.{Class, IsLinked};
ghost use Rattle.plrecords.specs.Runs.{end_at, no_place, HasRuns, IsGone, IsRun, SameRuns};
ghost use Rattle.plrecords.specs.Undone.{HadRun, HadRuns, MoreRuns, OneRun, WasRun};

use crate::ends::Ends;
use crate::group::{Group, United, alone, first_of, separate, short, unite};
use crate::leap::{Leap, leap_over};

/// Erased records of one side of a class that follow one another: from one on up to `last`, each erased by a batch at
/// `latest` or below.
#[derive(Clone, Copy)]
pub struct ErasedRun {
    pub last: usize,
    pub latest: u64,
}

/// What is kept of a record beside its link.
#[derive(Clone, Copy)]
pub struct RecordNotes {
    /// The run that begins here.
    pub run: Option<ErasedRun>,
    /// 32 bits of the number of the record whose link leads here; of its own where none does. Nothing but time depends on it, nor on those below.
    pub from: u32,
    pub group: Group,
    pub leap: Leap,
}

/// The record whose link leads to one.
pub(crate) fn before(places: &[RecordNotes], number: usize) -> Option<usize> {
    let from = places.get(number)?.from as usize;
    if from == number { None } else { Some(from) }
}

/// A run that was noted, with what was noted before.
#[derive(Clone, Copy)]
pub struct Noted {
    pub first: usize,
    /// The run that began at the first one.
    pub run: Option<ErasedRun>,
    pub united: United,
}

/// What an erasure changed: the run that begins at the record, and the one before it, which now reaches over it.
#[derive(Clone, Copy)]
pub struct Buried {
    own: Noted,
    before: Option<Noted>,
}

/// The last record of the run that begins here, as far as a walk at `g` passes over it; else this record.
pub(crate) fn run_end(places: &[RecordNotes], number: usize, g: u64) -> usize
    requires { number < length places.now }
    ensures { result ≡ end_at g number (slice_index_or places.now number no_place).run }
{
    match places[number].run {
        Some(run) if run.latest < g => run.last,
        Some(_) | None => number,
    }
}

/// The first record of the run that this one is in, where a walk at `g` passes over that; else this record.
pub(crate) fn passed_from(places: &[RecordNotes], number: usize, g: u64) -> usize {
    let first = first_of(places, number);
    match run_at(places, first) {
        Some(run) if run.latest < g => first,
        Some(_) | None => number,
    }
}

/// Takes note that a record is erased by a batch at a place, and joins it with the runs before it and behind it.
pub(crate) fn bury(
    places: &mut Vec<RecordNotes>,
    next: &[Option<u32>],
    number: usize,
    place: u64,
) -> Buried
    ensures runs { (c : Class) (rs : List Record) → IsLinked c rs next.now → ((d : Record) → IsGone place (slice_index_or rs number d).erased) → HasRuns c rs places.old.items → HasRuns c rs places.new.items }
    ensures noted { HadRuns result places.old.items places.new.items }
    ensures room { vec_capacity places.new ≡ vec_capacity places.old }
    ensures len { vec_len places.new ≡ vec_len places.old }
{
    bury_in(places.as_mut_slice(), next, number, place)
}

fn bury_in(places: &mut [RecordNotes], next: &[Option<u32>], number: usize, place: u64) -> Buried
    ensures runs { (c : Class) (rs : List Record) → IsLinked c rs next.now → ((d : Record) → IsGone place (slice_index_or rs number d).erased) → HasRuns c rs places.old → HasRuns c rs places.new }
    ensures noted { HadRuns result places.old places.new }
    ensures len { length places.new ≡ length places.old }
{
    let alone = ErasedRun {
        last: number,
        latest: place,
    };
    let run = joined(places, next, alone);
    let own = begin(places, number, run);
    let before = match start_before(places, number) {
        Some(start) => lengthen(places, next, start),
        None => None,
    };
    Buried { own, before }
}

/// Where the run begins that ends with the record before this one, if that is erased.
fn start_before(places: &[RecordNotes], number: usize) -> Option<usize> {
    let from = before(places, number)?;
    Some(first_of(places, from))
}

/// Joins the run that begins here with the one behind it.
fn lengthen(places: &mut [RecordNotes], next: &[Option<u32>], start: usize) -> Option<Noted>
    ensures runs { (c : Class) (rs : List Record) → IsLinked c rs next.now → HasRuns c rs places.old → HasRuns c rs places.new }
    ensures noted { HadRun result places.old places.new }
    ensures len { length places.new ≡ length places.old }
{
    match run_at(places, start) {
        None => return None,
        Some(own) => {
            let run = joined(places, next, own);
            return Some(begin(places, start, run));
        }
    }
}

/// The run that begins at a record, if there is the record and it is erased.
fn run_at(places: &[RecordNotes], number: usize) -> Option<ErasedRun>
    ensures { result ≡ (slice_index_or places.now number no_place).run }
{
    if number < places.len() {
        places[number].run
    } else {
        None
    }
}

/// A run, with the one behind it.
fn joined(places: &[RecordNotes], next: &[Option<u32>], own: ErasedRun) -> ErasedRun
    ensures { (c : Class) (rs : List Record) (i : ℕ) → IsLinked c rs next.now → HasRuns c rs places.now → IsRun c rs i own → IsRun c rs i result }
{
    match run_behind(places, next, own.last) {
        Some(run) => ErasedRun {
            last: run.last,
            latest: later(own.latest, run.latest),
        },
        None => own,
    }
}

/// The run that begins at the record to which the link of this one leads.
fn run_behind(places: &[RecordNotes], next: &[Option<u32>], number: usize) -> Option<ErasedRun>
    ensures { (r : Ran) → result ≡ Some r → (n : ℕ) × (slice_index_or next.now number None ≡ Some n) × ((slice_index_or places.now n no_place).run ≡ Some r) }
{
    if number < next.len() {
        let behind = next[number]? as usize;
        run_at(places, behind)
    } else {
        None
    }
}

fn later(a: u64, b: u64) -> u64
    ensures left { a ≤ result }
    ensures right { b ≤ result }
{
    if a < b { b } else { a }
}

/// Notes a run at its first record, and joins the groups of that and of its last one.
fn begin(places: &mut [RecordNotes], first: usize, run: ErasedRun) -> Noted
    ensures runs { (c : Class) (rs : List Record) → HasRuns c rs places.old → IsRun c rs first run → HasRuns c rs places.new }
    ensures noted { WasRun result places.old places.new }
    ensures len { length places.new ≡ length places.old }
{
    let was = run_at(places, first);
    set_run(places, first, Some(run));
    let united = unite(places, first, run.last);
    Noted {
        first,
        run: was,
        united,
    }
}

/// Takes back what an erasure changed.
pub(crate) fn unbury(places: &mut Vec<RecordNotes>, buried: &Buried)
    ensures back { (xs : List RecordNotes) → HadRuns buried.now xs places.old.items → SameRuns xs places.new.items }
{
    unbury_in(places.as_mut_slice(), buried);
}

fn unbury_in(places: &mut [RecordNotes], buried: &Buried)
    ensures back { (xs : List RecordNotes) → HadRuns buried.now xs places.old → SameRuns xs places.new }
    ensures len { length places.new ≡ length places.old }
{
    if let Some(noted) = &buried.before {
        unnote(places, noted);
    }
    unnote(places, &buried.own);
}

/// Notes again what was noted before a run was.
fn unnote(places: &mut [RecordNotes], noted: &Noted)
    ensures back { OneRun noted.now.first noted.now.run places.old places.new }
{
    separate(places, &noted.united);
    set_run(places, noted.first, noted.run);
}

fn set_run(places: &mut [RecordNotes], first: usize, run: Option<ErasedRun>)
    ensures set { OneRun first run places.old places.new }
{
    if first < places.len() {
        places[first].run = run;
    }
}

/// Notes of a record which one leads to it.
fn set_from(places: &mut [RecordNotes], number: usize, from: usize)
    ensures same { SameRuns places.old places.new }
{
    if number < places.len() {
        places[number].from = short(from);
    }
}

/// Appends the place of one more record, for which there is room.
pub(crate) fn add_place(places: &mut Vec<RecordNotes>, front: bool, number: usize, ends: Ends)
    requires { vec_len places.old < vec_capacity places.old }
    ensures runs { (c : Class) (rs : List Record) (r : Record) → HasRuns c rs places.old.items → HasRuns c (rs ++ r ∷ []) places.new.items }
    ensures more { MoreRuns places.old.items places.new.items }
    ensures room { vec_capacity places.old ≤ vec_capacity places.new }
    ensures len { vec_len places.new ≡ vec_len places.old + 1 }
{
    let leap = leap_over(places.as_slice(), ends.newest(front), number);
    if !front {
        let from = ends.newest(false).unwrap_or(number);
        append(places, from, number, leap);
        return;
    }
    append(places, number, number, leap);
    if let Some(first) = ends.newest(true) {
        set_from(places.as_mut_slice(), first, number);
    }
}

/// Takes back the place of the last record.
pub(crate) fn drop_place(places: &mut Vec<RecordNotes>, front: bool, ends: Ends)
    ensures back { (xs : List RecordNotes) → MoreRuns xs places.old.items → SameRuns xs places.new.items }
{
    places.pop();
    if !front {
        return;
    }
    if let Some(first) = ends.newest(true) {
        set_from(places.as_mut_slice(), first, first);
    }
}

fn append(places: &mut Vec<RecordNotes>, from: usize, number: usize, leap: Leap)
    requires { vec_len places.old < vec_capacity places.old }
    ensures runs { (c : Class) (rs : List Record) (r : Record) → HasRuns c rs places.old.items → HasRuns c (rs ++ r ∷ []) places.new.items }
    ensures more { MoreRuns places.old.items places.new.items }
    ensures room { vec_capacity places.old ≤ vec_capacity places.new }
    ensures len { vec_len places.new ≡ vec_len places.old + 1 }
{
    let place = RecordNotes {
        run: None,
        from: short(from),
        group: alone(number),
        leap,
    };
    match places.push(place) {
        Ok(()) => {}
        Err(_) => unreachable!(),
    }
}
