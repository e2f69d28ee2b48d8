//! The parts of an atom, one at a time (ISO/IEC 13211-1 8.16.3).
ghost use Rattle.std.specs.Prelude.{◌≡◌, ℕ, suc, ◌+◌, ◌<◌, ◌≤◌, List, [], ◌∷◌, length, true, false, IfSome, IfNone};
ghost use Rattle.std.specs.Str.{chars};
ghost use Rattle.plterm.specs.Tree.{Tree};
ghost use Rattle.plbuiltin.specs.Pieces.{part as part_of, parts};
ghost use Rattle.plgenerator.specs.Fitting.{Misses, fitting};
ghost use Rattle.plgenerator.specs.Turns.{IsPart, beside, others, parts_left, parts_if};
ghost use Rattle.plgenerator.specs.Wanting.{AreAllowed, NoneBegins, AreWanted};

use crate::text::{behind, next_offset};
use crate::turn::{Offset, Part};
use plterm::name::Name;

/// What the arguments say of a part: the numbers of characters before it, in it and behind it, and its text.
#[derive(Drop)]
pub(crate) struct Wanted {
    pub before: Option<u64>,
    pub length: Option<u64>,
    pub after: Option<u64>,
    pub text: Option<Name>,
}

/// How many characters those parts have, of the ones that begin at a place, that may fit.
#[derive(Clone, Copy)]
enum Lengths {
    All,
    One(u64),
    None,
}

/// The first part of a text, from which on all its parts are (8.16.3).
pub fn all_parts(text: &str) -> Part
    requires { length text.now ≤ 65535 }
    ensures part { IsPart (chars text.now) result }
    ensures all { (us : List Tree) → parts_left (chars text.now) us result ≡ parts (chars text.now) us }
{
    Part {
        offset: Offset {
            characters: 0,
            bytes: 0,
        },
        length: 0,
        after: text.chars().count() as u16,
    }
}

/// Which lengths may fit where so many characters stand from a place on.
fn fitting_lengths(wanted: &Wanted, room: u64) -> Lengths
    ensures { (us : List Tree) → AreWanted us wanted.now → (cs : List ℕ) (b : ℕ) → b + room ≡ length cs → AreAllowed us cs b room result }
{
    match (wanted.length, wanted.after) {
        (Some(length), _) => Lengths::One(length),
        (None, Some(after)) if after <= room => Lengths::One(room - after),
        (None, Some(_)) => Lengths::None,
        (None, None) => Lengths::All,
    }
}

/// The part of so many characters, where one begins, unless it has too few or too many.
fn of_length(part: Part, length: u64) -> Option<Part>
    requires { part.length + part.after ≤ 65535 }
    ensures same { IfSome result (λ q. (q.offset ≡ part.offset) × (q.length + q.after ≡ part.length + part.after)) }
    ensures some { IfSome result (λ q. (q.length ≡ length) × (part.length ≤ length)) }
    ensures none { IfNone result (length ≤ part.length + part.after → part.length ≤ length → ⊥) }
{
    let room = u64::from(part.length) + u64::from(part.after);
    if length < u64::from(part.length) || length > room {
        return None;
    }
    Some(Part {
        offset: part.offset,
        length: length as u16,
        after: (room - length) as u16,
    })
}

/// Whether so many characters may stand behind a part.
fn may_end(wanted: &Wanted, part: Part) -> bool
    ensures { result ≡ false → (us : List Tree) → AreWanted us wanted.now → (cs : List ℕ) → Misses (part_of cs us part.offset.characters part.length part.after) }
{
    match wanted.after {
        Some(after) => after == u64::from(part.after),
        None => true,
    }
}

/// The first of the parts that begin where one does that may fit by its length.
fn first_beside(wanted: &Wanted, part: Part) -> Option<Part>
    requires { part.length + part.after ≤ 65535 }
    ensures same { IfSome result (λ q. (q.offset ≡ part.offset) × (q.length + q.after ≡ part.length + part.after)) }
    ensures later { IfSome result (λ q. q.after ≤ part.after) }
    ensures fits { (us : List Tree) → AreWanted us wanted.now → (cs : List ℕ) → IsPart cs part → IfSome result (λ q. fitting (beside cs us part) ≡ fitting (beside cs us q)) }
    ensures none { (us : List Tree) → AreWanted us wanted.now → (cs : List ℕ) → IsPart cs part → IfNone result (fitting (beside cs us part) ≡ []) }
{
    let room = u64::from(part.length) + u64::from(part.after);
    match fitting_lengths(wanted, room) {
        Lengths::All => Some(part),
        Lengths::None => None,
        Lengths::One(length) => {
            let Some(found) = of_length(part, length) else {
                return None;
            };
            if may_end(wanted, found) {
                Some(found)
            } else {
                None
            }
        }
    }
}

/// Whether a part that begins where one does may fit by its place and its text.
fn may_begin(wanted: &Wanted, text: &str, part: Part) -> bool
    requires { IsPart (chars text.now) part }
    ensures { result ≡ false → (us : List Tree) → AreWanted us wanted.now → NoneBegins us (chars text.now) part.offset.characters (part.length + part.after) }
{
    if let Some(before) = wanted.before {
        if before != u64::from(part.offset.characters) {
            return false;
        }
    }
    match &wanted.text {
        Some(name) => behind(text, part.offset).starts_with(name.as_str()),
        None => true,
    }
}

/// Whether all parts that may fit begin at a place or before it.
fn is_passed(wanted: &Wanted, part: Part) -> bool
    ensures { result ≡ true → (us : List Tree) → AreWanted us wanted.now → (cs : List ℕ) (b l r : ℕ) → part.offset.characters < b → Misses (part_of cs us b l r) }
{
    match wanted.before {
        Some(before) => before <= u64::from(part.offset.characters),
        None => false,
    }
}

/// The first of the parts that begin behind one.
fn first_behind(wanted: &Wanted, text: &str, part: Part) -> Option<Part>
    requires name { length text.now ≤ 65535 }
    requires part { IsPart (chars text.now) part }
    ensures part { IfSome result (IsPart (chars text.now)) }
    ensures fewer { IfSome result (λ q. suc (q.length + q.after) ≡ part.length + part.after) }
    ensures some { (us : List Tree) → IfSome result (λ q. others (chars text.now) us part ≡ parts_left (chars text.now) us q) }
    ensures none { (us : List Tree) → AreWanted us wanted.now → IfNone result (fitting (others (chars text.now) us part) ≡ []) }
{
    let room = u32::from(part.length) + u32::from(part.after);
    if room == 0 {
        return None;
    }
    if is_passed(wanted, part) {
        return None;
    }
    Some(Part {
        offset: next_offset(text, part.offset),
        length: 0,
        after: (room - 1) as u16,
    })
}

/// The first part from one on that begins where it does and may fit.
fn part_here(wanted: &Wanted, text: &str, part: Part) -> Option<Part>
    requires name { length text.now ≤ 65535 }
    requires part { IsPart (chars text.now) part }
    ensures part { IfSome result (IsPart (chars text.now)) }
    ensures left { (us : List Tree) → IfSome result (λ q. length (parts_left (chars text.now) us q) ≤ length (parts_left (chars text.now) us part)) }
    ensures some { (us : List Tree) → AreWanted us wanted.now → IfSome result (λ q. fitting (parts_left (chars text.now) us part) ≡ fitting (parts_left (chars text.now) us q)) }
    ensures none { (us : List Tree) → AreWanted us wanted.now → IfNone result (fitting (parts_left (chars text.now) us part) ≡ fitting (others (chars text.now) us part)) }
{
    if may_begin(wanted, text, part) {
        first_beside(wanted, part)
    } else {
        None
    }
}

/// The first part from one on that may fit.
pub(crate) fn first_part(wanted: &Wanted, text: &str, part: Part) -> Option<Part>
    requires name { length text.now ≤ 65535 }
    requires part { IsPart (chars text.now) part }
    ensures part { IfSome result (IsPart (chars text.now)) }
    ensures left { (us : List Tree) → IfSome result (λ q. length (parts_left (chars text.now) us q) ≤ length (parts_left (chars text.now) us part)) }
    ensures some { (us : List Tree) → AreWanted us wanted.now → IfSome result (λ q. fitting (parts_left (chars text.now) us part) ≡ fitting (parts_left (chars text.now) us q)) }
    ensures none { (us : List Tree) → AreWanted us wanted.now → IfNone result (fitting (parts_left (chars text.now) us part) ≡ []) }
{
    let mut next = part;
    loop {
        if let Some(found) = part_here(wanted, text, next) {
            return Some(found);
        }
        next = first_behind(wanted, text, next)?;
    }
}

/// Whether a longer part that begins where one does may fit.
fn may_be_longer(wanted: &Wanted, part: Part) -> bool
    ensures none { result ≡ false → (us : List Tree) → AreWanted us wanted.now → (cs : List ℕ) → IsPart cs part → (l r : ℕ) → l + r ≡ part.length + part.after → part.length < l → Misses (part_of cs us part.offset.characters l r) }
    ensures some { result ≡ true → 0 < part.after }
{
    if part.after == 0 {
        return false;
    }
    let room = u64::from(part.length) + u64::from(part.after);
    match fitting_lengths(wanted, room) {
        Lengths::All => true,
        Lengths::One(length) => length > u64::from(part.length),
        Lengths::None => false,
    }
}

/// The part behind one that is given, in the order of parts, unless all those that may fit are passed.
pub(crate) fn part_after(wanted: &Wanted, text: &str, part: Part) -> Option<Part>
    requires name { length text.now ≤ 65535 }
    requires part { IsPart (chars text.now) part }
    ensures part { IfSome result (IsPart (chars text.now)) }
    ensures fewer { (us : List Tree) → IfSome result (λ q. length (parts_left (chars text.now) us q) < length (parts_left (chars text.now) us part)) }
    ensures is { (us : List Tree) → AreWanted us wanted.now → fitting (parts_left (chars text.now) us part) ≡ fitting (part_of (chars text.now) us part.offset.characters part.length part.after ∷ parts_if (chars text.now) us result) }
{
    if may_be_longer(wanted, part) {
        return Some(Part {
            offset: part.offset,
            length: part.length + 1,
            after: part.after - 1,
        });
    }
    first_behind(wanted, text, part)
}
