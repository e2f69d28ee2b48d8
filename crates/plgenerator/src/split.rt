//! The ways to divide a text, one at a time (ISO/IEC 13211-1 8.16.2).
ghost use Rattle.std.specs.Prelude.{◌≡◌, ◌<◌, ◌≤◌, List, [], ◌∷◌, length, IfSome, IfNone};
ghost use Rattle.std.specs.Str.{chars};
ghost use Rattle.plterm.specs.Tree.{Tree, atom};
ghost use Rattle.plbuiltin.specs.Pieces.{split as split_of, splits};
ghost use Rattle.plgenerator.specs.Fitting.{fitting};
ghost use Rattle.plgenerator.specs.Turns.{IsSplit, splits_left, splits_if};

use crate::text::next_offset;
use crate::turn::{Offset, Split};
use plterm::name::Name;

/// The first way to divide a text, from which on all the ways are (8.16.2).
pub fn all_splits(text: &str) -> Split
    requires { length text.now ≤ 65535 }
    ensures split { IsSplit (chars text.now) result }
    ensures all { (us : List Tree) → splits_left (chars text.now) us result ≡ splits (chars text.now) us }
{
    Split {
        offset: Offset {
            characters: 0,
            bytes: 0,
        },
        after: text.chars().count() as u16,
    }
}

/// The one way, from one on, so that a front stands before it.
fn behind_front(text: &str, front: &str, split: Split) -> Option<Split>
    requires name { length text.now ≤ 65535 }
    requires split { IsSplit (chars text.now) split }
    ensures split { IfSome result (IsSplit (chars text.now)) }
    ensures some { (u : Tree) → IfSome result (λ q. fitting (splits_left (chars text.now) (atom front.now ∷ u ∷ []) split) ≡ fitting (split_of (chars text.now) (atom front.now ∷ u ∷ []) q.offset.characters ∷ [])) }
    ensures none { (u : Tree) → IfNone result (fitting (splits_left (chars text.now) (atom front.now ∷ u ∷ []) split) ≡ []) }
{
    if !text.starts_with(front) {
        return None;
    }
    let characters = front.chars().count();
    if characters < split.offset.characters as usize {
        return None;
    }
    let all = split.offset.characters as usize + split.after as usize;
    Some(Split {
        offset: Offset {
            characters: characters as u16,
            bytes: front.len() as u16,
        },
        after: (all - characters) as u16,
    })
}

/// The one way, from one on, so that a back stands behind it.
fn before_back(text: &str, back: &str, split: Split) -> Option<Split>
    requires name { length text.now ≤ 65535 }
    requires split { IsSplit (chars text.now) split }
    ensures split { IfSome result (IsSplit (chars text.now)) }
    ensures some { (u : Tree) → IfSome result (λ q. fitting (splits_left (chars text.now) (u ∷ atom back.now ∷ []) split) ≡ fitting (split_of (chars text.now) (u ∷ atom back.now ∷ []) q.offset.characters ∷ [])) }
    ensures none { (u : Tree) → IfNone result (fitting (splits_left (chars text.now) (u ∷ atom back.now ∷ []) split) ≡ []) }
{
    if !text.ends_with(back) {
        return None;
    }
    let after = back.chars().count();
    if after > split.after as usize {
        return None;
    }
    let all = split.offset.characters as usize + split.after as usize;
    Some(Split {
        offset: Offset {
            characters: (all - after) as u16,
            bytes: (text.len() - back.len()) as u16,
        },
        after: after as u16,
    })
}

/// The way behind one.
fn split_after(text: &str, split: Split) -> Option<Split>
    requires name { length text.now ≤ 65535 }
    requires split { IsSplit (chars text.now) split }
    ensures split { IfSome result (IsSplit (chars text.now)) }
    ensures fewer { (us : List Tree) → IfSome result (λ rest. length (splits_left (chars text.now) us rest) < length (splits_left (chars text.now) us split)) }
    ensures is { (us : List Tree) → splits_left (chars text.now) us split ≡ split_of (chars text.now) us split.offset.characters ∷ splits_if (chars text.now) us result }
{
    if split.after == 0 {
        return None;
    }
    Some(Split {
        offset: next_offset(text, split.offset),
        after: split.after - 1,
    })
}

/// The first way from one on that may fit, and those behind it, where the texts of the front and of the back may be known.
pub(crate) fn first_split(
    text: &str,
    front: &Option<Name>,
    back: &Option<Name>,
    split: Split,
) -> Option<(Split, Option<Split>)>
    requires name { length text.now ≤ 65535 }
    requires split { IsSplit (chars text.now) split }
    ensures split { IfSome result (λ q. IsSplit (chars text.now) q.0) }
    ensures rest { IfSome result (λ q. IfSome q.1 (IsSplit (chars text.now))) }
    ensures fewer { (us : List Tree) → IfSome result (λ q. IfSome q.1 (λ rest. length (splits_left (chars text.now) us rest) < length (splits_left (chars text.now) us split))) }
    ensures some { (u w : Tree) → IfSome front.now (λ s. u ≡ atom s) → IfSome back.now (λ s. w ≡ atom s) → IfSome result (λ q. fitting (splits_left (chars text.now) (u ∷ w ∷ []) split) ≡ fitting (split_of (chars text.now) (u ∷ w ∷ []) q.0.offset.characters ∷ splits_if (chars text.now) (u ∷ w ∷ []) q.1)) }
    ensures none { (u w : Tree) → IfSome front.now (λ s. u ≡ atom s) → IfSome back.now (λ s. w ≡ atom s) → IfNone result (fitting (splits_left (chars text.now) (u ∷ w ∷ []) split) ≡ []) }
{
    match (front, back) {
        (Some(front), _) => Some((behind_front(text, front.as_str(), split)?, None)),
        (None, Some(back)) => Some((before_back(text, back.as_str(), split)?, None)),
        (None, None) => Some((split, split_after(text, split))),
    }
}
