//! By what own updates erase, the number of the one that did.
ghost use Rattle.std.specs.Prelude.{◌≡◌, ◌<◌, None, Some};
ghost use Rattle.std.specs.HashMap.{get, spare};
ghost use Rattle.plevent.specs.Alive.{change_if};
ghost use Rattle.pltx.specs.Own.{erased_in, is_target, same_target, target_of};
ghost use Rattle.pltx.specs.declared.target.Target.{Target as Targeted};

use crate::target::{Target, target_of};
use plevent::Update;
use std::collections::HashMap;

/// The number with which a target is marked.
pub(crate) fn marked(marks: &HashMap<Target, u64>, target: &Target) -> Option<u64>
    ensures { result ≡ get same_target marks.now target.now }
{
    match marks.get(target) {
        Some(number) => Some(*number),
        None => None,
    }
}

/// Marks a target, for which there is room.
pub(crate) fn mark(marks: &mut HashMap<Target, u64>, target: Target, number: u64)
    requires { 0 < spare marks.old }
    ensures { (t : Targeted) → get same_target marks.new t ≡ change_if (same_target target t) (Some number) (get same_target marks.old t) }
{
    match marks.insert(target, number) {
        Ok(_) => {}
        Err(_) => unreachable!(),
    }
}

/// Marks no more what these updates erase.
pub(crate) fn unmark(marks: &mut HashMap<Target, u64>, updates: &[Update])
    ensures { (t : Targeted) → get same_target marks.new t ≡ change_if (erased_in t updates.now) None (get same_target marks.old t) }
{
    for update in updates {
        unmark_one(marks, update);
    }
}

fn unmark_one(marks: &mut HashMap<Target, u64>, update: &Update)
    ensures { (t : Targeted) → get same_target marks.new t ≡ change_if (is_target t (target_of update.now)) None (get same_target marks.old t) }
{
    match target_of(update) {
        None => {}
        Some(target) => {
            marks.remove(&target);
        }
    }
}
