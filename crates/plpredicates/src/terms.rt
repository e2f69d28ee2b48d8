//! Built-in predicates on terms (ISO/IEC 13211-1 8.2).
ghost use Rattle.std.specs.Prelude.{◌≡◌, ℕ, map};
ghost use Rattle.plcells.specs.Store.{Store, value, AreValues};
ghost use Rattle.plprogram.specs.declared.settings.Settings.{Settings};
ghost use Rattle.plbuiltin.specs.Terms.{on_terms};
ghost use Rattle.planswers.specs.Answers.{IsThere, meant};

use planswers::answer::Answer;
use plcells::cell::Cell;
use plnames::kind::Terms;

/// What a call of one of them comes to.
pub(crate) fn terms_answer(b: Terms, args: &[Cell]) -> Answer
    ensures is { (h : Store) (s : Settings) (n : ℕ) → meant h s n result ≡ on_terms b (map (value h) args.now) s }
    ensures there { (h : Store) → AreValues h args.now → IsThere h result }
{
    match (b, args) {
        (Terms::Unify, [left, right]) => Answer::Unifies(*left, *right),
        (Terms::Differ, [left, right]) => Answer::Differs(*left, *right),
        _ => Answer::Fails,
    }
}
