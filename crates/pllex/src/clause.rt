//! The tokens of the next clause.
ghost use Rattle.std.specs.Prelude.{◌≡◌, ◌≤◌, ◌<◌, length, List, ℕ, IfOk, IfSome};
ghost use Rattle.pllex.specs.Tokens.{item_behind, next_item, is_end, TokensBetween, IsClause, IsOver, IsFault};
ghost use Rattle.pllex.specs.Places.{Advances};
ghost use Rattle.pllex.specs.Lexed.{Lexed};
ghost use Rattle.pllex.specs.Named.{AreNamed};
ghost use Rattle.pllex.specs.declared.token.Token.{Token};
ghost use Rattle.pllex.specs.declared.token.Fault.{Fault};

use crate::characters::after_mark;
use crate::error::{ClauseTokens, LexError};
use crate::item::item_at;
use crate::layout::{Gap, gap_at};
use crate::token::{Fault, Kind, Scanned};
use std::alloc::Global;

fn item_behind(text: &[u8], place: usize) -> Scanned
    requires { place ≤ length text.now }
    ensures value { result ≡ item_behind text.now place }
    ensures advances { Advances place (length text.now) result }
{
    match gap_at(text, place) {
        Gap::Before(place) => item_at(text, place),
        Gap::Unclosed(start) => Scanned::Fault(Fault::OpenComment, start),
        Gap::Bad(place) => Scanned::Fault(Fault::BadUtf8, place),
    }
}

/// The next token behind layout, a fault, or the end of the text.
#[tactic(auto, unfolding(crate::specs::Tokens::next_item))]
fn next_item(text: &[u8], from: usize) -> Scanned
    requires { from ≤ length text.now }
    ensures value { result ≡ next_item text.now from }
    ensures advances { Advances from (length text.now) result }
{
    item_behind(text, after_mark(text, from))
}

fn is_end(kind: Kind) -> bool
    ensures { result ≡ is_end kind }
{
    match kind {
        Kind::End => true,
        _ => false,
    }
}

/// The tokens of the next clause from a place of the text on, its end token last, and the place behind it
/// (6.4). None where only layout is left. A fault comes exactly where no end token is reached: the first fault
/// that is met, or `NoEnd`. The time is linear in what is passed over.
pub fn clause_tokens(
    alloc: Global,
    text: &[u8],
    from: usize,
) -> Result<Option<ClauseTokens>, LexError>
    requires { from ≤ length text.now }
    ensures lexed { Lexed text.now from result }

    // A caller that goes on behind the clause comes to the text's end.
    ensures onward { IfOk result (λ found.
        IfSome found (λ clause. (from < clause.after) × (clause.after ≤ length text.now))) }

    // Names and variables are text that lies within the text, of at most 65,535 bytes; so are the values of quoted
    // names, and those of double-quoted items are text of any length.
    ensures named { IfOk result (λ found.
        IfSome found (λ clause. AreNamed text.now clause.tokens.items)) }
{
    let mut tokens = Vec::new(alloc);
    let mut place = from;
    'tokens: loop {
        match next_item(text, place) {
            Scanned::Token(token) => {
                tokens.push(token)?;
                place = token.end;
                if is_end(token.kind) {
                    return Ok(Some(ClauseTokens {
                        tokens,
                        after: place,
                    }));
                }
            }
            Scanned::Fault(fault, at) => return Err(LexError::Bad(fault, at)),
            Scanned::Nothing => {
                return match tokens.first() {
                    None => Ok(None),
                    Some(token) => Err(LexError::Bad(Fault::NoEnd, token.start)),
                };
            }
        }
    }
}

/// A text has one answer: the tokens of a clause, a fault with its place, or neither.
pub fn one_answer()
    ensures clause { (text : List ℕ) (from : ℕ) (ts us : List Token) (a b : ℕ) →
        IsClause text from ts a → IsClause text from us b → (ts ≡ us) × (a ≡ b) }
    ensures fault { (text : List ℕ) (from : ℕ) (ts : List Token) (a : ℕ) (f : Fault) (at : ℕ) →
        IsClause text from ts a → IsFault text from f at → ⊥ }
    ensures over { (text : List ℕ) (from : ℕ) (ts : List Token) (a : ℕ) →
        IsClause text from ts a → IsOver text from → ⊥ }
    ensures faults { (text : List ℕ) (from : ℕ) (f g : Fault) (p q : ℕ) →
        IsFault text from f p → IsFault text from g q → (f ≡ g) × (p ≡ q) }
    ensures fault_over { (text : List ℕ) (from : ℕ) (f : Fault) (p : ℕ) →
        IsFault text from f p → IsOver text from → ⊥ }
{}
