//! What stands in operand position, and what extends an operand.
ghost use Rattle.std.specs.Prelude.{◌≡◌, option_map, nat_le, if◌then◌else◌, Some, None};
ghost use Rattle.plops.specs.Tables.{prefix_of};
ghost use Rattle.plread.specs.Reading.{called, joined, signed, begins, name_begins, integer_start, negative, negative_start, word_start, square_start, curly_start, start_of, next_of, fits, behind, between, uncalled, name_start};
ghost use Rattle.plread.specs.Words.{name_at};
ghost use Rattle.plread.specs.Looks.{view, start_view, next_view};

use crate::token::Token;
use crate::words::Words;
use plops::operator::{Infix, Postfix, Prefix};
use plops::table::OpTable;

/// A term that one token is, or `[]` or `{}`; an atom by the place of its name, a double-quoted text by its own.
#[derive(Clone, Copy)]
pub enum Leaf {
    Variable(u64),
    Integer(i64),
    Atom(usize),
    Codes(usize),
    Chars(usize),
}

/// What stands in operand position, and the tokens behind it.
#[derive(Clone, Copy)]
pub enum Opening<'a> {
    Stands(Leaf, &'a [Token]),
    Opens(&'a [Token]),
    OpensList(&'a [Token]),
    OpensCurly(&'a [Token]),
    Calls(usize, &'a [Token]),
    Before(usize, Prefix, &'a [Token]),
    Nothing,
}

/// What extends a complete operand, and the tokens behind it.
#[derive(Clone, Copy)]
pub enum Follower<'a> {
    Between(usize, Infix, &'a [Token]),
    Behind(usize, Postfix, &'a [Token]),
    Stop,
}

fn called<'a>(words: &Words, tokens: &'a [Token]) -> Option<&'a [Token]>
    ensures { option_map (λ r. view words.now r.now) result ≡ called (view words.now tokens.now) }
{
    match tokens {
        [Token::OpenCall, rest @ ..] => Some(rest),
        _ => None,
    }
}

fn joined<'a>(words: &Words, tokens: &'a [Token]) -> Option<(u64, &'a [Token])>
    ensures { option_map (λ r. (r.0, view words.now r.1.now)) result ≡ joined (view words.now tokens.now) }
{
    match tokens {
        [Token::Integer(n, true), rest @ ..] => Some((*n, rest)),
        _ => None,
    }
}

/// The integer of which a name is the sign (6.3.4.1).
fn signed<'a>(
    words: &Words,
    name: usize,
    bare: bool,
    tokens: &'a [Token],
) -> Option<(u64, &'a [Token])>
    ensures { option_map (λ r. (r.0, view words.now r.1.now)) result
        ≡ signed (name_at words.now name) bare (view words.now tokens.now) }
{
    if bare && words.text(name) == "-" {
        joined(words, tokens)
    } else {
        None
    }
}

fn name_begins(ops: &OpTable, words: &Words, name: usize, bare: bool, tokens: &[Token]) -> bool
    ensures { result ≡ name_begins ops.now (name_at words.now name) bare (view words.now tokens.now) }
{
    let text = words.text(name);
    called(words, tokens).is_some()
        || signed(words, name, bare, tokens).is_some()
        || ops.prefix(text).is_some()
        || !(ops.infix(text).is_some() || ops.postfix(text).is_some())
}

/// Whether a term can begin here (6.3.4.2).
fn begins(ops: &OpTable, words: &Words, tokens: &[Token]) -> bool
    ensures { result ≡ begins ops.now (view words.now tokens.now) }
{
    match tokens {
        [Token::Name(word, bare), rest @ ..] => name_begins(ops, words, *word, *bare, rest),
        [Token::Variable(_), ..] => true,
        [Token::Integer(_, _), ..] => true,
        [Token::Codes(_), ..] => true,
        [Token::Chars(_), ..] => true,
        [Token::Atom(_), ..] => true,
        [Token::TooLong, ..] => true,
        [Token::Open, ..] => true,
        [Token::OpenCall, ..] => true,
        [Token::OpenSquare, ..] => true,
        [Token::OpenCurly, ..] => true,
        _ => false,
    }
}

fn uncalled<'a>(
    ops: &OpTable,
    words: &Words,
    max: u16,
    name: usize,
    tokens: &'a [Token],
) -> Opening<'a>
    ensures { let text = name_at words.now name in
        start_view words.now result ≡ uncalled ops.now max text (view words.now tokens.now) (prefix_of ops.now text) }
{
    match ops.prefix(words.text(name)) {
        None => Opening::Stands(Leaf::Atom(name), tokens),
        Some(op) => {
            if !begins(ops, words, tokens) {
                Opening::Stands(Leaf::Atom(name), tokens)
            } else if op.priority <= max {
                Opening::Before(name, op, tokens)
            } else {
                Opening::Nothing
            }
        }
    }
}

fn name_start<'a>(
    ops: &OpTable,
    words: &Words,
    max: u16,
    name: usize,
    tokens: &'a [Token],
) -> Opening<'a>
    ensures { let behind = view words.now tokens.now in
        start_view words.now result ≡ name_start ops.now max (name_at words.now name) behind (called behind) }
{
    match called(words, tokens) {
        Some(inside) => Opening::Calls(name, inside),
        None => uncalled(ops, words, max, name, tokens),
    }
}

fn integer_start<'a>(words: &Words, n: u64, tokens: &'a [Token]) -> Opening<'a>
    ensures { start_view words.now result ≡ integer_start n (view words.now tokens.now) }
{
    if n < 9223372036854775808 {
        Opening::Stands(Leaf::Integer(n as i64), tokens)
    } else {
        Opening::Nothing
    }
}

/// The negative of an integer of at most 2^63. None for a greater one.
pub fn negative(n: u64) -> Option<i64>
    ensures { result ≡ (if nat_le n 9223372036854775808 then Some (negative n) else None) }
{
    if n > 9223372036854775808 {
        None
    } else if n == 0 {
        Some(0)
    } else {
        Some(-1 - (n - 1) as i64)
    }
}

fn negative_start<'a>(words: &Words, n: u64, tokens: &'a [Token]) -> Opening<'a>
    ensures { start_view words.now result ≡ negative_start n (view words.now tokens.now) }
{
    match negative(n) {
        Some(value) => Opening::Stands(Leaf::Integer(value), tokens),
        None => Opening::Nothing,
    }
}

fn word_start<'a>(
    ops: &OpTable,
    words: &Words,
    max: u16,
    name: usize,
    bare: bool,
    tokens: &'a [Token],
) -> Opening<'a>
    ensures { let behind = view words.now tokens.now in let text = name_at words.now name in
        start_view words.now result ≡ word_start ops.now max text behind (signed text bare behind) }
{
    match signed(words, name, bare, tokens) {
        Some((n, rest)) => negative_start(words, n, rest),
        None => name_start(ops, words, max, name, tokens),
    }
}

/// Behind an opening square bracket (6.3.5).
fn square_start<'a>(words: &Words, tokens: &'a [Token]) -> Opening<'a>
    ensures { start_view words.now result ≡ square_start (view words.now tokens.now) }
{
    match tokens {
        [Token::CloseSquare, rest @ ..] => Opening::Stands(Leaf::Atom(words.nil()), rest),
        _ => Opening::OpensList(tokens),
    }
}

/// Behind an opening brace (6.3.6).
fn curly_start<'a>(words: &Words, tokens: &'a [Token]) -> Opening<'a>
    ensures { start_view words.now result ≡ curly_start (view words.now tokens.now) }
{
    match tokens {
        [Token::CloseCurly, rest @ ..] => Opening::Stands(Leaf::Atom(words.curly()), rest),
        _ => Opening::OpensCurly(tokens),
    }
}

/// What stands in operand position, where a priority of at most `max` fits.
#[tactic(auto, unfolding(crate::specs::Reading::start_of))]
pub fn start_of<'a>(ops: &OpTable, words: &Words, max: u16, tokens: &'a [Token]) -> Opening<'a>
    ensures { start_view words.now result ≡ start_of ops.now max (view words.now tokens.now) }
{
    match tokens {
        [Token::Name(word, bare), rest @ ..] => word_start(ops, words, max, *word, *bare, rest),
        [Token::Variable(n), rest @ ..] => Opening::Stands(Leaf::Variable(*n), rest),
        [Token::Integer(n, _), rest @ ..] => integer_start(words, *n, rest),
        [Token::Codes(place), rest @ ..] => Opening::Stands(Leaf::Codes(*place), rest),
        [Token::Chars(place), rest @ ..] => Opening::Stands(Leaf::Chars(*place), rest),
        [Token::Atom(place), rest @ ..] => Opening::Stands(Leaf::Atom(*place), rest),
        [Token::Open, rest @ ..] => Opening::Opens(rest),
        [Token::OpenCall, rest @ ..] => Opening::Opens(rest),
        [Token::OpenSquare, rest @ ..] => square_start(words, rest),
        [Token::OpenCurly, rest @ ..] => curly_start(words, rest),
        _ => Opening::Nothing,
    }
}

/// Whether an operator stands behind an operand of priority `given`, where the whole may have at most `max`.
fn fits(priority: u16, left: u16, max: u16, given: u16) -> bool
    ensures { result ≡ fits priority left max given }
{
    priority <= max && given <= left
}

fn behind<'a>(
    words: &Words,
    op: Option<Postfix>,
    max: u16,
    given: u16,
    name: usize,
    tokens: &'a [Token],
) -> Follower<'a>
    ensures { let text = name_at words.now name in
        next_view words.now result ≡ behind op max given text (view words.now tokens.now) }
{
    match op {
        None => Follower::Stop,
        Some(op) => {
            if fits(op.priority, op.left, max, given) {
                Follower::Behind(name, op, tokens)
            } else {
                Follower::Stop
            }
        }
    }
}

fn between<'a>(
    words: &Words,
    op: Option<Infix>,
    post: Option<Postfix>,
    max: u16,
    given: u16,
    name: usize,
    tokens: &'a [Token],
) -> Follower<'a>
    ensures { let text = name_at words.now name in
        next_view words.now result ≡ between op post max given text (view words.now tokens.now) }
{
    match op {
        None => behind(words, post, max, given, name, tokens),
        Some(op) => {
            if fits(op.priority, op.left, max, given) {
                Follower::Between(name, op, tokens)
            } else {
                behind(words, post, max, given, name, tokens)
            }
        }
    }
}

/// What extends an operand of priority `given`, where the whole may have at most `max`.
#[tactic(auto, unfolding(crate::specs::Reading::next_of))]
pub fn next_of<'a>(
    ops: &OpTable,
    words: &Words,
    max: u16,
    given: u16,
    tokens: &'a [Token],
) -> Follower<'a>
    ensures { next_view words.now result ≡ next_of ops.now max given (view words.now tokens.now) }
{
    match tokens {
        [Token::Name(word, _), rest @ ..] => {
            let text = words.text(*word);
            between(
                words,
                ops.infix(text),
                ops.postfix(text),
                max,
                given,
                *word,
                rest,
            )
        }
        [Token::Comma, rest @ ..] => {
            let comma = words.comma();
            between(
                words,
                ops.infix(","),
                ops.postfix(","),
                max,
                given,
                comma,
                rest,
            )
        }
        _ => Follower::Stop,
    }
}
