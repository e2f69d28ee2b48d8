//! The tokens of a clause as the reader takes them.
ghost use Rattle.std.specs.Prelude.{◌≡◌, ◌≤◌, ◌++◌, ℕ, List, length, map, string_bytes, IfOk, OnOk};
ghost use Rattle.pllex.specs.Named.{bytes_of, value_of, IsWord, IsNamedAs, AreNamed};
ghost use Rattle.plread.specs.Spelling.{mark, sign, seen_after, is_joined, signs_of, variable_names};
ghost use Rattle.plread.specs.Looks.{sign_view, view};
ghost use Rattle.plread.specs.Signs as signs;
ghost use Rattle.plread.specs.Texts.{text_tree};
ghost use Rattle.plread.specs.Words.{Lexicon, wider, StartsWith};

use crate::token::Token;
use crate::variables::Variables;
use crate::words::Words;
use pllex::token::{Kind, Token as Spelled};
use pllex::value::value_of;
use plops::flag::Quotes;
use plterm::name::Name;
use std::alloc::{AllocError, Global};
use std::str;
use std::string::String;

/// The words and the tokens of a clause, and the names of its variables in the order of their numbers.
#[derive(Drop)]
pub struct Input<'a> {
    pub words: Words,
    pub tokens: Vec<Token>,
    pub names: Vec<&'a str>,
}

fn bytes_of<'a>(text: &'a [u8], token: Spelled) -> &'a str
    requires { IsWord text.now token }
    ensures { result.now ≡ bytes_of text.now token }
{
    match str::from_utf8(&text[token.start..token.end]) {
        Ok(name) => name,
        Err(_) => unreachable!(),
    }
}

fn is_joined(last: Option<usize>, start: usize) -> bool
    ensures { result ≡ is_joined last start }
{
    match last {
        None => false,
        Some(end) => end == start,
    }
}

/// A name, which stands with or without quotes.
fn name_sign(words: &mut Words, name: Name, bare: bool) -> Result<Token, AllocError>
    requires { length name ≤ 65535 }
    ensures sign { IfOk result (λ t. (more : Lexicon) →
        sign_view (wider words.new more) t ≡ signs.Name name bare) }
    ensures words { OnOk result (StartsWith words.old words.new) }
{
    let place = words.push(name)?;
    Ok(Token::Name(place, bare))
}

/// A text in double quotes.
fn text_sign(
    alloc: Global,
    words: &mut Words,
    quotes: Quotes,
    text: String,
) -> Result<Token, AllocError>
    ensures sign { IfOk result (λ t. (more : Lexicon) →
        sign_view (wider words.new more) t ≡ signs.Text (text_tree quotes (string_bytes text))) }
    ensures words { OnOk result (StartsWith words.old words.new) }
{
    match quotes {
        Quotes::Codes => Ok(Token::Codes(words.push_text(text)?)),
        Quotes::Chars => Ok(Token::Chars(words.push_text(text)?)),
        Quotes::Atom => {
            if text.len() > 65535 {
                return Ok(Token::TooLong);
            }
            let name = Name::new(alloc, text.as_str())?;
            Ok(Token::Atom(words.push(name)?))
        }
    }
}

/// What punctuation says.
fn mark_of(kind: Kind, joined: bool) -> Token
    ensures { (words : Lexicon) → sign_view words result ≡ mark kind joined }
{
    match kind {
        Kind::Open if joined => Token::OpenCall,
        Kind::Open => Token::Open,
        Kind::Close => Token::Close,
        Kind::OpenSquare => Token::OpenSquare,
        Kind::CloseSquare => Token::CloseSquare,
        Kind::OpenCurly => Token::OpenCurly,
        Kind::CloseCurly => Token::CloseCurly,
        Kind::Comma => Token::Comma,
        Kind::Bar => Token::Bar,
        _ => Token::End,
    }
}

fn sign_of<'a>(
    alloc: Global,
    words: &mut Words,
    variables: &mut Variables<'a>,
    text: &'a [u8],
    quotes: Quotes,
    joined: bool,
    token: Spelled,
) -> Result<Token, AllocError>
    requires { IsNamedAs token.kind text.now token }
    // Whatever words come behind.
    ensures sign { IfOk result (λ t. (more : Lexicon) →
        sign_view (wider words.new more) t
        ≡ sign quotes token.kind (bytes_of text.now token) (value_of text.now token) variables.old joined) }
    ensures words { OnOk result (StartsWith words.old words.new) }
    ensures seen { OnOk result (
        variables.new ≡ seen_after token.kind variables.old (bytes_of text.now token)) }
{
    match token.kind {
        Kind::Name => {
            let name = Name::new(alloc, bytes_of(text, token))?;
            name_sign(words, name, true)
        }
        Kind::QuotedName => {
            let value = value_of(alloc, text, &token)?;
            let name = Name::new(alloc, value.as_str())?;
            name_sign(words, name, false)
        }
        Kind::Variable => {
            let number = variables.number(bytes_of(text, token))?;
            Ok(Token::Variable(number))
        }
        Kind::Integer(value) => Ok(Token::Integer(value, joined)),
        Kind::DoubleQuoted => {
            let value = value_of(alloc, text, &token)?;
            text_sign(alloc, words, quotes, value)
        }
        Kind::Open
        | Kind::Close
        | Kind::OpenSquare
        | Kind::CloseSquare
        | Kind::OpenCurly
        | Kind::CloseCurly
        | Kind::Comma
        | Kind::Bar
        | Kind::End => Ok(mark_of(token.kind, joined)),
    }
}

/// The words and the tokens of a clause of a text, and the names of its variables, which are parts of the text. The time is
/// linear in the tokens and their bytes.
pub(crate) fn input_of<'a>(
    alloc: Global,
    text: &'a [u8],
    quotes: Quotes,
    tokens: &[Spelled],
) -> Result<Input<'a>, AllocError>
    requires { AreNamed text.now tokens.now }
    ensures signs { IfOk result (λ input.
        view input.words input.tokens.items ≡ signs_of quotes text.now tokens.now) }
    ensures names { IfOk result (λ input.
        map (λ name. name.now) input.names.items ≡ variable_names text.now tokens.now) }
{
    let mut words = Words::new(alloc)?;
    let mut variables = Variables::new(alloc);
    let mut last = None;
    let mut made = Vec::with_capacity(alloc, tokens.len())?;
    'tokens: for token in tokens {
        let joined = is_joined(last, token.start);
        let sign = sign_of(
            alloc,
            &mut words,
            &mut variables,
            text,
            quotes,
            joined,
            *token,
        )?;
        made.push(sign)?;
        last = Some(token.end);
    }
    Ok(Input {
        words,
        tokens: made,
        names: variables.into_names(),
    })
}
