//! Text made word by word.
ghost use Rattle.std.specs.Prelude.{◌≡◌, ◌∷◌, ◌++◌, [], List, OnOk};
ghost use Rattle.plwrite.specs.Places.{is_bracketed_atom};
ghost use Rattle.plwrite.specs.Writing.{ends_list};
ghost use Rattle.plwrite.specs.Names.{name_text, quoted_unless};
ghost use Rattle.plwrite.specs.Words.{Word, first_byte, last_byte, is_letter, is_held_off, touches, finished, Puts, Adds, sign_text, sign, variable, integer, plain, digits_unless_zero, letter_text, name, functor, prefix, prefix_role, operator, text_of};

use crate::names::{is_bare, is_empty_brackets, quoted};
use crate::place::{Position, TermPlace};
use crate::style::Style;
use crate::task::Notation;
use itoa::Buffer;
use plterm::characters::{is_alphanumeric, is_symbol};
use std::alloc::{AllocError, Global};

/// What a word is to the next one.
#[derive(Clone, Copy)]
pub enum Role {
    Other,
    PrefixOperator,
    PrefixMinus,
}

/// How a text ends: its last byte, and what its last word is.
#[derive(Clone, Copy)]
pub struct Edge {
    last: u8,
    role: Role,
}

/// Punctuation.
#[derive(Clone, Copy)]
pub enum Sign {
    Open,
    Close,
    OpenSquare,
    CloseSquare,
    OpenCurly,
    CloseCurly,
    Comma,
    Bar,
}

impl Sign {
    fn text(self) -> &'static [u8]
        ensures { result.now ≡ sign_text self }
    {
        match self {
            Sign::Open => b"(",
            Sign::Close => b")",
            Sign::OpenSquare => b"[",
            Sign::CloseSquare => b"]",
            Sign::OpenCurly => b"{",
            Sign::CloseCurly => b"}",
            Sign::Comma => b",",
            Sign::Bar => b"|",
        }
    }
}

fn first_byte(text: &[u8]) -> u8
    ensures { result ≡ first_byte text.now }
{
    text.first().copied().unwrap_or(b' ')
}

pub fn last_byte(text: &[u8]) -> u8
    ensures { result ≡ last_byte text.now }
{
    text.last().copied().unwrap_or(b' ')
}

fn is_letter(b: u8) -> bool
    ensures { result ≡ is_letter b }
{
    is_alphanumeric(b) || b >= 128
}

fn is_held_off(role: Role, next: u8) -> bool
    ensures { result ≡ is_held_off role next }
{
    match role {
        Role::Other => false,
        Role::PrefixOperator => next == b'(',
        Role::PrefixMinus => next == b'(' || next.is_ascii_digit(),
    }
}

/// Whether a space stands before a word that begins with this byte.
fn touches(edge: Edge, next: u8) -> bool
    ensures { result ≡ touches edge next }
{
    let letter = is_letter(edge.last);
    (letter && is_letter(next))
        || (is_symbol(edge.last) && is_symbol(next))
        || ((letter || edge.last == b'\'') && next == b'\'')
        || is_held_off(edge.role, next)
}

/// What a prefix operator is to the next word.
fn prefix_role(name: &str) -> Role
    ensures { result ≡ prefix_role name.now }
{
    if name == "-" {
        Role::PrefixMinus
    } else {
        Role::PrefixOperator
    }
}

/// Adds a number's digits, unless it is 0.
fn push_unless_zero(text: &mut Vec<u8>, number: u64) -> Result<(), AllocError>
    ensures { OnOk result (text.new.items ≡ text.old.items ++ digits_unless_zero number) }
{
    if number == 0 {
        return Ok(());
    }
    let mut buffer = Buffer::new();
    text.extend_from_slice(buffer.format(number).as_bytes())
}

/// The text so far.
#[derive(Drop)]
pub struct Text {
    bytes: Vec<u8>,
    edge: Edge,
}

impl Text {
    ghost use Rattle.plwrite.specs.Writing.{opening, closing, behind_bar, called, atom_words};

    #[tactic(auto, unfolding(crate::specs::Words::finished))]
    pub fn new(alloc: Global) -> Text
        ensures { (ws : List Word) → finished result ws ≡ text_of ws }
    {
        Text {
            bytes: Vec::new(alloc),
            edge: Edge {
                last: b' ',
                role: Role::Other,
            },
        }
    }

    /// The bytes.
    #[tactic(auto, unfolding(crate::specs::Words::finished))]
    pub fn into_bytes(self) -> Vec<u8>
        ensures { result.items ≡ finished self [] }
    {
        let Text { bytes, edge: _ } = self;
        bytes
    }

    /// Adds a word, behind a space where it would touch the last one.
    #[tactic(auto, unfolding(crate::specs::Words::finished))]
    fn put(&mut self, text: &[u8], role: Role) -> Result<(), AllocError>
        ensures { OnOk result (Adds self.old self.new (record { text = text.now; role = role })) }
    {
        if touches(self.edge, first_byte(text)) {
            self.bytes.push(b' ')?;
        }
        self.bytes.extend_from_slice(text)?;
        self.edge = Edge {
            last: last_byte(text),
            role,
        };
        Ok(())
    }

    /// Adds punctuation.
    pub fn put_sign(&mut self, mark: Sign) -> Result<(), AllocError>
        ensures { OnOk result (Adds self.old self.new (sign mark)) }
    {
        self.put(mark.text(), Role::Other)
    }

    /// Adds a variable by its number.
    pub fn put_variable(&mut self, alloc: Global, number: u64) -> Result<(), AllocError>
        ensures { OnOk result (Adds self.old self.new (variable number)) }
    {
        let mut buffer = Buffer::new();
        let mut text = Vec::from_slice(alloc, b"_")?;
        text.extend_from_slice(buffer.format(number).as_bytes())?;
        self.put(&text, Role::Other)
    }

    /// Adds an integer.
    pub fn put_integer(&mut self, value: i64) -> Result<(), AllocError>
        ensures { OnOk result (Adds self.old self.new (integer value)) }
    {
        let mut buffer = Buffer::new();
        self.put(buffer.format(value).as_bytes(), Role::Other)
    }

    /// Adds a variable by its place among A .. Z, A1 .. Z1, and so on.
    pub fn put_letter(&mut self, alloc: Global, number: u64) -> Result<(), AllocError>
        ensures { OnOk result (Adds self.old self.new (plain (letter_text number))) }
    {
        let mut text = Vec::from_slice(alloc, &[b'A' + (number % 26) as u8])?;
        push_unless_zero(&mut text, number / 26)?;
        self.put(&text, Role::Other)
    }

    fn put_name_as(
        &mut self,
        alloc: Global,
        style: Style,
        name: &str,
        role: Role,
    ) -> Result<(), AllocError>
        ensures { OnOk result (Adds self.old self.new (record { text = name_text style name.now; role = role })) }
    {
        match style {
            Style::Plain => self.put(name.as_bytes(), role),
            Style::Quoted | Style::Canonical | Style::Listed => {
                self.put_quoted_unless(alloc, is_bare(name), name, role)
            }
        }
    }

    fn put_quoted_unless(
        &mut self,
        alloc: Global,
        is_bare: bool,
        name: &str,
        role: Role,
    ) -> Result<(), AllocError>
        ensures { OnOk result (Adds self.old self.new (record { text = quoted_unless is_bare name.now; role = role })) }
    {
        if is_bare {
            self.put(name.as_bytes(), role)
        } else {
            let text = quoted(alloc, name.as_bytes())?;
            self.put(&text, role)
        }
    }

    /// Adds a name as an atom.
    pub fn put_name(&mut self, alloc: Global, style: Style, text: &str) -> Result<(), AllocError>
        ensures { OnOk result (Adds self.old self.new (name style text.now)) }
    {
        self.put_name_as(alloc, style, text, Role::Other)
    }

    /// Adds a name before its arguments.
    pub fn put_functor(&mut self, alloc: Global, style: Style, text: &str) -> Result<(), AllocError>
        ensures { OnOk result (Adds self.old self.new (functor style text.now)) }
    {
        match style {
            Style::Plain => self.put(text.as_bytes(), Role::Other),
            Style::Quoted | Style::Canonical | Style::Listed => {
                let bare = is_bare(text) && !is_empty_brackets(text);
                self.put_quoted_unless(alloc, bare, text, Role::Other)
            }
        }
    }

    /// Adds a name as a prefix operator.
    pub fn put_prefix(&mut self, alloc: Global, style: Style, text: &str) -> Result<(), AllocError>
        ensures { OnOk result (Adds self.old self.new (prefix style text.now)) }
    {
        self.put_name_as(alloc, style, text, prefix_role(text))
    }

    /// Adds a name as an infix or postfix operator.
    pub fn put_operator(
        &mut self,
        alloc: Global,
        style: Style,
        text: &str,
    ) -> Result<(), AllocError>
        ensures { OnOk result (Adds self.old self.new (operator style text.now)) }
    {
        if text == "," {
            self.put_sign(Sign::Comma)
        } else {
            self.put_name_as(alloc, style, text, Role::Other)
        }
    }

    /// Adds a bar before a term that ends a list.
    pub fn put_bar(&mut self, position: Position) -> Result<(), AllocError>
        ensures { OnOk result (Puts self.old self.new (behind_bar position)) }
    {
        match position {
            Position::At(_) => Ok(()),
            Position::Tail => self.put_sign(Sign::Bar),
        }
    }

    /// Adds an opening bracket, where one is needed.
    pub fn put_opening(&mut self, is_needed: bool) -> Result<(), AllocError>
        ensures { OnOk result (Puts self.old self.new (opening is_needed)) }
    {
        if is_needed {
            self.put_sign(Sign::Open)
        } else {
            Ok(())
        }
    }

    /// Adds a closing bracket, where one is needed.
    pub fn put_closing(&mut self, is_needed: bool) -> Result<(), AllocError>
        ensures { OnOk result (Puts self.old self.new (closing is_needed)) }
    {
        if is_needed {
            self.put_sign(Sign::Close)
        } else {
            Ok(())
        }
    }

    /// Adds a functor and the opening bracket of its arguments.
    pub fn put_call(
        &mut self,
        notation: &Notation<'_>,
        position: Position,
        text: &str,
    ) -> Result<(), AllocError>
        ensures { OnOk result (Puts self.old self.new (called notation.now.style position text.now)) }
    {
        self.put_bar(position)?;
        self.put_functor(notation.alloc, notation.style, text)?;
        self.put_sign(Sign::Open)
    }

    /// Adds an atom.
    pub fn put_atom(
        &mut self,
        notation: &Notation<'_>,
        position: Position,
        text: &str,
    ) -> Result<(), AllocError>
        ensures { OnOk result (Puts self.old self.new
            (atom_words notation.now.ops.now notation.now.style position (ends_list position text.now) text.now)) }
    {
        if ends_list(position, text) {
            return Ok(());
        }
        let needed = is_bracketed_atom(notation, position.place(), text);
        self.put_bar(position)?;
        self.put_opening(needed)?;
        self.put_name(notation.alloc, notation.style, text)?;
        self.put_closing(needed)
    }
}

/// Whether an atom is what is left of a list at its end.
fn ends_list(position: Position, name: &str) -> bool
    ensures { result ≡ ends_list position name.now }
{
    match position {
        Position::At(_) => false,
        Position::Tail => name == "[]",
    }
}

/// Whether an atom stands in brackets in a place.
fn is_bracketed_atom(notation: &Notation<'_>, place: TermPlace, name: &str) -> bool
    ensures { result ≡ is_bracketed_atom notation.now.ops.now notation.now.style place name.now }
{
    place.is_operand()
        && (notation.prefix(name).is_some()
            || notation.infix(name).is_some()
            || notation.postfix(name).is_some())
}
