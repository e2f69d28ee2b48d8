//! What a writer has still to write.
ghost use Rattle.std.specs.Prelude.{◌≡◌};
ghost use Rattle.plops.specs.Tables.{prefix_of, infix_of, postfix_of};
ghost use Rattle.plwrite.specs.Styles.{used};

use crate::place::Position;
use crate::style::Style;
use crate::text::Sign;
use plops::operator::{Infix, Postfix, Prefix};
use plops::table::OpTable;
use plterm::name::Name;
use std::alloc::Global;

/// The operators and the style by which terms are written.
#[derive(Drop)]
pub struct Notation<'a> {
    pub alloc: Global,
    pub ops: &'a OpTable,
    pub style: Style,
}

impl Notation<'_> {
    /// The prefix operator that a name is written as.
    pub fn prefix(&self, name: &str) -> Option<Prefix>
        ensures { result ≡ used self.now.style (prefix_of self.now.ops.now name.now) }
    {
        match self.style {
            Style::Plain | Style::Quoted | Style::Listed => self.ops.prefix(name),
            Style::Canonical => None,
        }
    }

    /// The infix operator that a name is written as.
    pub fn infix(&self, name: &str) -> Option<Infix>
        ensures { result ≡ used self.now.style (infix_of self.now.ops.now name.now) }
    {
        match self.style {
            Style::Plain | Style::Quoted | Style::Listed => self.ops.infix(name),
            Style::Canonical => None, // in functional notation
        }
    }

    /// The postfix operator that a name is written as.
    pub fn postfix(&self, name: &str) -> Option<Postfix>
        ensures { result ≡ used self.now.style (postfix_of self.now.ops.now name.now) }
    {
        match self.style {
            Style::Plain | Style::Quoted | Style::Listed => self.ops.postfix(name),
            Style::Canonical => None,
        }
    }
}

/// A part of the text. Terms are taken in their order, so no task holds one.
#[derive(Drop)]
pub enum Task<'a> {
    Mark(Sign),
    /// An infix or postfix operator.
    OperatorName(&'a Name),
    /// The next term.
    Term(Position),
    /// A compound of this name, whose only argument is the next term.
    Only(&'a Name, Position),
    /// So many arguments behind another, and the closing bracket.
    Others(u16),
}
