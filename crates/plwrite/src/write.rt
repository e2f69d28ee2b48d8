//! The text of a term.
ghost use Rattle.std.specs.Prelude.{◌≡◌, IfOk};
ghost use Rattle.plwrite.specs.Writing.{written, clause_text};

use crate::style::Style;
use crate::task::Notation;
use crate::text::last_byte;
use crate::writer::Writer;
use plops::table::OpTable;
use plterm::characters::is_symbol;
use plterm::term::Term;
use std::alloc::{AllocError, Global};

/// The text of a term under these operators (ISO/IEC 13211-1 7.10.5). Its variables are `_1`, `_2`, .. by first
/// occurrence. It takes time in proportion to the term and its text, and no stack in proportion to either.
pub fn write_term(
    alloc: Global,
    term: &Term,
    ops: &OpTable,
    style: Style,
) -> Result<Vec<u8>, AllocError>
    ensures { IfOk result (λ v. v.items ≡ written ops.now style term.now) }
{
    let numbered = term.copy(alloc, 1)?;
    let notation = Notation { alloc, ops, style };
    Writer::text_of(&notation, &numbered.root())
}

/// A clause or directive on a line of its own, quoted and with operators, with its end and a newline, so that it can be read
/// back under the same operators.
pub fn write_clause(alloc: Global, term: &Term, ops: &OpTable) -> Result<Vec<u8>, AllocError>
    ensures { IfOk result (λ v. v.items ≡ clause_text ops.now term.now) }
{
    let mut text = write_term(alloc, term, ops, Style::Listed)?;
    if is_symbol(last_byte(&text)) {
        text.push(b' ')?;
    }
    text.extend_from_slice(b".\n")?;
    Ok(text)
}
