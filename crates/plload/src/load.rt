//! Loading a program from its text, and listing the text.
ghost use Rattle.std.specs.Prelude.{◌≡◌, List, ℕ, IfErr, IfOk};
ghost use Rattle.plprogram.specs.Program.{Program as Loaded};
ghost use Rattle.plload.specs.Position.{line_of, column_of};
ghost use Rattle.plload.specs.Loading.{Accepts, Loads, Outcome};
ghost use Rattle.plload.specs.Listing.{Lists};
ghost use Rattle.plload.specs.Told.{Tells};

use crate::draft::Draft;
use crate::error::{LoadError, RefusalKind};
use crate::meaning::meaning_of;
use crate::next::{Next, next_of};
use crate::position::position_of;
use crate::taking::take;
use plnames::table::NameTable;
use plprogram::program::Program;
use plprogram::settings::Settings;
use plwrite::write::write_clause;
use std::alloc::Global;

/// The program of a text in UTF-8, a byte order mark at its start being layout (ISO/IEC 13211-1 7.4). Its clauses and
/// directives are read one after another, each under the operators and flags as they then stand; the first that is refused
/// counts. The time is linear in the text.
pub fn load(alloc: Global, text: &[u8]) -> Result<Program, LoadError>
    ensures accepted { IfOk result (λ program. Loads text.now (Accepts program)) }
    ensures refused { IfErr result (Tells text.now) }
{
    let names = NameTable::new(alloc)?;
    let mut settings = Settings::iso(alloc)?;
    let mut draft = Draft::new(alloc);
    let mut place = 0;
    'clauses: loop {
        match next_of(alloc, text, place, &settings)? {
            Next::Over => return Ok(draft.finish(alloc, names, settings)?),
            Next::Stops(at, kind) => return Err(refused(text, at, kind)),
            Next::Reads(term, first, after) => {
                let meaning = meaning_of(alloc, &names, &term)?;
                if let Some(kind) = take(&mut settings, &meaning)? {
                    return Err(refused(text, first, kind));
                }
                draft.add(meaning)?;
                place = after;
            }
        }
    }
}

/// The listing of a program's text: each clause and directive in turn, quoted and with the operators by which it was read,
/// each with its end and a newline. It is refused where loading the text is.
pub fn listing(alloc: Global, text: &[u8]) -> Result<Vec<u8>, LoadError>
    ensures accepted { IfOk result (λ bytes. Lists text.now (Accepts bytes.items)) }
    ensures refused { IfErr result (Tells text.now) }
{
    let names = NameTable::new(alloc)?;
    let mut settings = Settings::iso(alloc)?;
    let mut lines = Vec::new(alloc);
    let mut place = 0;
    'clauses: loop {
        match next_of(alloc, text, place, &settings)? {
            Next::Over => return Ok(lines),
            Next::Stops(at, kind) => return Err(refused(text, at, kind)),
            Next::Reads(term, first, after) => {
                lines.extend_from_slice(&write_clause(alloc, &term, &settings.operators)?)?;
                let meaning = meaning_of(alloc, &names, &term)?;
                if let Some(kind) = take(&mut settings, &meaning)? {
                    return Err(refused(text, first, kind));
                }
                place = after;
            }
        }
    }
}

/// The refusal of the clause that a place of the text tells.
fn refused(text: &[u8], place: usize, kind: RefusalKind) -> LoadError
    ensures { result ≡ LoadError.Refused (line_of text.now place) (column_of text.now place) kind }
{
    let (line, column) = position_of(text, place);
    LoadError::Refused { line, column, kind }
}

/// A text comes to one outcome at most, whatever is made of it.
pub fn one_outcome()
    ensures program { (text : List ℕ) (a b : Outcome Loaded) → Loads text a → Loads text b → a ≡ b }
    ensures listing { (text : List ℕ) (a b : Outcome (List ℕ)) → Lists text a → Lists text b → a ≡ b }
{}
