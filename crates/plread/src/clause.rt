//! Reading a clause from its tokens.
ghost use Rattle.std.specs.Prelude.{◌≡◌, IfOk, IfErr, MatchResult};
ghost use Rattle.plread.specs.Signs.{Sign};
ghost use Rattle.plread.specs.Reading.{Spells};
ghost use Rattle.plread.specs.Looks.{view};
ghost use Rattle.plread.specs.Answers.{Answers};

use crate::reader::{ReadStep, Reader};
use crate::token::Token;
use crate::words::Words;
use plops::table::OpTable;
use plterm::builder::Builder;
use plterm::term::Term;
use std::alloc::{AllocError, Global};

/// The term that the tokens spell, if there is one.
pub fn term_of(
    alloc: Global,
    words: &Words,
    tokens: &[Token],
    ops: &OpTable,
    levels: u64,
) -> Result<Option<Term>, AllocError>
    ensures { IfOk result (Answers ops.now levels (view words.now tokens.now)) }
{
    let mut reader = Reader {
        alloc,
        room: levels,
        stack: Vec::new(alloc),
        terms: Builder::new(alloc),
        given: None,
        left: tokens,
    };
    'steps: loop {
        match reader.step(words, ops) {
            Ok(ReadStep::Goes) => {}
            Ok(ReadStep::Done) => {
                let Reader { terms, .. } = reader;
                let term = terms.finish(alloc)?;
                return Ok(Some(term));
            }
            Ok(ReadStep::Fails) => return Ok(None),
            Err(error) => return Err(error),
        }
    }
}
