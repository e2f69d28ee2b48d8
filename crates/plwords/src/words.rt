//! The words of a command line.
ghost use Rattle.std.specs.Prelude.{◌≡◌, ◌++◌, ◌∷◌, [], List, ℕ, map, string_bytes, OnOk, OnErr, IfOk, IfErr, IfNone, IsNone, MatchOption};
ghost use Rattle.plwords.specs.declared.form.Form.{Form};
ghost use Rattle.plwords.specs.Forms.{texts};
ghost use Rattle.plwords.specs.Commands.{IsRead, IsLine};

use crate::arguments::read;
use crate::form::{Form, WordsError};
use std::alloc::{AllocError, Global};
use std::marker::Model;

/// A command: its form, where a goal is a text, and the path of its program.
#[derive(Drop)]
pub struct Command<'a> {
    pub form: Form<&'a str>,
    pub path: &'a str,
}

/// The words of a command line, the program's name first; seen as a list of texts.
#[derive(Drop)]
pub struct Words {
    alloc: Global,
    texts: Vec<String>,
}

impl Model for Words {
    ghost Value = { List (List ℕ) };

    ghost view = { λ w. map string_bytes w.texts.items };
}

impl Words {
    /// No words.
    pub fn new(alloc: Global) -> Self
        ensures { result ≡ [] }
    {
        Words {
            alloc,
            texts: Vec::new(alloc),
        }
    }

    /// Appends a word. For want of memory the words stay as they were.
    pub fn push(&mut self, text: String) -> Result<(), AllocError>
        ensures ok { OnOk result (self.new ≡ self.old ++ string_bytes text ∷ []) }
        ensures err { OnErr result (self.new ≡ self.old) }
    {
        self.texts.push(text)?;
        Ok(())
    }

    /// The command that `clap` reads the words as, whatever the text of a goal is. `Usage` comes exactly where they are of no form.
    pub fn command(&self) -> Result<Command<'_>, WordsError>
        ensures read { IfOk result (λ c. IsRead self.now (texts c.form) c.path.now) }
        ensures usage { IfErr result (λ e. e ≡ WordsError.Usage → IsLine self.now → ⊥) }
    {
        read(self.alloc, &self.texts)
    }
}

/// The paths of the program and of the history that the words name: the first where `clap` reads them as one of the forms,
/// whatever the text of a goal is, and the second for no form so far.
pub fn paths(words: &Words) -> Result<(Option<&str>, Option<&str>), AllocError>
    ensures none { IfOk result (λ p. IfNone p.0 (IsLine words.now → ⊥)) }
    ensures program { IfOk result (λ p. MatchOption p.0 (Unit {0}) (λ path. (form : Form (List ℕ)) × IsRead words.now form path.now)) }
    ensures history { IfOk result (λ p. IsNone p.1) }
{
    match words.command() {
        Ok(command) => Ok((Some(command.path), None)),
        Err(WordsError::Usage) => Ok((None, None)),
        Err(WordsError::NoMemory) => Err(AllocError),
    }
}
