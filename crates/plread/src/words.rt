//! The names and the texts that stand in a clause.
ghost use Rattle.std.specs.Prelude.{◌≡◌, ◌≤◌, ◌++◌, ◌∷◌, [], length, IfOk, OnOk, OnErr, string_bytes};
ghost use Rattle.plops.specs.Sane.{comma};
ghost use Rattle.plread.specs.Texts.{dot, nil, curly};
ghost use Rattle.plread.specs.Words.{name_at, text_at};

use plterm::name::Name;
use std::alloc::{AllocError, Global};
use std::marker::Model;
use std::string::String;

/// The names that stand in a clause, by their places, and its double-quoted texts. The first names are those that
/// are written by punctuation: the comma (6.3.4.2), the cell of a list, the empty list and the braces (6.3.5, 6.3.6).
/// A name has at most 65,535 bytes.
#[derive(Drop)]
pub struct Words {
    names: Vec<Name>,
    texts: Vec<String>,
}

impl Model for Words {
    ghost use Rattle.std.specs.Prelude.{map, string_bytes};
    ghost use Rattle.plread.specs.Words.{Lexicon, AreWords};

    ghost Value = { Lexicon };

    ghost view = { λ a. record { names = a.names.items; texts = map string_bytes a.texts.items } };

    ghost invariant = { λ a. AreWords (record { names = a.names.items; texts = map string_bytes a.texts.items }) };
}

impl Words {
    /// The names of punctuation, and no text.
    pub fn new(alloc: Global) -> Result<Words, AllocError>
        ensures { IfOk result (λ words.
            words ≡ record { names = comma ∷ dot ∷ nil ∷ curly ∷ []; texts = [] }) }
    {
        let mut names = Vec::new(alloc);
        names.push(Name::new(alloc, ",")?)?;
        names.push(Name::new(alloc, ".")?)?;
        names.push(Name::new(alloc, "[]")?)?;
        names.push(Name::new(alloc, "{}")?)?;
        Ok(Words {
            names,
            texts: Vec::new(alloc),
        })
    }

    /// Adds a name, and answers its place.
    pub fn push(&mut self, name: Name) -> Result<usize, AllocError>
        requires { length name ≤ 65535 }
        ensures place { IfOk result (λ place. place ≡ length self.old.names) }
        ensures ok { OnOk result (self.new ≡ record self.old { names = self.old.names ++ name ∷ [] }) }
        ensures err { OnErr result (self.new ≡ self.old) }
    {
        let place = self.names.len();
        self.names.push(name)?;
        Ok(place)
    }

    /// Adds a text, and answers its place.
    pub fn push_text(&mut self, text: String) -> Result<usize, AllocError>
        ensures place { IfOk result (λ place. place ≡ length self.old.texts) }
        ensures ok { OnOk result (
            self.new ≡ record self.old { texts = self.old.texts ++ string_bytes text ∷ [] }) }
        ensures err { OnErr result (self.new ≡ self.old) }
    {
        let place = self.texts.len();
        self.texts.push(text)?;
        Ok(place)
    }

    /// The place of the comma.
    pub fn comma(&self) -> usize
        ensures { name_at self.now result ≡ comma }
    {
        let _names = &self.names;
        0
    }

    /// The place of the name of a list's cell.
    pub fn dot(&self) -> usize
        ensures { name_at self.now result ≡ dot }
    {
        let _names = &self.names;
        1
    }

    /// The place of the empty list.
    pub fn nil(&self) -> usize
        ensures { name_at self.now result ≡ nil }
    {
        let _names = &self.names;
        2
    }

    /// The place of the braces.
    pub fn curly(&self) -> usize
        ensures { name_at self.now result ≡ curly }
    {
        let _names = &self.names;
        3
    }

    /// The name at a place. Past the last it is empty.
    pub fn text(&self, place: usize) -> &str
        ensures value { result.now ≡ name_at self.now place }
        ensures short { length result.now ≤ 65535 }
    {
        match self.names.get(place) {
            Some(name) => name.as_str(),
            None => "",
        }
    }

    /// The double-quoted text at a place. Past the last it is empty.
    pub fn quoted(&self, place: usize) -> &str
        ensures { result.now ≡ text_at self.now place }
    {
        match self.texts.get(place) {
            Some(text) => text.as_str(),
            None => "",
        }
    }

    /// The same as a name of its own, which shares the text.
    pub fn name(&self, alloc: Global, place: usize) -> Result<Name, AllocError>
        ensures value { IfOk result (λ name. name ≡ name_at self.now place) }
        ensures short { IfOk result (λ name. length name ≤ 65535) }
    {
        match self.names.get(place) {
            Some(name) => name.copied(),
            None => Name::new(alloc, ""),
        }
    }
}
