//! The numbers of a clause's variables.
ghost use Rattle.std.specs.Prelude.{◌≡◌, [], map, IfOk, OnOk};
ghost use Rattle.plread.specs.Spelling.{number_of, seen_with};

use std::alloc::{AllocError, Global};
use std::collections::HashMap;
use std::marker::Model;

/// The names of variables in the order of their numbers, each found without a search. An anonymous variable is new
/// wherever it stands.
#[derive(Drop)]
pub struct Variables<'a> {
    order: Vec<&'a str>,
    places: HashMap<&'a str, u64>,
}

impl<'a> Model for Variables<'a> {
    ghost use Rattle.std.specs.Prelude.{List, ℕ};

    ghost Value = { List (List ℕ) };

    ghost use Rattle.plread.specs.Numbering.{names, IsTable};

    ghost view = { names };

    ghost invariant = { IsTable };
}

impl<'a> Variables<'a> {
    /// No variable.
    pub fn new(alloc: Global) -> Variables<'a>
        ensures { result ≡ [] }
    {
        Variables {
            order: Vec::new(alloc),
            places: HashMap::new(alloc),
        }
    }

    /// The names, in the order of their numbers.
    pub(crate) fn into_names(self) -> Vec<&'a str>
        ensures { map (λ name. name.now) result.items ≡ self.entry }
    {
        let Variables { order, .. } = self;
        order
    }

    /// The number of a variable by its name.
    pub fn number(&mut self, name: &'a str) -> Result<u64, AllocError>
        ensures number { IfOk result (λ n. n ≡ number_of self.old name.now) }
        ensures ok { OnOk result (self.new ≡ seen_with self.old name.now) }
    {
        let next = self.order.len() as u64;
        if name == "_" {
            self.order.push(name)?;
            return Ok(next);
        }
        if let Some(found) = self.places.get(&name) {
            return Ok(*found);
        }
        self.order.push(name)?;
        match self.places.insert(name, next) {
            Ok(_) => Ok(next),
            Err(_) => {
                self.order.pop();
                Err(AllocError)
            }
        }
    }
}
