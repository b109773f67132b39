//! Names of planes, or of types.
ghost use Rattle.std.specs.Prelude.{◌≡◌, None, [], ◌∷◌, ◌++◌, OnOk, option_copied};
ghost use Rattle.mls_tech.specs.Inner.Gives.{GivesUnlessMemory};
ghost use Rattle.mls_tech.specs.Inner.NameKinds.{spelling_of};
ghost use Rattle.mls_tech.specs.Readings as spec;
ghost use Rattle.mls_text.specs.Fields.{fields_of};

use crate::TechFaultKind;
use crate::fault::Taken;
use crate::name_kind::NameKind;
use indexmap::IndexMap;
use mls_text::Fields;
use std::alloc::{AllocError, Global};
use std::marker::Model;

/// Names with the numbers of what they name, in the order in which they were added.
#[derive(Drop)]
pub(crate) struct NameTable {
    numbers: IndexMap<Vec<u8>, u8>,
}

impl Model for NameTable {
    ghost use Rattle.std.specs.Prelude.{ℕ, List};
    ghost use Rattle.mls_tech.specs.Inner.NameTables.{names_in};

    ghost Value = { List (List ℕ × ℕ) };

    ghost view = { λ table. names_in (λ name. name.items) table.numbers.entries };
}

impl NameTable {
    /// Creates a table without names.
    pub fn new(alloc: Global) -> NameTable
        ensures { result ≡ [] }
    {
        NameTable {
            numbers: IndexMap::new(alloc),
        }
    }

    /// Returns the number of what the word names.
    pub fn number_of(&self, word: &[u8]) -> Option<u8>
        ensures { result ≡ spec.number_named self.now word.now }
    {
        self.numbers.get(word).copied()
    }

    /// Adds a name that names nothing yet.
    pub fn add(&mut self, alloc: Global, word: &[u8], number: u8) -> Result<(), AllocError>
        requires { spec.number_named self.old word.now ≡ None }
        ensures { OnOk result (self.new ≡ self.old ++ (word.now, number) ∷ []) }
    {
        self.numbers.insert(Vec::from_slice(alloc, word)?, number)?;
        Ok(())
    }

    /// Adds the names between the commas of a list, each as a name of the number. At a fault, those
    /// before it have been added.
    pub fn add_names(&mut self, alloc: Global, kind: NameKind, number: u8, list: &[u8]) -> Taken
        ensures { GivesUnlessMemory (λ _. self.new) result
            (spec.add_names (spelling_of kind) number self.old (fields_of list.now)) }
    {
        for word in Fields::new(list) {
            if !kind.is_spelled(word) {
                return Err(TechFaultKind::BadForm);
            }
            if self.number_of(word).is_some() {
                return Err(TechFaultKind::NameTwice);
            }
            self.add(alloc, word, number)?;
        }
        Ok(())
    }

    /// Returns the first name of a number.
    pub fn name_of(&self, number: u8) -> Option<&[u8]>
        ensures { option_copied result ≡ spec.name_of self.now number }
    {
        for (name, named) in &self.numbers {
            if *named == number {
                return Some(name);
            }
        }
        None
    }

    /// Returns the shortest name of a number, the first of that length.
    pub fn short_name_of(&self, number: u8) -> Option<&[u8]>
        ensures { option_copied result ≡ spec.short_name_of self.now number }
    {
        for (name, named) in &self.numbers {
            if *named == number && self.none_is_shorter(number, name) {
                return Some(name);
            }
        }
        None
    }

    /// Returns whether no name of the number is shorter than this one.
    fn none_is_shorter(&self, number: u8, name: &[u8]) -> bool
        ensures { result ≡ spec.none_is_shorter self.now number name.now }
    {
        for (other, named) in &self.numbers {
            if *named == number && other.len() < name.len() {
                return false;
            }
        }
        true
    }
}
