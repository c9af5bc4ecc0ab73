//! Names with their numbers.

ghost use Rattle.std.specs.Prelude.{◌≡◌, [], OnOk, OnErr};
ghost use Rattle.name_table.specs.Numbers.{number_in, with_number};

use indexmap::IndexMap;
use name_hash::NameHashing;
use std::alloc::{AllocError, Global};
use std::marker::Model;

/// Names with their numbers, in the order in which they came. Contracts see it as the list of these
/// pairs, in which no name stands twice.
#[derive(Drop)]
pub struct NameTable {
    numbers: IndexMap<Vec<u8>, usize, NameHashing>,
}

impl Model for NameTable {
    ghost use Rattle.std.specs.Prelude.{List, ℕ};
    ghost use Rattle.name_table.specs.Numbers.{number_list};

    ghost Value = { List (List ℕ × ℕ) };

    ghost view = { λ t. number_list t.numbers.entries };
}

impl NameTable {
    /// No names.
    pub fn new(alloc: Global, hashing: NameHashing) -> NameTable
        ensures { result ≡ [] }
    {
        NameTable {
            numbers: IndexMap::with_hasher(alloc, hashing),
        }
    }

    /// The number of a name, where it has one.
    pub fn number_of(&self, name: &[u8]) -> Option<usize>
        ensures { result ≡ number_in name.now self.now }
    {
        self.numbers.get(name).copied()
    }

    /// Gives a name its number. A name that has one keeps it. Where memory is wanting, all is as before.
    pub fn define(&mut self, name: Vec<u8>, number: usize) -> Result<(), AllocError>
        ensures ok { OnOk result (self.new ≡ with_number name.items number self.old) }
        ensures err { OnErr result (self.new ≡ self.old) }
    {
        if self.number_of(name.as_slice()).is_some() {
            return Ok(());
        }
        self.numbers.insert(name, number)?;
        Ok(())
    }
}
