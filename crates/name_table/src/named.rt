//! Items with names, in order.

ghost use Rattle.std.specs.Prelude.{◌≡◌, ◌++◌, ◌∷◌, [], length, map, option_copied, List, ℕ, OnOk, OnErr};
ghost use Rattle.name_table.specs.Numbers.{place_of, first_named};

use crate::table::NameTable;
use affine_ast::Name;
use name_hash::NameHashing;
use sqlite_items::Items;
use std::alloc::{AllocError, Global};
use std::marker::Model;

/// What has a name by which it is found.
pub trait Named {
    // The bytes of its name.
    ghost name: { Self → List ℕ };

    /// The bytes of its name.
    fn name(&self) -> &[u8]
        ensures { result.now ≡ name self.now };
}

impl Named for Name {
    ghost name = { λ n. n.text };

    fn name(&self) -> &[u8] {
        self.text.as_str().as_bytes()
    }
}

/// Items in order, each found by its name. Contracts see it as their list.
#[derive(Drop)]
pub struct NamedItems<T: Named> {
    items: Items<T>,
    /// Of each name the place at which it stands first.
    places: NameTable,
}

/// Names in order, each found by its text.
pub type Names = NamedItems<Name>;

impl<T: Named> Model for NamedItems<T> {
    ghost use Rattle.std.specs.Prelude.{List, map};
    ghost use Rattle.std.specs.Coded.{coded_list};
    ghost use Rattle.name_table.specs.Numbers.{TellsPlaces};

    ghost Value = { List T };

    ghost coded = { coded_list T.code };

    ghost view = { λ n. n.items };

    ghost invariant = { λ n. TellsPlaces n.places (map T.name n.items) };
}

impl<T: Named> NamedItems<T> {
    /// No items.
    pub fn new(alloc: Global, hashing: NameHashing) -> NamedItems<T>
        ensures { result ≡ [] }
    {
        NamedItems {
            items: Items::new(alloc),
            places: NameTable::new(alloc, hashing),
        }
    }

    pub fn len(&self) -> usize
        ensures { result ≡ length self.now }
    {
        self.items.len()
    }

    /// The place at which an item of this name stands first, counted from 0.
    pub fn place_of(&self, name: &[u8]) -> Option<usize>
        ensures { result ≡ place_of name.now (map T.name self.now) }
    {
        self.places.number_of(name)
    }

    /// The first item of this name.
    pub fn find(&self, name: &[u8]) -> Option<&T>
        ensures { option_copied result ≡ first_named T.name name.now self.now }
    {
        match self.places.number_of(name) {
            Some(place) => self.items.get(place),
            None => None,
        }
    }

    /// The items alone.
    pub fn into_items(self) -> Items<T>
        ensures { result ≡ self }
    {
        let NamedItems { items, places: _ } = self;
        items
    }
}

impl<T: Named + Drop> NamedItems<T> {
    /// Adds an item at the end. Where memory is wanting, all is as before.
    pub fn push(&mut self, alloc: Global, item: T) -> Result<(), AllocError>
        ensures ok { OnOk result (self.new ≡ self.old ++ item ∷ []) }
        ensures err { OnErr result (self.new ≡ self.old) }
    {
        let name = Vec::from_slice(alloc, item.name())?;
        let place = self.items.len();
        self.items.push(item)?;
        match self.places.define(name, place) {
            Ok(()) => Ok(()),
            Err(error) => {
                let _ = self.items.pop();
                Err(error)
            }
        }
    }
}
