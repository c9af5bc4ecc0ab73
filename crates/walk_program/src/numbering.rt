// The table of names while a module is numbered.
ghost use Rattle.std.specs.Prelude.{◌≡◌, ℕ, max, [], ◌∷◌, length, IfOk, OnOk};
ghost use Rattle.walk_program.specs.Numbering.{Table, Numbers, IsNumber, AreNumbers, AreOperands, IsSubscripts, IsLimit, IsStride, names_of_keys};
ghost use Rattle.walk_program.specs.Names.{uses_in_bound};
ghost use Rattle.affine_ast.specs.Parts.{stride_names};
ghost use Rattle.walk_program.specs.Widths.{width_in_bound};

use crate::plain::{Limit, Subscripts};
use affine_ast::{Access, Bound, Name, Text};
use indexmap::IndexSet;
use name_hash::NameHashing;
use sqlite_items::Items;
use std::alloc::{AllocError, Global};
use std::marker::Model;

/// A name as a key.
#[derive(Clone, Copy, PartialEq, Eq, Hash)]
pub(crate) struct Key<'a> {
    text: &'a str,
    made: bool,
}

/// The names so far, each once, in the order of first use, and how many operands the longest list of them so far has.
#[derive(Drop)]
pub(crate) struct Numbering<'a> {
    keys: IndexSet<Key<'a>, NameHashing>,
    longest: u32,
}

impl<'a> Model for Numbering<'a> {
    ghost use Rattle.walk_program.specs.Numbering.{Table, names_of_keys};

    ghost Value = { Table };

    ghost view = { λ n. record { names = names_of_keys n.keys.keys; width = n.longest } };
}

/// A name as a key.
fn key_of(name: &Name) -> Key<'_>
    ensures text { result.text.now ≡ name.now.text }
    ensures made { result.made ≡ name.now.made }
{
    Key {
        text: name.text.as_str(),
        made: name.made,
    }
}

/// A number of 32 bits; one that has more is want of memory.
fn narrow(number: usize) -> Result<u32, AllocError>
    ensures { IfOk result (λ n. n ≡ number) }
{
    match u32::try_from(number) {
        Ok(number) => Ok(number),
        Err(_) => Err(AllocError),
    }
}

/// The name of a key.
fn copy_name(alloc: Global, key: Key<'_>) -> Result<Name, AllocError>
    ensures text { IfOk result (λ n. n.text ≡ key.entry.text.now) }
    ensures made { IfOk result (λ n. n.made ≡ key.entry.made) }
{
    Ok(Name {
        text: Text::from_string(String::from_str(alloc, key.text)?),
        made: key.made,
    })
}

impl<'a> Numbering<'a> {
    /// A table without names.
    pub(crate) fn new(alloc: Global, hashing: NameHashing) -> Numbering<'a>
        ensures names { result.names ≡ [] }
        ensures width { result.width ≡ 0 }
    {
        Numbering {
            keys: IndexSet::with_hasher(alloc, hashing),
            longest: 0,
        }
    }

    /// How many operands the longest list has.
    pub(crate) fn width(&self) -> u32
        ensures { result ≡ self.now.width }
    {
        self.longest
    }

    /// The names in order.
    pub(crate) fn names(&self, alloc: Global) -> Result<Items<Name>, AllocError>
        ensures { IfOk result (λ names. names ≡ self.now.names) }
    {
        let mut names = Items::new(alloc);
        for key in self.keys.as_slice() {
            names.push(copy_name(alloc, *key)?)?;
        }
        Ok(names)
    }

    /// The number of a name, which has the next one at its first use.
    pub(crate) fn number(&mut self, name: &'a Name) -> Result<u32, AllocError>
        ensures { IfOk result (λ k. Numbers (IsNumber k name.now) (name.now ∷ []) 0 self.old self.new) }
    {
        let (index, _) = self.keys.insert_full(key_of(name))?;
        narrow(index)
    }

    /// Notes a list of so many operands.
    fn widen(&mut self, operands: usize) -> Result<(), AllocError>
        ensures names { OnOk result (self.new.names ≡ self.old.names) }
        ensures width { OnOk result (self.new.width ≡ max self.old.width operands) }
    {
        let operands = narrow(operands)?;
        self.longest = self.longest.max(operands);
        Ok(())
    }

    fn listed(&mut self, alloc: Global, names: &'a [Name]) -> Result<Items<u32>, AllocError>
        ensures { IfOk result (λ ks. Numbers (AreNumbers ks names.now) names.now 0 self.old self.new) }
    {
        let mut numbers = Items::new(alloc);
        for name in names {
            numbers.push(self.number(name)?)?;
        }
        Ok(numbers)
    }

    /// The numbers of a list of operands.
    pub(crate) fn operands(
        &mut self,
        alloc: Global,
        names: &'a [Name],
    ) -> Result<Items<u32>, AllocError>
        ensures { IfOk result (λ ks. Numbers (AreOperands ks names.now) names.now
            (length names.now) self.old self.new) }
    {
        let numbers = self.listed(alloc, names)?;
        self.widen(numbers.len())?;
        Ok(numbers)
    }

    /// A use of a map with the numbers of its operands.
    pub(crate) fn subscripts(
        &mut self,
        alloc: Global,
        at: &'a Access,
    ) -> Result<Subscripts, AllocError>
        ensures { IfOk result (λ s. Numbers (IsSubscripts s at.now) at.now.operands
            (length at.now.operands) self.old self.new) }
    {
        Ok(Subscripts {
            map: at.map.copy(alloc)?,
            operands: self.operands(alloc, at.operands.as_slice())?,
        })
    }

    /// A bound with numbers.
    pub(crate) fn limit(&mut self, alloc: Global, bound: &'a Bound) -> Result<Limit, AllocError>
        ensures { IfOk result (λ l. Numbers (IsLimit l bound.now) (uses_in_bound bound.now)
            (width_in_bound bound.now) self.old self.new) }
    {
        match bound {
            Bound::Int(value) => Ok(Limit::Int(*value)),
            Bound::Value(name) => Ok(Limit::Value(self.number(name)?)),
            Bound::Map(at) => Ok(Limit::Map(self.subscripts(alloc, at)?)),
        }
    }

    /// The numbers of a stride and a chunk.
    pub(crate) fn stride(
        &mut self,
        stride: &'a Option<(Name, Name)>,
    ) -> Result<Option<(u32, u32)>, AllocError>
        ensures { IfOk result (λ two. Numbers (IsStride two stride.now) (stride_names stride.now) 0 self.old self.new) }
    {
        match stride {
            None => Ok(None),
            Some((stride, chunk)) => {
                let stride = self.number(stride)?;
                let chunk = self.number(chunk)?;
                Ok(Some((stride, chunk)))
            }
        }
    }
}
