// What stands round a statement.
ghost use Rattle.std.specs.Prelude.{◌≡◌, ◌++◌, [], ◌∷◌, take, length, true, false, Some, None, IsNone, OnOk, IfOk, option_copied};
ghost use Rattle.std.specs.Option.{option_map};
ghost use Rattle.affine_ast.specs.Names.{put};
ghost use Rattle.affine_rules.specs.Scoped.{binding_of, scope_of, names_of, is_key};

use affine_ast::{MemrefType, Name, Scalar};
use affine_expr::Interval;
use indexmap::{IndexMap, IndexSet};
use name_hash::NameHashing;
use std::alloc::{AllocError, Global};

/// A name as a key.
#[derive(Clone, Copy, PartialEq, Eq, Hash)]
pub struct Key<'a> {
    pub text: &'a str,
    pub made: bool,
}

/// What a name in scope stands for.
#[derive(Drop)]
pub enum Binding {
    /// A loop variable, or a result of `affine.apply`, `min` or `max`.
    Variable(Interval),
    /// An index argument.
    Symbol(Interval),
    /// A constant of type index.
    IndexConstant(i64),
    /// Every other value.
    Data(Scalar),
    MemrefArgument(MemrefType),
    Allocation(MemrefType),
}

/// Sums over the text so far.
#[derive(Clone, Copy)]
pub struct Totals {
    pub memrefs: u32,
    pub indexes: u32,
    pub elements: u32,
    pub allocated: u32,
    pub tags: u32,
    pub statements: u32,
}

/// The names in scope, the allocations whose dealloc stands before, the loops and conditions round a statement, and the totals
/// so far.
#[derive(Drop)]
pub struct Scoped<'a> {
    pub names: IndexMap<Key<'a>, Binding, NameHashing>,
    pub released: IndexSet<Key<'a>, NameHashing>,
    pub loops: u32,
    pub ifs: u32,
    pub totals: Totals,
}

/// A name as a key.
pub fn key_of(name: &Name) -> Key<'_>
    ensures text { result.text.now ≡ name.now.text }
    ensures made { result.made ≡ name.now.made }
{
    Key {
        text: name.text.as_str(),
        made: name.made,
    }
}

/// What the name stands for, where it is in scope.
pub fn found<'t, 'a>(
    names: &'t IndexMap<Key<'a>, Binding, NameHashing>,
    name: &'a Name,
) -> Option<&'t Binding>
    ensures { option_map binding_of (option_copied result) ≡ scope_of names.now.entries name.now }
{
    names.get(&key_of(name))
}

/// Puts a name in scope that isn't.
pub fn define<'a>(
    names: &mut IndexMap<Key<'a>, Binding, NameHashing>,
    name: &'a Name,
    binding: Binding,
) -> Result<(), AllocError>
    requires { scope_of names.old.entries name.now ≡ None }
    ensures scope { OnOk result (scope_of names.new.entries ≡ put (scope_of names.old.entries) name.now (Some (binding_of binding))) }
    ensures kept { OnOk result (take (length names.old.entries) names.new.entries ≡ names.old.entries) }
{
    names.insert(key_of(name), binding)?;
    Ok(())
}

/// Whether the dealloc of an allocation stands before.
pub fn is_released<'a>(released: &IndexSet<Key<'a>, NameHashing>, name: &'a Name) -> bool
    ensures { result ≡ names_of released.now.keys name.now }
{
    released.contains(&key_of(name))
}

/// Notes the dealloc of an allocation whose dealloc doesn't stand before.
pub fn release<'a>(
    released: &mut IndexSet<Key<'a>, NameHashing>,
    name: &'a Name,
) -> Result<(), AllocError>
    requires { names_of released.old.keys name.now ≡ false }
    ensures names { OnOk result (names_of released.new.keys ≡ put (names_of released.old.keys) name.now true) }
    ensures kept { OnOk result (take (length released.old.keys) released.new.keys ≡ released.old.keys) }
{
    released.insert(key_of(name))?;
    Ok(())
}

impl<'a> Scoped<'a> {
    /// What stands round a module: nothing is in scope.
    pub fn new(alloc: Global, hashing: NameHashing) -> Scoped<'a>
        ensures names { result.names.entries ≡ [] }
        ensures released { result.released.keys ≡ [] }
        ensures loops { result.loops ≡ 0 }
        ensures ifs { result.ifs ≡ 0 }
        ensures statements { result.totals.statements ≡ 0 }
        ensures memrefs { result.totals.memrefs ≡ 0 }
        ensures indexes { result.totals.indexes ≡ 0 }
        ensures elements { result.totals.elements ≡ 0 }
        ensures allocated { result.totals.allocated ≡ 0 }
        ensures tags { result.totals.tags ≡ 0 }
    {
        Scoped {
            names: IndexMap::with_hasher(alloc, hashing),
            released: IndexSet::with_hasher(alloc, hashing),
            loops: 0,
            ifs: 0,
            totals: Totals {
                memrefs: 0,
                indexes: 0,
                elements: 0,
                allocated: 0,
                tags: 0,
                statements: 0,
            },
        }
    }
}
