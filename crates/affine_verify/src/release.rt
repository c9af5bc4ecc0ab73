// Which allocations have exactly one dealloc in the rest of their region, and in the region itself. They are told from the end of
// the region on, by the names of the deallocs behind, so that each statement is looked at once for each region round it.
ghost use Rattle.std.specs.Prelude.{◌≡◌, ◌||◌, ◌&&◌, nat_lt, true, false, IfOk, OnOk};
ghost use Rattle.affine_ast.specs.declared.name.Name.{Name};
ghost use Rattle.affine_ast.specs.Names.{put, same_name};
ghost use Rattle.affine_ast.specs.Nest.{Nest, Nothing, nest, put_what, plain_of, is_region};
ghost use Rattle.affine_ast.specs.Rules.{is_dealloc_of, deallocs, is_released_once};
ghost use Rattle.affine_rules.specs.Scoped.{names_of};
ghost use Rattle.affine_verify.specs.Deallocs.{once_of, once_each, deallocs_in, role_own, role_once, is_region_role, Lists};

use affine_ast::{Name, Stmt, What};
use affine_rules::{Key, is_released, release};
use indexmap::IndexSet;
use name_hash::NameHashing;
use std::alloc::{AllocError, Global};

/// What a statement is for the deallocs of allocations.
#[derive(Clone, Copy)]
pub(crate) enum Role<'a> {
    Alloc(&'a Name),
    Dealloc(&'a Name),
    /// A loop or a condition.
    Region,
    Other,
}

#[tactic(auto, using(affine_ast::proofs::Nests::plains, affine_ast::proofs::Nests::regions))]
fn role_of(what: &What) -> Role<'_>
    ensures own { (m : Name) → is_dealloc_of m (plain_of what.now) ≡ role_own result m }
    ensures once { (rest : Nest) → once_of (plain_of what.now) rest ≡ role_once result rest }
    ensures region { is_region what.now ≡ is_region_role result }
{
    match what {
        What::Alloc { result, .. } => Role::Alloc(result),
        What::Dealloc { memref, .. } => Role::Dealloc(memref),
        What::For { .. } => Role::Region,
        What::If { .. } => Role::Region,
        _ => Role::Other,
    }
}

/// Notes a name, whether it is noted already or not.
fn note<'a>(names: &mut IndexSet<Key<'a>, NameHashing>, name: &'a Name) -> Result<(), AllocError>
    ensures { OnOk result ((m : Name) → names_of names.new.keys m ≡ (names_of names.old.keys m || same_name name.now m)) }
{
    if !is_released(names, name) {
        release(names, name)?;
    }
    Ok(())
}

/// Notes the name of a dealloc, and of no other statement without a region.
fn note_plain<'a>(
    names: &mut IndexSet<Key<'a>, NameHashing>,
    what: &'a What,
) -> Result<(), AllocError>
    requires { is_region what.now ≡ false }
    ensures { OnOk result ((m : Name) → names_of names.new.keys m ≡ (names_of names.old.keys m || nat_lt 0 (deallocs_in m what.now))) }
{
    match role_of(what) {
        Role::Dealloc(memref) => note(names, memref),
        Role::Alloc(_) => Ok(()),
        Role::Region => Ok(()),
        Role::Other => Ok(()),
    }
}

/// Notes the names of the deallocs in a statement, at every depth.
#[cycle(noted)]
#[tactic(auto, using(affine_ast::proofs::Nests::plains))]
fn note_stmt<'a>(
    names: &mut IndexSet<Key<'a>, NameHashing>,
    stmt: &'a Stmt,
) -> Result<(), AllocError>
    ensures { OnOk result ((m : Name) → names_of names.new.keys m ≡ (names_of names.old.keys m || nat_lt 0 (deallocs_in m stmt.now.what))) }
{
    match &stmt.what {
        What::For { body, .. } => note_list(names, body.as_slice()),
        What::If { first, other, .. } => {
            note_list(names, first.as_slice())?;
            match other {
                None => Ok(()),
                Some(other) => note_list(names, other.as_slice()),
            }
        }
        _ => note_plain(names, &stmt.what),
    }
}

#[cycle(noted)]
fn note_list<'a>(
    names: &mut IndexSet<Key<'a>, NameHashing>,
    stmts: &'a [Stmt],
) -> Result<(), AllocError>
    ensures { OnOk result ((m : Name) → names_of names.new.keys m ≡ (names_of names.old.keys m || nat_lt 0 (deallocs m (nest stmts.now)))) }
{
    for stmt in stmts {
        note_stmt(names, stmt)?;
    }
    Ok(())
}

/// The names of the deallocs in the rest of a region.
#[derive(Drop)]
pub(crate) struct Deallocs<'a> {
    /// Those that stand in the region itself.
    own: IndexSet<Key<'a>, NameHashing>,
    /// Those with a second dealloc in the region itself, or one further in.
    more: IndexSet<Key<'a>, NameHashing>,
}

impl<'a> Deallocs<'a> {
    /// Nothing is left of a region.
    fn new(alloc: Global, hashing: NameHashing) -> Deallocs<'a>
        ensures { Lists result Nothing }
    {
        Deallocs {
            own: IndexSet::with_hasher(alloc, hashing),
            more: IndexSet::with_hasher(alloc, hashing),
        }
    }

    /// A dealloc more, in the region itself.
    fn add_own(&mut self, memref: &'a Name) -> Result<(), AllocError>
        ensures own { OnOk result ((m : Name) → names_of self.new.own.keys m ≡ (names_of self.old.own.keys m || same_name memref.now m)) }
        ensures more { OnOk result ((m : Name) → names_of self.new.more.keys m ≡ (names_of self.old.more.keys m || (names_of self.old.own.keys memref.now && same_name memref.now m))) }
    {
        if is_released(&self.own, memref) {
            note(&mut self.more, memref)
        } else {
            note(&mut self.own, memref)
        }
    }

    /// A statement more before the rest.
    fn add(&mut self, stmt: &'a Stmt) -> Result<(), AllocError>
        ensures { OnOk result ((rest : Nest) → Lists self.old rest → Lists self.new (put_what stmt.now.what stmt.now.line rest)) }
    {
        match role_of(&stmt.what) {
            Role::Dealloc(memref) => self.add_own(memref),
            Role::Region => note_stmt(&mut self.more, stmt),
            Role::Alloc(_) => Ok(()),
            Role::Other => Ok(()),
        }
    }

    /// Whether the rest has exactly one dealloc of the name, in the region itself.
    fn has_once(&self, name: &'a Name) -> bool
        ensures { (rest : Nest) → Lists self.now rest → result ≡ is_released_once name.now rest }
    {
        is_released(&self.own, name) && !is_released(&self.more, name)
    }

    /// Whether a statement before the rest doesn't allocate what isn't released exactly once.
    fn releases(&self, what: &'a What) -> bool
        ensures { (rest : Nest) → Lists self.now rest → result ≡ once_of (plain_of what.now) rest }
    {
        match role_of(what) {
            Role::Alloc(name) => self.has_once(name),
            Role::Dealloc(_) => true,
            Role::Region => true,
            Role::Other => true,
        }
    }
}

/// Of each statement of a region whether what it allocates, if anything, is released exactly once, in the region itself.
pub(crate) fn released_once(
    alloc: Global,
    hashing: NameHashing,
    stmts: &[Stmt],
) -> Result<Vec<bool>, AllocError>
    ensures { IfOk result (λ once. once.items ≡ once_each stmts.now) }
{
    let mut deallocs = Deallocs::new(alloc, hashing);
    let mut once = Vec::new(alloc);
    let length = stmts.len();
    for done in 0..length {
        let stmt = &stmts[length - 1 - done];
        once.push(deallocs.releases(&stmt.what))?;
        deallocs.add(stmt)?;
    }
    once.reverse();
    Ok(once)
}
