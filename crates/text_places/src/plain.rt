// The accesses of a memref by one statement that has no region.
ghost use Rattle.std.specs.Prelude.{◌≡◌, ◌++◌, map, OnOk};
ghost use Rattle.affine_ast.specs.Names.{same_name};
ghost use Rattle.affine_ast.specs.Nest.{plain_of};
ghost use Rattle.nest_domain.specs.Ways.{Affine, Other, if_named, use_of};
ghost use Rattle.nest_domain.specs.Steps.{header_of};
ghost use Rattle.text_places.specs.Finding.{seen};

use crate::way::copied_way;
use affine_ast::{Access, Name, What};
use nest_domain::Step;
use std::alloc::{AllocError, Global};

/// An access of a memref.
#[derive(Drop)]
pub enum FoundUse<'a> {
    /// `affine.load` or `affine.store`: the way to it, whether it stores, and its subscripts.
    Affine {
        way: Vec<Step<'a>>,
        stores: bool,
        at: &'a Access,
    },
    /// Any other.
    Other,
}

#[tactic(auto, using(crate::proofs::Uses::is_same))]
pub fn same(left: &Name, right: &Name) -> bool
    ensures { result ≡ same_name left.now right.now }
{
    left.is(right)
}

/// Adds an affine access, where it is one of the memref.
#[tactic(auto, using(crate::proofs::Uses::affine_added, crate::proofs::Uses::nothing_added))]
fn add_affine<'a>(
    alloc: Global,
    memref: &Name,
    named: &Name,
    way: &[Step<'a>],
    stores: bool,
    at: &'a Access,
    out: &mut Vec<FoundUse<'a>>,
) -> Result<(), AllocError>
    ensures { OnOk result (map seen out.new.items ≡ map seen out.old.items ++ if_named memref.now named.now (Affine (map header_of way.now) stores at.now)) }
{
    if same(memref, named) {
        let way = copied_way(alloc, way)?;
        out.push(FoundUse::Affine { way, stores, at })?;
    }
    Ok(())
}

/// Adds another access, where it is one of the memref.
#[tactic(auto, using(crate::proofs::Uses::other_added, crate::proofs::Uses::nothing_added))]
fn add_other<'a>(memref: &Name, named: &Name, out: &mut Vec<FoundUse<'a>>) -> Result<(), AllocError>
    ensures { OnOk result (map seen out.new.items ≡ map seen out.old.items ++ if_named memref.now named.now Other) }
{
    if same(memref, named) {
        out.push(FoundUse::Other)?;
    }
    Ok(())
}

/// Adds those of a start: of its source, its destination and its tag.
#[tactic(auto, using(crate::proofs::Uses::three_added))]
fn add_start<'a>(
    memref: &Name,
    from: &Name,
    to: &Name,
    tag: &Name,
    out: &mut Vec<FoundUse<'a>>,
) -> Result<(), AllocError>
    ensures { OnOk result (map seen out.new.items ≡ map seen out.old.items ++ (if_named memref.now from.now Other ++ (if_named memref.now to.now Other ++ if_named memref.now tag.now Other))) }
{
    add_other(memref, from, out)?;
    add_other(memref, to, out)?;
    add_other(memref, tag, out)
}

/// Adds those of a statement behind a way; a loop or a condition by itself has none.
#[tactic(auto, using(crate::proofs::Uses::nothing_else, affine_ast::proofs::Nests::plains))]
pub fn add_plain<'a>(
    alloc: Global,
    memref: &Name,
    what: &'a What,
    way: &[Step<'a>],
    out: &mut Vec<FoundUse<'a>>,
) -> Result<(), AllocError>
    ensures { OnOk result (map seen out.new.items ≡ map seen out.old.items ++ use_of memref.now (plain_of what.now) (map header_of way.now)) }
{
    match what {
        What::Load {
            memref: named,
            at,
            ..
        } => add_affine(alloc, memref, named, way, false, at, out),
        What::Store {
            memref: named,
            at,
            ..
        } => add_affine(alloc, memref, named, way, true, at, out),
        What::RawLoad { memref: named, .. } => add_other(memref, named, out),
        What::RawStore { memref: named, .. } => add_other(memref, named, out),
        What::Dealloc { memref: named, .. } => add_other(memref, named, out),
        What::Start { from, to, tag, .. } => add_start(memref, from, to, tag, out),
        What::Wait { tag, .. } => add_other(memref, tag, out),
        _ => Ok(()),
    }
}
