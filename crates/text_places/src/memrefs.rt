// The memrefs that statements access.
ghost use Rattle.std.specs.Prelude.{◌≡◌, [], map, OnOk, IfOk};
ghost use Rattle.affine_ast.specs.Nest.{Nothing, nest, plain_of, put_what};
ghost use Rattle.nest_domain.specs.Ways.{has_name};
ghost use Rattle.text_places.specs.Blocks.{memrefs_of, with_name, with_names, accessed};
ghost use Rattle.text_places.specs.Finding.{named};

use crate::plain::same;
use crate::within::or_none;
use affine_ast::{Name, Stmt, What};
use std::alloc::{AllocError, Global};

/// The name of a memref in a text.
#[derive(Clone, Copy)]
pub struct Named<'a> {
    pub name: &'a Name,
}

fn is_there(name: &Name, kept: &[Named<'_>]) -> bool
    ensures { result ≡ has_name name.now (map named kept.now) }
{
    for other in kept {
        if same(name, other.name) {
            return true;
        }
    }
    false
}

/// Adds a name, where it isn't there yet.
#[tactic(auto, using(crate::proofs::Firsts::name_there, crate::proofs::Firsts::name_added))]
fn add_name<'a>(name: &'a Name, out: &mut Vec<Named<'a>>) -> Result<(), AllocError>
    ensures { OnOk result (map named out.new.items ≡ with_name (map named out.old.items) name.now) }
{
    if !is_there(name, out.as_slice()) {
        out.push(Named { name })?;
    }
    Ok(())
}

/// Adds those of a statement that has no region.
#[tactic(auto, using(crate::proofs::Firsts::no_memref, affine_ast::proofs::Nests::plains))]
fn add_plain<'a>(what: &'a What, out: &mut Vec<Named<'a>>) -> Result<(), AllocError>
    ensures { OnOk result (map named out.new.items ≡ with_names (map named out.old.items) (memrefs_of (plain_of what.now))) }
{
    match what {
        What::Load { memref, .. } => add_name(memref, out),
        What::Store { memref, .. } => add_name(memref, out),
        What::RawLoad { memref, .. } => add_name(memref, out),
        What::RawStore { memref, .. } => add_name(memref, out),
        What::Dealloc { memref, .. } => add_name(memref, out),
        What::Start { from, to, tag, .. } => {
            add_name(from, out)?;
            add_name(to, out)?;
            add_name(tag, out)
        }
        What::Wait { tag, .. } => add_name(tag, out),
        _ => Ok(()),
    }
}

/// Adds those of a statement.
#[cycle(memrefs)]
#[tactic(auto, using(crate::proofs::Firsts::loop_memrefs, crate::proofs::Firsts::condition_memrefs, crate::proofs::Firsts::plain_memrefs))]
fn add_one<'a>(stmt: &'a Stmt, out: &mut Vec<Named<'a>>) -> Result<(), AllocError>
    ensures { OnOk result (map named out.new.items ≡ accessed (put_what stmt.now.what stmt.now.line Nothing) (map named out.old.items)) }
{
    match &stmt.what {
        What::For { body, .. } => add_all(body.as_slice(), out),
        What::If { first, other, .. } => {
            add_all(first.as_slice(), out)?;
            add_all(or_none(other), out)
        }
        _ => add_plain(&stmt.what, out),
    }
}

/// Adds those of statements.
#[cycle(memrefs)]
#[tactic(auto, using(crate::proofs::Firsts::memrefs_go_on, crate::proofs::Firsts::memrefs_end))]
fn add_all<'a>(stmts: &'a [Stmt], out: &mut Vec<Named<'a>>) -> Result<(), AllocError>
    ensures { OnOk result (map named out.new.items ≡ accessed (nest stmts.now) (map named out.old.items)) }
{
    for stmt in stmts {
        add_one(stmt, out)?;
    }
    Ok(())
}

/// The memrefs that statements access, each once, in the order of their first accesses.
pub fn accessed_in<'a>(alloc: Global, stmts: &'a [Stmt]) -> Result<Vec<Named<'a>>, AllocError>
    ensures { IfOk result (λ found. map named found.items ≡ accessed (nest stmts.now) []) }
{
    let mut out = Vec::new(alloc);
    add_all(stmts, &mut out)?;
    Ok(out)
}
