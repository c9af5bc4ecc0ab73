// The statements of a loop, with the accesses of a memref redirected to its fast memref.
ghost use Rattle.std.specs.Prelude.{◌≡◌, IfOk};
ghost use Rattle.affine_ast.specs.declared.stmt.What as what;
ghost use Rattle.affine_ast.specs.Nest.{nest};
ghost use Rattle.placement_texts.specs.Mapped.{mapped};
ghost use Rattle.placement_texts.specs.Template.{redirect};
ghost use Rattle.placement_code.specs.Placed.{placement_of, MayBeWritten};
ghost use Rattle.placement_code.specs.Redirects.{HaveSmall};
ghost use Rattle.placement_stage.specs.Stages.{load_over, store_over, IsSmallText, IsSmallWhat, IsRedirected};

use affine_ast::{Access, Bound, MemrefType, Name, Stmt, What};
use affine_expr::Set;
use placement_code::{Placement, load_in_fast, store_in_fast};
use sqlite_items::Items;
use std::alloc::{AllocError, Global};

fn load_copied(
    alloc: Global,
    into: &Name,
    memref: &Name,
    at: &Access,
    ty: &MemrefType,
) -> Result<What, AllocError>
    ensures { IfOk result (λ made. made ≡ what.Load into.now memref.now at.now ty.now) }
{
    Ok(What::Load {
        result: into.copy(alloc)?,
        memref: memref.copy(alloc)?,
        at: at.copy(alloc)?,
        ty: ty.copy(alloc)?,
    })
}

fn store_copied(
    alloc: Global,
    value: &Name,
    memref: &Name,
    at: &Access,
    ty: &MemrefType,
) -> Result<What, AllocError>
    ensures { IfOk result (λ made. made ≡ what.Store value.now memref.now at.now ty.now) }
{
    Ok(What::Store {
        value: value.copy(alloc)?,
        memref: memref.copy(alloc)?,
        at: at.copy(alloc)?,
        ty: ty.copy(alloc)?,
    })
}

/// A load, which is of the fast memref where it is of the placement's.
fn redirected_load(
    alloc: Global,
    placed: &Placement,
    into: &Name,
    memref: &Name,
    at: &Access,
    ty: &MemrefType,
) -> Result<What, AllocError>
    requires placed { MayBeWritten placed.now }
    requires constants { HaveSmall at.now.map.results }
    ensures { IfOk result (λ made. made ≡ load_over (placement_of placed.now) into.now memref.now at.now ty.now) }
{
    if placed.memref.is(memref) {
        load_in_fast(alloc, placed, into, at)
    } else {
        load_copied(alloc, into, memref, at, ty)
    }
}

/// A store, likewise.
fn redirected_store(
    alloc: Global,
    placed: &Placement,
    value: &Name,
    memref: &Name,
    at: &Access,
    ty: &MemrefType,
) -> Result<What, AllocError>
    requires placed { MayBeWritten placed.now }
    requires constants { HaveSmall at.now.map.results }
    ensures { IfOk result (λ made. made ≡ store_over (placement_of placed.now) value.now memref.now at.now ty.now) }
{
    if placed.memref.is(memref) {
        store_in_fast(alloc, placed, value, at)
    } else {
        store_copied(alloc, value, memref, at, ty)
    }
}

fn loop_over(
    alloc: Global,
    var: &Name,
    lower: &Bound,
    upper: &Bound,
    step: i64,
    body: Items<Stmt>,
) -> Result<What, AllocError>
    ensures { IfOk result (λ made. made ≡ what.For var.now lower.now upper.now step body) }
{
    Ok(What::For {
        var: var.copy(alloc)?,
        lower: lower.copy(alloc)?,
        upper: upper.copy(alloc)?,
        step,
        body,
    })
}

fn copies(alloc: Global, names: &[Name]) -> Result<Items<Name>, AllocError>
    ensures { IfOk result (λ copies. copies ≡ names.now) }
{
    let mut copies = Items::new(alloc);
    for name in names {
        copies.push(name.copy(alloc)?)?;
    }
    Ok(copies)
}

fn condition_over(
    alloc: Global,
    set: &Set,
    operands: &[Name],
    first: Items<Stmt>,
    other: Option<Items<Stmt>>,
) -> Result<What, AllocError>
    ensures { IfOk result (λ made. made ≡ what.If set.now operands.now first other) }
{
    Ok(What::If {
        set: set.copy(alloc)?,
        operands: copies(alloc, operands)?,
        first,
        other,
    })
}

/// A statement in the place of another.
fn with_line(stmt: &Stmt, what: What) -> Stmt
    ensures line { result.line ≡ stmt.now.line }
    ensures what { result.what ≡ what }
{
    Stmt {
        line: stmt.line,
        what,
    }
}

/// What a statement is, with the accesses in it redirected.
#[cycle(redirects)]
fn redirected(alloc: Global, placed: &Placement, stmt: &Stmt) -> Result<What, AllocError>
    requires placed { MayBeWritten placed.now }
    requires constants { IsSmallWhat stmt.now.what }
    ensures { IfOk result (λ made. IsRedirected (placement_of placed.now) stmt.now.what made) }
{
    match &stmt.what {
        What::For {
            var,
            lower,
            upper,
            step,
            body,
        } => {
            let body = redirected_all(alloc, placed, body.as_slice())?;
            loop_over(alloc, var, lower, upper, *step, body)
        }
        What::If {
            set,
            operands,
            first,
            other,
        } => {
            let first = redirected_all(alloc, placed, first.as_slice())?;
            match other {
                None => condition_over(alloc, set, operands.as_slice(), first, None),
                Some(other) => {
                    let other = redirected_all(alloc, placed, other.as_slice())?;
                    condition_over(alloc, set, operands.as_slice(), first, Some(other))
                }
            }
        }
        What::Load {
            result,
            memref,
            at,
            ty,
        } => redirected_load(alloc, placed, result, memref, at, ty),
        What::Store {
            value,
            memref,
            at,
            ty,
        } => redirected_store(alloc, placed, value, memref, at, ty),
        _ => stmt.what.copy(alloc),
    }
}

/// Statements with the accesses in them redirected, each with its own line.
#[cycle(redirects)]
pub(crate) fn redirected_all(
    alloc: Global,
    placed: &Placement,
    stmts: &[Stmt],
) -> Result<Items<Stmt>, AllocError>
    requires placed { MayBeWritten placed.now }
    requires constants { IsSmallText (nest stmts.now) }
    ensures { IfOk result (λ made. nest made ≡ mapped (redirect (placement_of placed.now)) (nest stmts.now)) }
{
    let mut made = Items::new(alloc);
    for stmt in stmts {
        let what = redirected(alloc, placed, stmt)?;
        made.push(with_line(stmt, what))?;
    }
    Ok(made)
}
