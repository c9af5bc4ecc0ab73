// Statements with their subscripts numbered by first appearance.
ghost use Rattle.std.specs.Prelude.{◌≡◌, IfOk};
ghost use Rattle.affine_ast.specs.declared.stmt.What as what;
ghost use Rattle.affine_ast.specs.Nest.{nest};
ghost use Rattle.placement_texts.specs.Normal.{normal};
ghost use Rattle.normal_texts.specs.Texts.{normal_plain, normal_text};
ghost use Rattle.normal_modules.specs.Changed.{IsChanged};

use affine_ast::{Access, Bound, MemrefType, Name, Stmt, What};
use affine_expr::Set;
use normal_subscripts::normal;
use sqlite_items::Items;
use std::alloc::{AllocError, Global};

fn normal_load(
    alloc: Global,
    into: &Name,
    memref: &Name,
    at: &Access,
    ty: &MemrefType,
) -> Result<What, AllocError>
    ensures { IfOk result (λ made. made ≡ what.Load into.now memref.now (normal at.now) ty.now) }
{
    Ok(What::Load {
        result: into.copy(alloc)?,
        memref: memref.copy(alloc)?,
        at: normal(alloc, at)?,
        ty: ty.copy(alloc)?,
    })
}

fn normal_store(
    alloc: Global,
    value: &Name,
    memref: &Name,
    at: &Access,
    ty: &MemrefType,
) -> Result<What, AllocError>
    ensures { IfOk result (λ made. made ≡ what.Store value.now memref.now (normal at.now) ty.now) }
{
    Ok(What::Store {
        value: value.copy(alloc)?,
        memref: memref.copy(alloc)?,
        at: normal(alloc, at)?,
        ty: ty.copy(alloc)?,
    })
}

fn normal_wait(
    alloc: Global,
    tag: &Name,
    tag_at: &Access,
    count: &Name,
    ty: &MemrefType,
) -> Result<What, AllocError>
    ensures { IfOk result (λ made. made ≡ what.Wait tag.now (normal tag_at.now) count.now ty.now) }
{
    Ok(What::Wait {
        tag: tag.copy(alloc)?,
        tag_at: normal(alloc, tag_at)?,
        count: count.copy(alloc)?,
        ty: ty.copy(alloc)?,
    })
}

fn copied_stride(
    alloc: Global,
    stride: &Option<(Name, Name)>,
) -> Result<Option<(Name, Name)>, AllocError>
    ensures { IfOk result (λ copied. copied ≡ stride.now) }
{
    match stride {
        None => Ok(None),
        Some((stride, chunk)) => {
            let stride = stride.copy(alloc)?;
            let chunk = chunk.copy(alloc)?;
            Ok(Some((stride, chunk)))
        }
    }
}

fn copied_types(alloc: Global, types: &[MemrefType; 3]) -> Result<[MemrefType; 3], AllocError>
    ensures { IfOk result (λ copied. copied ≡ types.now) }
{
    let [source, destination, tags] = types;
    let source = source.copy(alloc)?;
    let destination = destination.copy(alloc)?;
    let tags = tags.copy(alloc)?;
    Ok([source, destination, tags])
}

fn normal_start(
    alloc: Global,
    from: &Name,
    from_at: &Access,
    to: &Name,
    to_at: &Access,
    tag: &Name,
    tag_at: &Access,
    count: &Name,
    stride: &Option<(Name, Name)>,
    types: &[MemrefType; 3],
) -> Result<What, AllocError>
    ensures { IfOk result (λ made. made ≡ what.Start from.now (normal from_at.now) to.now (normal to_at.now) tag.now (normal tag_at.now) count.now stride.now types.now) }
{
    Ok(What::Start {
        from: from.copy(alloc)?,
        from_at: normal(alloc, from_at)?,
        to: to.copy(alloc)?,
        to_at: normal(alloc, to_at)?,
        tag: tag.copy(alloc)?,
        tag_at: normal(alloc, tag_at)?,
        count: count.copy(alloc)?,
        stride: copied_stride(alloc, stride)?,
        types: copied_types(alloc, types)?,
    })
}

fn loop_over(
    alloc: Global,
    var: &Name,
    lower: &Bound,
    upper: &Bound,
    step: i64,
    body: Items<Stmt>,
) -> Result<What, AllocError>
    ensures { IfOk result (λ made. made ≡ what.For var.now lower.now upper.now step body) }
{
    Ok(What::For {
        var: var.copy(alloc)?,
        lower: lower.copy(alloc)?,
        upper: upper.copy(alloc)?,
        step,
        body,
    })
}

fn copies(alloc: Global, names: &[Name]) -> Result<Items<Name>, AllocError>
    ensures { IfOk result (λ copies. copies ≡ names.now) }
{
    let mut copies = Items::new(alloc);
    for name in names {
        copies.push(name.copy(alloc)?)?;
    }
    Ok(copies)
}

fn condition_over(
    alloc: Global,
    set: &Set,
    operands: &[Name],
    first: Items<Stmt>,
    other: Option<Items<Stmt>>,
) -> Result<What, AllocError>
    ensures { IfOk result (λ made. made ≡ what.If set.now operands.now first other) }
{
    Ok(What::If {
        set: set.copy(alloc)?,
        operands: copies(alloc, operands)?,
        first,
        other,
    })
}

/// A statement in the place of another.
fn with_line(stmt: &Stmt, what: What) -> Stmt
    ensures line { result.line ≡ stmt.now.line }
    ensures what { result.what ≡ what }
{
    Stmt {
        line: stmt.line,
        what,
    }
}

/// What a statement is, with the subscripts in it numbered so.
#[cycle(texts)]
fn normal_what(alloc: Global, stmt: &Stmt) -> Result<What, AllocError>
    ensures { IfOk result (λ made. IsChanged normal_plain stmt.now.what made) }
{
    match &stmt.what {
        What::For {
            var,
            lower,
            upper,
            step,
            body,
        } => {
            let body = normal_all(alloc, body.as_slice())?;
            loop_over(alloc, var, lower, upper, *step, body)
        }
        What::If {
            set,
            operands,
            first,
            other,
        } => {
            let first = normal_all(alloc, first.as_slice())?;
            match other {
                None => condition_over(alloc, set, operands.as_slice(), first, None),
                Some(other) => {
                    let other = normal_all(alloc, other.as_slice())?;
                    condition_over(alloc, set, operands.as_slice(), first, Some(other))
                }
            }
        }
        What::Load {
            result,
            memref,
            at,
            ty,
        } => normal_load(alloc, result, memref, at, ty),
        What::Store {
            value,
            memref,
            at,
            ty,
        } => normal_store(alloc, value, memref, at, ty),
        What::Start {
            from,
            from_at,
            to,
            to_at,
            tag,
            tag_at,
            count,
            stride,
            types,
        } => normal_start(
            alloc, from, from_at, to, to_at, tag, tag_at, count, stride, types,
        ),
        What::Wait {
            tag,
            tag_at,
            count,
            ty,
        } => normal_wait(alloc, tag, tag_at, count, ty),
        _ => stmt.what.copy(alloc),
    }
}

/// Statements with the subscripts in them numbered so, each with its own line.
#[cycle(texts)]
pub(crate) fn normal_all(alloc: Global, stmts: &[Stmt]) -> Result<Items<Stmt>, AllocError>
    ensures { IfOk result (λ made. nest made ≡ normal_text (nest stmts.now)) }
{
    let mut made = Items::new(alloc);
    for stmt in stmts {
        let what = normal_what(alloc, stmt)?;
        made.push(with_line(stmt, what))?;
    }
    Ok(made)
}
