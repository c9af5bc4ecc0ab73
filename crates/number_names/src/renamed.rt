// A module with its names replaced.
ghost use Rattle.std.specs.Prelude.{◌≡◌, false, map, IfOk};
ghost use Rattle.affine_ast.specs.declared.module.Arg.{Arg};
ghost use Rattle.affine_ast.specs.declared.stmt.What as what;
ghost use Rattle.affine_ast.specs.Nest.{nest, is_region};
ghost use Rattle.placement_texts.specs.Renamed.{access_named, bound_named, pair_named, named};
ghost use Rattle.numbered_names.specs.Numbers.{numbered_arg};
ghost use Rattle.number_names.specs.Renaming.{new_name, IsRenamed, IsRenamedModule};

use crate::numbering::Numbering;
use affine_ast::{Access, Arg, Bound, MemrefType, Module, Name, Pick, Scalar, Stmt, What};
use affine_expr::Set;
use int_ops::{CastKind, Op};
use sqlite_items::Items;
use std::alloc::{AllocError, Global};

fn names(alloc: Global, numbering: &Numbering, names: &[Name]) -> Result<Items<Name>, AllocError>
    ensures { IfOk result (λ renamed. renamed ≡ map (new_name numbering.now) names.now) }
{
    let mut renamed = Items::new(alloc);
    for name in names {
        renamed.push(numbering.name(alloc, name)?)?;
    }
    Ok(renamed)
}

fn access(alloc: Global, numbering: &Numbering, at: &Access) -> Result<Access, AllocError>
    ensures { IfOk result (λ renamed. renamed ≡ access_named (new_name numbering.now) at.now) }
{
    Ok(Access {
        map: at.map.copy(alloc)?,
        operands: names(alloc, numbering, at.operands.as_slice())?,
    })
}

fn bound(alloc: Global, numbering: &Numbering, bound: &Bound) -> Result<Bound, AllocError>
    ensures { IfOk result (λ renamed. renamed ≡ bound_named (new_name numbering.now) bound.now) }
{
    match bound {
        Bound::Int(value) => Ok(Bound::Int(*value)),
        Bound::Value(name) => Ok(Bound::Value(numbering.name(alloc, name)?)),
        Bound::Map(at) => Ok(Bound::Map(access(alloc, numbering, at)?)),
    }
}

fn stride(
    alloc: Global,
    numbering: &Numbering,
    stride: &Option<(Name, Name)>,
) -> Result<Option<(Name, Name)>, AllocError>
    ensures { IfOk result (λ renamed. renamed ≡ pair_named (new_name numbering.now) stride.now) }
{
    match stride {
        None => Ok(None),
        Some((stride, chunk)) => {
            let stride = numbering.name(alloc, stride)?;
            let chunk = numbering.name(alloc, chunk)?;
            Ok(Some((stride, chunk)))
        }
    }
}

fn value(
    alloc: Global,
    numbering: &Numbering,
    into: &Name,
    pick: Pick,
    at: &Access,
) -> Result<What, AllocError>
    ensures { IfOk result (λ made. made ≡ what.Value (new_name numbering.now into.now) pick (access_named (new_name numbering.now) at.now)) }
{
    Ok(What::Value {
        result: numbering.name(alloc, into)?,
        pick,
        at: access(alloc, numbering, at)?,
    })
}

fn load(
    alloc: Global,
    numbering: &Numbering,
    into: &Name,
    memref: &Name,
    at: &Access,
    ty: &MemrefType,
) -> Result<What, AllocError>
    ensures { IfOk result (λ made. made ≡ what.Load (new_name numbering.now into.now) (new_name numbering.now memref.now) (access_named (new_name numbering.now) at.now) ty.now) }
{
    Ok(What::Load {
        result: numbering.name(alloc, into)?,
        memref: numbering.name(alloc, memref)?,
        at: access(alloc, numbering, at)?,
        ty: ty.copy(alloc)?,
    })
}

fn store(
    alloc: Global,
    numbering: &Numbering,
    value: &Name,
    memref: &Name,
    at: &Access,
    ty: &MemrefType,
) -> Result<What, AllocError>
    ensures { IfOk result (λ made. made ≡ what.Store (new_name numbering.now value.now) (new_name numbering.now memref.now) (access_named (new_name numbering.now) at.now) ty.now) }
{
    Ok(What::Store {
        value: numbering.name(alloc, value)?,
        memref: numbering.name(alloc, memref)?,
        at: access(alloc, numbering, at)?,
        ty: ty.copy(alloc)?,
    })
}

fn raw_load(
    alloc: Global,
    numbering: &Numbering,
    into: &Name,
    memref: &Name,
    at: &[Name],
    ty: &MemrefType,
) -> Result<What, AllocError>
    ensures { IfOk result (λ made. made ≡ what.RawLoad (new_name numbering.now into.now) (new_name numbering.now memref.now) (map (new_name numbering.now) at.now) ty.now) }
{
    Ok(What::RawLoad {
        result: numbering.name(alloc, into)?,
        memref: numbering.name(alloc, memref)?,
        at: names(alloc, numbering, at)?,
        ty: ty.copy(alloc)?,
    })
}

fn raw_store(
    alloc: Global,
    numbering: &Numbering,
    value: &Name,
    memref: &Name,
    at: &[Name],
    ty: &MemrefType,
) -> Result<What, AllocError>
    ensures { IfOk result (λ made. made ≡ what.RawStore (new_name numbering.now value.now) (new_name numbering.now memref.now) (map (new_name numbering.now) at.now) ty.now) }
{
    Ok(What::RawStore {
        value: numbering.name(alloc, value)?,
        memref: numbering.name(alloc, memref)?,
        at: names(alloc, numbering, at)?,
        ty: ty.copy(alloc)?,
    })
}

fn constant(
    alloc: Global,
    numbering: &Numbering,
    into: &Name,
    value: i64,
    ty: Scalar,
) -> Result<What, AllocError>
    ensures { IfOk result (λ made. made ≡ what.Constant (new_name numbering.now into.now) value ty) }
{
    Ok(What::Constant {
        result: numbering.name(alloc, into)?,
        value,
        ty,
    })
}

fn binary(
    alloc: Global,
    numbering: &Numbering,
    into: &Name,
    op: Op,
    left: &Name,
    right: &Name,
    ty: Scalar,
) -> Result<What, AllocError>
    ensures { IfOk result (λ made. made ≡ what.Binary (new_name numbering.now into.now) op (new_name numbering.now left.now) (new_name numbering.now right.now) ty) }
{
    Ok(What::Binary {
        result: numbering.name(alloc, into)?,
        op,
        left: numbering.name(alloc, left)?,
        right: numbering.name(alloc, right)?,
        ty,
    })
}

fn cast(
    alloc: Global,
    numbering: &Numbering,
    into: &Name,
    kind: CastKind,
    value: &Name,
    from: Scalar,
    to: Scalar,
) -> Result<What, AllocError>
    ensures { IfOk result (λ made. made ≡ what.Cast (new_name numbering.now into.now) kind (new_name numbering.now value.now) from to) }
{
    Ok(What::Cast {
        result: numbering.name(alloc, into)?,
        kind,
        value: numbering.name(alloc, value)?,
        from,
        to,
    })
}

fn allocation(
    alloc: Global,
    numbering: &Numbering,
    into: &Name,
    ty: &MemrefType,
) -> Result<What, AllocError>
    ensures { IfOk result (λ made. made ≡ what.Alloc (new_name numbering.now into.now) ty.now) }
{
    Ok(What::Alloc {
        result: numbering.name(alloc, into)?,
        ty: ty.copy(alloc)?,
    })
}

fn dealloc(
    alloc: Global,
    numbering: &Numbering,
    memref: &Name,
    ty: &MemrefType,
) -> Result<What, AllocError>
    ensures { IfOk result (λ made. made ≡ what.Dealloc (new_name numbering.now memref.now) ty.now) }
{
    Ok(What::Dealloc {
        memref: numbering.name(alloc, memref)?,
        ty: ty.copy(alloc)?,
    })
}

fn wait(
    alloc: Global,
    numbering: &Numbering,
    tag: &Name,
    tag_at: &Access,
    count: &Name,
    ty: &MemrefType,
) -> Result<What, AllocError>
    ensures { IfOk result (λ made. made ≡ what.Wait (new_name numbering.now tag.now) (access_named (new_name numbering.now) tag_at.now) (new_name numbering.now count.now) ty.now) }
{
    Ok(What::Wait {
        tag: numbering.name(alloc, tag)?,
        tag_at: access(alloc, numbering, tag_at)?,
        count: numbering.name(alloc, count)?,
        ty: ty.copy(alloc)?,
    })
}

fn copied_types(alloc: Global, types: &[MemrefType; 3]) -> Result<[MemrefType; 3], AllocError>
    ensures { IfOk result (λ copied. copied ≡ types.now) }
{
    let [source, destination, tags] = types;
    let source = source.copy(alloc)?;
    let destination = destination.copy(alloc)?;
    let tags = tags.copy(alloc)?;
    Ok([source, destination, tags])
}

fn start(
    alloc: Global,
    numbering: &Numbering,
    from: &Name,
    from_at: &Access,
    to: &Name,
    to_at: &Access,
    tag: &Name,
    tag_at: &Access,
    count: &Name,
    strides: &Option<(Name, Name)>,
    types: &[MemrefType; 3],
) -> Result<What, AllocError>
    ensures { IfOk result (λ made. made ≡ what.Start (new_name numbering.now from.now) (access_named (new_name numbering.now) from_at.now) (new_name numbering.now to.now) (access_named (new_name numbering.now) to_at.now) (new_name numbering.now tag.now) (access_named (new_name numbering.now) tag_at.now) (new_name numbering.now count.now) (pair_named (new_name numbering.now) strides.now) types.now) }
{
    Ok(What::Start {
        from: numbering.name(alloc, from)?,
        from_at: access(alloc, numbering, from_at)?,
        to: numbering.name(alloc, to)?,
        to_at: access(alloc, numbering, to_at)?,
        tag: numbering.name(alloc, tag)?,
        tag_at: access(alloc, numbering, tag_at)?,
        count: numbering.name(alloc, count)?,
        stride: stride(alloc, numbering, strides)?,
        types: copied_types(alloc, types)?,
    })
}

fn loop_over(
    alloc: Global,
    numbering: &Numbering,
    var: &Name,
    lower: &Bound,
    upper: &Bound,
    step: i64,
    body: Items<Stmt>,
) -> Result<What, AllocError>
    ensures { IfOk result (λ made. made ≡ what.For (new_name numbering.now var.now) (bound_named (new_name numbering.now) lower.now) (bound_named (new_name numbering.now) upper.now) step body) }
{
    Ok(What::For {
        var: numbering.name(alloc, var)?,
        lower: bound(alloc, numbering, lower)?,
        upper: bound(alloc, numbering, upper)?,
        step,
        body,
    })
}

fn condition_over(
    alloc: Global,
    numbering: &Numbering,
    set: &Set,
    operands: &[Name],
    first: Items<Stmt>,
    other: Option<Items<Stmt>>,
) -> Result<What, AllocError>
    ensures { IfOk result (λ made. made ≡ what.If set.now (map (new_name numbering.now) operands.now) first other) }
{
    Ok(What::If {
        set: set.copy(alloc)?,
        operands: names(alloc, numbering, operands)?,
        first,
        other,
    })
}

/// A statement without a region with its names replaced; a region is left to its own function.
fn renamed_plain(alloc: Global, numbering: &Numbering, what: &What) -> Result<What, AllocError>
    requires plain { is_region what.now ≡ false }
    ensures { IfOk result (λ made. IsRenamed (new_name numbering.now) what.now made) }
{
    match what {
        What::Value { result, pick, at } => value(alloc, numbering, result, *pick, at),
        What::Load {
            result,
            memref,
            at,
            ty,
        } => load(alloc, numbering, result, memref, at, ty),
        What::Store {
            value,
            memref,
            at,
            ty,
        } => store(alloc, numbering, value, memref, at, ty),
        What::RawLoad {
            result,
            memref,
            at,
            ty,
        } => raw_load(alloc, numbering, result, memref, at.as_slice(), ty),
        What::RawStore {
            value,
            memref,
            at,
            ty,
        } => raw_store(alloc, numbering, value, memref, at.as_slice(), ty),
        What::Constant { result, value, ty } => constant(alloc, numbering, result, *value, *ty),
        What::Binary {
            result,
            op,
            left,
            right,
            ty,
        } => binary(alloc, numbering, result, *op, left, right, *ty),
        What::Cast {
            result,
            kind,
            value,
            from,
            to,
        } => cast(alloc, numbering, result, *kind, value, *from, *to),
        What::Alloc { result, ty } => allocation(alloc, numbering, result, ty),
        What::Dealloc { memref, ty } => dealloc(alloc, numbering, memref, ty),
        What::Start {
            from,
            from_at,
            to,
            to_at,
            tag,
            tag_at,
            count,
            stride,
            types,
        } => start(
            alloc, numbering, from, from_at, to, to_at, tag, tag_at, count, stride, types,
        ),
        What::Wait {
            tag,
            tag_at,
            count,
            ty,
        } => wait(alloc, numbering, tag, tag_at, count, ty),
        What::Return => Ok(What::Return),
        What::For { .. } => what.copy(alloc),
        What::If { .. } => what.copy(alloc),
    }
}

/// A statement and those in it with their names replaced.
#[cycle(renaming)]
fn renamed(alloc: Global, numbering: &Numbering, what: &What) -> Result<What, AllocError>
    ensures { IfOk result (λ made. IsRenamed (new_name numbering.now) what.now made) }
{
    match what {
        What::For {
            var,
            lower,
            upper,
            step,
            body,
        } => {
            let body = renamed_all(alloc, numbering, body.as_slice())?;
            loop_over(alloc, numbering, var, lower, upper, *step, body)
        }
        What::If {
            set,
            operands,
            first,
            other,
        } => {
            let first = renamed_all(alloc, numbering, first.as_slice())?;
            match other {
                None => condition_over(alloc, numbering, set, operands.as_slice(), first, None),
                Some(other) => {
                    let other = renamed_all(alloc, numbering, other.as_slice())?;
                    condition_over(
                        alloc,
                        numbering,
                        set,
                        operands.as_slice(),
                        first,
                        Some(other),
                    )
                }
            }
        }
        _ => renamed_plain(alloc, numbering, what),
    }
}

/// Statements with the names in them replaced, each with its own line.
#[cycle(renaming)]
fn renamed_all(
    alloc: Global,
    numbering: &Numbering,
    stmts: &[Stmt],
) -> Result<Items<Stmt>, AllocError>
    ensures { IfOk result (λ made. nest made ≡ named (new_name numbering.now) (nest stmts.now)) }
{
    let mut made = Items::new(alloc);
    for stmt in stmts {
        made.push(Stmt {
            line: stmt.line,
            what: renamed(alloc, numbering, &stmt.what)?,
        })?;
    }
    Ok(made)
}

fn renamed_args(
    alloc: Global,
    numbering: &Numbering,
    args: &[Arg],
) -> Result<Items<Arg>, AllocError>
    ensures { IfOk result (λ renamed. renamed ≡ map (numbered_arg (new_name numbering.now)) args.now) }
{
    let mut renamed = Items::new(alloc);
    for arg in args {
        renamed.push(Arg {
            name: numbering.name(alloc, &arg.name)?,
            kind: arg.kind.copy(alloc)?,
            line: arg.line,
        })?;
    }
    Ok(renamed)
}

/// A module with its names replaced.
pub(crate) fn renamed_module(
    alloc: Global,
    numbering: &Numbering,
    module: &Module,
) -> Result<Module, AllocError>
    ensures { IfOk result (λ made. IsRenamedModule (new_name numbering.now) «module».now made) }
{
    Ok(Module {
        name: module.name.copy(alloc)?,
        args: renamed_args(alloc, numbering, module.args.as_slice())?,
        body: renamed_all(alloc, numbering, module.body.as_slice())?,
    })
}
