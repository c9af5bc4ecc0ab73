// Statements.
ghost use Rattle.std.specs.Prelude.{◌≡◌, IfOk};

use crate::name::{Name, copy_names};
use crate::types::{Access, Bound, MemrefType, Pick, Scalar};
use affine_expr::Set;
use int_ops::{CastKind, Op};
use sqlite_items::Items;
use std::alloc::{AllocError, Global};

/// What a statement is, with the operands in the order of its text. Every statement writes the types of what it names.
#[cycle(statements)]
#[derive(Drop)]
pub enum What {
    /// `affine.for`: a body at each turn of its variable, from the greatest lower result up to, not including, the least
    /// upper result.
    For {
        var: Name,
        lower: Bound,
        upper: Bound,
        step: i64,
        body: Items<Stmt>,
    },
    /// `affine.if`: the first region where all constraints hold, else the other where there is one.
    If {
        set: Set,
        operands: Items<Name>,
        first: Items<Stmt>,
        other: Option<Items<Stmt>>,
    },
    /// `affine.apply`, `affine.min` or `affine.max`.
    Value {
        result: Name,
        pick: Pick,
        at: Access,
    },
    /// `affine.load`.
    Load {
        result: Name,
        memref: Name,
        at: Access,
        ty: MemrefType,
    },
    /// `affine.store`.
    Store {
        value: Name,
        memref: Name,
        at: Access,
        ty: MemrefType,
    },
    /// `memref.load`, whose subscripts are values.
    RawLoad {
        result: Name,
        memref: Name,
        at: Items<Name>,
        ty: MemrefType,
    },
    /// `memref.store`, whose subscripts are values.
    RawStore {
        value: Name,
        memref: Name,
        at: Items<Name>,
        ty: MemrefType,
    },
    /// `arith.constant`.
    Constant {
        result: Name,
        value: i64,
        ty: Scalar,
    },
    /// An integer operation of `arith`.
    Binary {
        result: Name,
        op: Op,
        left: Name,
        right: Name,
        ty: Scalar,
    },
    /// A cast of `arith`.
    Cast {
        result: Name,
        kind: CastKind,
        value: Name,
        from: Scalar,
        to: Scalar,
    },
    /// `memref.alloc`.
    Alloc {
        result: Name,
        ty: MemrefType,
    },
    /// `memref.dealloc`.
    Dealloc {
        memref: Name,
        ty: MemrefType,
    },
    /// `affine.dma_start`: of `count` elements, with a stride and then the elements of a chunk where both are given. The
    /// types are those of the source, the destination and the tags.
    Start {
        from: Name,
        from_at: Access,
        to: Name,
        to_at: Access,
        tag: Name,
        tag_at: Access,
        count: Name,
        stride: Option<(Name, Name)>,
        types: [MemrefType; 3],
    },
    /// `affine.dma_wait`.
    Wait {
        tag: Name,
        tag_at: Access,
        count: Name,
        ty: MemrefType,
    },
    /// `return`, the last statement of a function.
    Return,
}

/// A statement with the line of its first token, counted from 1.
#[cycle(statements)]
#[derive(Drop)]
pub struct Stmt {
    pub line: u32,
    pub what: What,
}

fn copy_value(alloc: Global, into: &Name, pick: Pick, at: &Access) -> Result<What, AllocError>
    ensures { IfOk result (λ what. what ≡ What.Value into.now pick at.now) }
{
    Ok(What::Value {
        result: into.copy(alloc)?,
        pick,
        at: at.copy(alloc)?,
    })
}

fn copy_load(
    alloc: Global,
    into: &Name,
    memref: &Name,
    at: &Access,
    ty: &MemrefType,
) -> Result<What, AllocError>
    ensures { IfOk result (λ what. what ≡ What.Load into.now memref.now at.now ty.now) }
{
    Ok(What::Load {
        result: into.copy(alloc)?,
        memref: memref.copy(alloc)?,
        at: at.copy(alloc)?,
        ty: ty.copy(alloc)?,
    })
}

fn copy_store(
    alloc: Global,
    value: &Name,
    memref: &Name,
    at: &Access,
    ty: &MemrefType,
) -> Result<What, AllocError>
    ensures { IfOk result (λ what. what ≡ What.Store value.now memref.now at.now ty.now) }
{
    Ok(What::Store {
        value: value.copy(alloc)?,
        memref: memref.copy(alloc)?,
        at: at.copy(alloc)?,
        ty: ty.copy(alloc)?,
    })
}

fn copy_raw_load(
    alloc: Global,
    into: &Name,
    memref: &Name,
    at: &[Name],
    ty: &MemrefType,
) -> Result<What, AllocError>
    ensures { IfOk result (λ what. what ≡ What.RawLoad into.now memref.now at.now ty.now) }
{
    Ok(What::RawLoad {
        result: into.copy(alloc)?,
        memref: memref.copy(alloc)?,
        at: copy_names(alloc, at)?,
        ty: ty.copy(alloc)?,
    })
}

fn copy_raw_store(
    alloc: Global,
    value: &Name,
    memref: &Name,
    at: &[Name],
    ty: &MemrefType,
) -> Result<What, AllocError>
    ensures { IfOk result (λ what. what ≡ What.RawStore value.now memref.now at.now ty.now) }
{
    Ok(What::RawStore {
        value: value.copy(alloc)?,
        memref: memref.copy(alloc)?,
        at: copy_names(alloc, at)?,
        ty: ty.copy(alloc)?,
    })
}

fn copy_constant(alloc: Global, into: &Name, value: i64, ty: Scalar) -> Result<What, AllocError>
    ensures { IfOk result (λ what. what ≡ What.Constant into.now value ty) }
{
    Ok(What::Constant {
        result: into.copy(alloc)?,
        value,
        ty,
    })
}

fn copy_binary(
    alloc: Global,
    into: &Name,
    op: Op,
    left: &Name,
    right: &Name,
    ty: Scalar,
) -> Result<What, AllocError>
    ensures { IfOk result (λ what. what ≡ What.Binary into.now op left.now right.now ty) }
{
    Ok(What::Binary {
        result: into.copy(alloc)?,
        op,
        left: left.copy(alloc)?,
        right: right.copy(alloc)?,
        ty,
    })
}

fn copy_cast(
    alloc: Global,
    into: &Name,
    kind: CastKind,
    value: &Name,
    from: Scalar,
    to: Scalar,
) -> Result<What, AllocError>
    ensures { IfOk result (λ what. what ≡ What.Cast into.now kind value.now from to) }
{
    Ok(What::Cast {
        result: into.copy(alloc)?,
        kind,
        value: value.copy(alloc)?,
        from,
        to,
    })
}

fn copy_alloc(alloc: Global, into: &Name, ty: &MemrefType) -> Result<What, AllocError>
    ensures { IfOk result (λ what. what ≡ What.Alloc into.now ty.now) }
{
    Ok(What::Alloc {
        result: into.copy(alloc)?,
        ty: ty.copy(alloc)?,
    })
}

fn copy_dealloc(alloc: Global, memref: &Name, ty: &MemrefType) -> Result<What, AllocError>
    ensures { IfOk result (λ what. what ≡ What.Dealloc memref.now ty.now) }
{
    Ok(What::Dealloc {
        memref: memref.copy(alloc)?,
        ty: ty.copy(alloc)?,
    })
}

fn copy_wait(
    alloc: Global,
    tag: &Name,
    tag_at: &Access,
    count: &Name,
    ty: &MemrefType,
) -> Result<What, AllocError>
    ensures { IfOk result (λ what. what ≡ What.Wait tag.now tag_at.now count.now ty.now) }
{
    Ok(What::Wait {
        tag: tag.copy(alloc)?,
        tag_at: tag_at.copy(alloc)?,
        count: count.copy(alloc)?,
        ty: ty.copy(alloc)?,
    })
}

fn copy_stride(
    alloc: Global,
    stride: &Option<(Name, Name)>,
) -> Result<Option<(Name, Name)>, AllocError>
    ensures { IfOk result (λ copied. copied ≡ stride.now) }
{
    match stride {
        None => Ok(None),
        Some((stride, chunk)) => {
            let stride = stride.copy(alloc)?;
            let chunk = chunk.copy(alloc)?;
            Ok(Some((stride, chunk)))
        }
    }
}

fn copy_types(alloc: Global, types: &[MemrefType; 3]) -> Result<[MemrefType; 3], AllocError>
    ensures { IfOk result (λ copied. copied ≡ types.now) }
{
    let [source, destination, tags] = types;
    let source = source.copy(alloc)?;
    let destination = destination.copy(alloc)?;
    let tags = tags.copy(alloc)?;
    Ok([source, destination, tags])
}

fn copy_start(
    alloc: Global,
    from: &Name,
    from_at: &Access,
    to: &Name,
    to_at: &Access,
    tag: &Name,
    tag_at: &Access,
    count: &Name,
    stride: &Option<(Name, Name)>,
    types: &[MemrefType; 3],
) -> Result<What, AllocError>
    ensures { IfOk result (λ what. what ≡ What.Start from.now from_at.now to.now to_at.now tag.now tag_at.now count.now stride.now types.now) }
{
    Ok(What::Start {
        from: from.copy(alloc)?,
        from_at: from_at.copy(alloc)?,
        to: to.copy(alloc)?,
        to_at: to_at.copy(alloc)?,
        tag: tag.copy(alloc)?,
        tag_at: tag_at.copy(alloc)?,
        count: count.copy(alloc)?,
        stride: copy_stride(alloc, stride)?,
        types: copy_types(alloc, types)?,
    })
}

#[cycle(copies)]
fn copy_for(
    alloc: Global,
    var: &Name,
    lower: &Bound,
    upper: &Bound,
    step: i64,
    body: &[Stmt],
) -> Result<What, AllocError>
    ensures { IfOk result (λ what. what ≡ What.For var.now lower.now upper.now step body.now) }
{
    Ok(What::For {
        var: var.copy(alloc)?,
        lower: lower.copy(alloc)?,
        upper: upper.copy(alloc)?,
        step,
        body: copy_stmts(alloc, body)?,
    })
}

fn with_condition(
    alloc: Global,
    set: &Set,
    operands: &[Name],
    first: Items<Stmt>,
    other: Option<Items<Stmt>>,
) -> Result<What, AllocError>
    ensures { IfOk result (λ what. what ≡ What.If set.now operands.now first other) }
{
    Ok(What::If {
        set: set.copy(alloc)?,
        operands: copy_names(alloc, operands)?,
        first,
        other,
    })
}

impl What {
    /// An equal statement, with the same lines inside.
    #[cycle(copies)]
    pub fn copy(&self, alloc: Global) -> Result<What, AllocError>
        ensures { IfOk result (λ what. what ≡ self.now) }
    {
        match self {
            What::For {
                var,
                lower,
                upper,
                step,
                body,
            } => copy_for(alloc, var, lower, upper, *step, body.as_slice()),
            What::If {
                set,
                operands,
                first,
                other,
            } => {
                let first = copy_stmts(alloc, first.as_slice())?;
                let other = match other {
                    None => None,
                    Some(other) => Some(copy_stmts(alloc, other.as_slice())?),
                };
                with_condition(alloc, set, operands.as_slice(), first, other)
            }
            What::Value { result, pick, at } => copy_value(alloc, result, *pick, at),
            What::Load {
                result,
                memref,
                at,
                ty,
            } => copy_load(alloc, result, memref, at, ty),
            What::Store {
                value,
                memref,
                at,
                ty,
            } => copy_store(alloc, value, memref, at, ty),
            What::RawLoad {
                result,
                memref,
                at,
                ty,
            } => copy_raw_load(alloc, result, memref, at.as_slice(), ty),
            What::RawStore {
                value,
                memref,
                at,
                ty,
            } => copy_raw_store(alloc, value, memref, at.as_slice(), ty),
            What::Constant { result, value, ty } => copy_constant(alloc, result, *value, *ty),
            What::Binary {
                result,
                op,
                left,
                right,
                ty,
            } => copy_binary(alloc, result, *op, left, right, *ty),
            What::Cast {
                result,
                kind,
                value,
                from,
                to,
            } => copy_cast(alloc, result, *kind, value, *from, *to),
            What::Alloc { result, ty } => copy_alloc(alloc, result, ty),
            What::Dealloc { memref, ty } => copy_dealloc(alloc, memref, ty),
            What::Wait {
                tag,
                tag_at,
                count,
                ty,
            } => copy_wait(alloc, tag, tag_at, count, ty),
            What::Start {
                from,
                from_at,
                to,
                to_at,
                tag,
                tag_at,
                count,
                stride,
                types,
            } => copy_start(
                alloc, from, from_at, to, to_at, tag, tag_at, count, stride, types,
            ),
            What::Return => Ok(What::Return),
        }
    }
}

impl Stmt {
    /// An equal statement, with the same lines.
    #[cycle(copies)]
    pub fn copy(&self, alloc: Global) -> Result<Stmt, AllocError>
        ensures { IfOk result (λ stmt. stmt ≡ self.now) }
    {
        Ok(Stmt {
            line: self.line,
            what: self.what.copy(alloc)?,
        })
    }
}

/// Copies of statements, in order.
#[cycle(copies)]
pub(crate) fn copy_stmts(alloc: Global, stmts: &[Stmt]) -> Result<Items<Stmt>, AllocError>
    ensures { IfOk result (λ copies. copies ≡ stmts.now) }
{
    let mut copies = Items::new(alloc);
    for stmt in stmts {
        copies.push(stmt.copy(alloc)?)?;
    }
    Ok(copies)
}
