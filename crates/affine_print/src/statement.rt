// Statements and their regions.
ghost use Rattle.std.specs.Prelude.{◌≡◌, ◌++◌, OnOk, IfOk, true, codes};
ghost use Rattle.affine_ast.specs.Nest.{nest};
ghost use Rattle.affine_ast.specs.Spelling.{step_text, bounds_text, for_text, if_text, deeper, block_text, line_text, else_text, lines, statement_text};

use crate::access::{put_bound, put_set};
use crate::piece::{put, put_signed};
use crate::plain::{
    put_alloc, put_binary, put_cast, put_constant, put_dealloc, put_load, put_named, put_raw_load,
    put_raw_store, put_start, put_store, put_value, put_wait,
};
use affine_ast::{Bound, Name, Stmt, What};
use affine_expr::Set;
use std::alloc::{AllocError, Global};

/// The step of a loop, where it isn't 1.
#[tactic(auto, unfolding(affine_ast::specs::Spelling::step_text))]
fn put_step(alloc: Global, out: &mut Vec<u8>, step: i64) -> Result<(), AllocError>
    ensures { OnOk result (out.new.items ≡ out.old.items ++ step_text step) }
{
    if step == 1 {
        return Ok(());
    }
    put(out, b" step ")?;
    put_signed(alloc, out, step)
}

#[tactic(auto, unfolding(affine_ast::specs::Spelling::bounds_text))]
fn put_bounds(
    alloc: Global,
    out: &mut Vec<u8>,
    lower: &Bound,
    upper: &Bound,
) -> Result<(), AllocError>
    ensures { OnOk result (out.new.items ≡ out.old.items ++ bounds_text lower.now upper.now) }
{
    put_bound(alloc, out, b"max ", lower)?;
    put(out, b" to ")?;
    put_bound(alloc, out, b"min ", upper)
}

/// The head of a loop, up to the line feed behind its brace.
#[tactic(auto, unfolding(affine_ast::specs::Spelling::for_text))]
fn put_for(
    alloc: Global,
    out: &mut Vec<u8>,
    var: &Name,
    lower: &Bound,
    upper: &Bound,
    step: i64,
) -> Result<(), AllocError>
    ensures { OnOk result (out.new.items ≡ out.old.items ++ for_text var.now lower.now upper.now step) }
{
    put_named(out, b"affine.for ", var)?;
    put(out, b" = ")?;
    put_bounds(alloc, out, lower, upper)?;
    put_step(alloc, out, step)?;
    put(out, b" {\n")
}

/// The head of a condition, up to the line feed behind its brace.
#[tactic(auto, unfolding(affine_ast::specs::Spelling::if_text))]
fn put_if(alloc: Global, out: &mut Vec<u8>, set: &Set, operands: &[Name]) -> Result<(), AllocError>
    ensures { OnOk result (out.new.items ≡ out.old.items ++ if_text set.now operands.now) }
{
    put(out, b"affine.if ")?;
    put_set(alloc, out, set, operands)?;
    put(out, b" {\n")
}

/// The margin of the lines inside a region.
#[tactic(auto, unfolding(affine_ast::specs::Spelling::deeper))]
fn inner_margin(alloc: Global, margin: &[u8]) -> Result<Vec<u8>, AllocError>
    ensures { IfOk result (λ inner. inner.items ≡ deeper margin.now) }
{
    let mut inner = Vec::from_slice(alloc, margin)?;
    put(&mut inner, b"  ")?;
    Ok(inner)
}

/// The brace behind a region, at the margin of its head.
fn put_close(out: &mut Vec<u8>, margin: &[u8]) -> Result<(), AllocError>
    ensures { OnOk result (out.new.items ≡ out.old.items ++ (margin.now ++ codes "}")) }
{
    put(out, margin)?;
    put(out, b"}")
}

/// The lines of a region whose head stands at a margin.
#[cycle(statements)]
fn put_region(
    alloc: Global,
    out: &mut Vec<u8>,
    body: &[Stmt],
    margin: &[u8],
) -> Result<(), AllocError>
    ensures { OnOk result (out.new.items ≡ out.old.items ++ lines (deeper margin.now) (nest body.now)) }
{
    let inner = inner_margin(alloc, margin)?;
    put_stmts(alloc, out, body, inner.as_slice())
}

/// The second region of a condition.
#[cycle(statements)]
#[tactic(auto, unfolding(affine_ast::specs::Spelling::else_text))]
fn put_else(
    alloc: Global,
    out: &mut Vec<u8>,
    other: &[Stmt],
    margin: &[u8],
) -> Result<(), AllocError>
    ensures { OnOk result (out.new.items ≡ out.old.items ++ else_text margin.now true (lines (deeper margin.now) (nest other.now))) }
{
    put(out, margin)?;
    put(out, b"} else {\n")?;
    put_region(alloc, out, other, margin)
}

/// A loop. The brace behind its body stands at the margin.
#[cycle(statements)]
#[tactic(auto, unfolding(affine_ast::specs::Spelling::block_text))]
fn put_loop(
    alloc: Global,
    out: &mut Vec<u8>,
    var: &Name,
    lower: &Bound,
    upper: &Bound,
    step: i64,
    body: &[Stmt],
    margin: &[u8],
) -> Result<(), AllocError>
    ensures { OnOk result (out.new.items ≡ out.old.items ++ block_text margin.now (for_text var.now lower.now upper.now step) (lines (deeper margin.now) (nest body.now))) }
{
    put_for(alloc, out, var, lower, upper, step)?;
    put_region(alloc, out, body, margin)?;
    put_close(out, margin)
}

/// A condition up to the end of its first region.
#[cycle(statements)]
fn put_first_region(
    alloc: Global,
    out: &mut Vec<u8>,
    set: &Set,
    operands: &[Name],
    first: &[Stmt],
    margin: &[u8],
) -> Result<(), AllocError>
    ensures { OnOk result (out.new.items ≡ out.old.items ++ (if_text set.now operands.now ++ lines (deeper margin.now) (nest first.now))) }
{
    put_if(alloc, out, set, operands)?;
    put_region(alloc, out, first, margin)
}

/// A statement without the margin before it and the line feed behind it.
#[cycle(statements)]
#[tactic(auto, using(affine_ast::proofs::Spellings::statement_texts))]
fn put_what(alloc: Global, out: &mut Vec<u8>, what: &What, margin: &[u8]) -> Result<(), AllocError>
    ensures { OnOk result (out.new.items ≡ out.old.items ++ statement_text margin.now what.now) }
{
    match what {
        What::For {
            var,
            lower,
            upper,
            step,
            body,
        } => put_loop(
            alloc,
            out,
            var,
            lower,
            upper,
            *step,
            body.as_slice(),
            margin,
        ),
        What::If {
            set,
            operands,
            first,
            other,
        } => {
            put_first_region(
                alloc,
                out,
                set,
                operands.as_slice(),
                first.as_slice(),
                margin,
            )?;
            match other {
                None => put_close(out, margin),
                Some(other) => {
                    put_else(alloc, out, other.as_slice(), margin)?;
                    put_close(out, margin)
                }
            }
        }
        What::Value { result, pick, at } => put_value(alloc, out, result, *pick, at),
        What::Load {
            result,
            memref,
            at,
            ty,
        } => put_load(alloc, out, result, memref, at, ty),
        What::Store {
            value,
            memref,
            at,
            ty,
        } => put_store(alloc, out, value, memref, at, ty),
        What::RawLoad {
            result,
            memref,
            at,
            ty,
        } => put_raw_load(alloc, out, result, memref, at.as_slice(), ty),
        What::RawStore {
            value,
            memref,
            at,
            ty,
        } => put_raw_store(alloc, out, value, memref, at.as_slice(), ty),
        What::Constant { result, value, ty } => put_constant(alloc, out, result, *value, *ty),
        What::Binary {
            result,
            op,
            left,
            right,
            ty,
        } => put_binary(out, result, *op, left, right, *ty),
        What::Cast {
            result,
            kind,
            value,
            from,
            to,
        } => put_cast(out, result, *kind, value, *from, *to),
        What::Alloc { result, ty } => put_alloc(alloc, out, result, ty),
        What::Dealloc { memref, ty } => put_dealloc(alloc, out, memref, ty),
        What::Start {
            from,
            from_at,
            to,
            to_at,
            tag,
            tag_at,
            count,
            stride,
            types,
        } => put_start(
            alloc, out, from, from_at, to, to_at, tag, tag_at, count, stride, types,
        ),
        What::Wait {
            tag,
            tag_at,
            count,
            ty,
        } => put_wait(alloc, out, tag, tag_at, count, ty),
        What::Return => put(out, b"return"),
    }
}

/// A statement on a line of its own.
#[cycle(statements)]
#[tactic(auto, unfolding(affine_ast::specs::Spelling::line_text))]
fn put_stmt(alloc: Global, out: &mut Vec<u8>, stmt: &Stmt, margin: &[u8]) -> Result<(), AllocError>
    ensures { OnOk result (out.new.items ≡ out.old.items ++ line_text margin.now (statement_text margin.now stmt.now.what)) }
{
    put(out, margin)?;
    put_what(alloc, out, &stmt.what, margin)?;
    put(out, b"\n")
}

/// Statements, each on a line of its own at the margin.
#[cycle(statements)]
pub fn put_stmts(
    alloc: Global,
    out: &mut Vec<u8>,
    stmts: &[Stmt],
    margin: &[u8],
) -> Result<(), AllocError>
    ensures { OnOk result (out.new.items ≡ out.old.items ++ lines margin.now (nest stmts.now)) }
{
    for stmt in stmts {
        put_stmt(alloc, out, stmt, margin)?;
    }
    Ok(())
}
