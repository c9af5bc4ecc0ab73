// Regions are numbered.
ghost use Rattle.std.specs.Prelude.{◌≡◌, [], ◌∷◌, IfOk};
ghost use Rattle.affine_ast.specs.Nest as named;
ghost use Rattle.walk_program.specs.Numbering.{NumbersNest, NumbersRegion};
ghost use Rattle.walk_program.specs.Tree as tree;

use crate::numbering::Numbering;
use crate::plain::Plain;
use crate::plains::{
    number_alloc, number_binary, number_cast, number_constant, number_dealloc, number_load,
    number_raw_load, number_raw_store, number_start, number_store, number_value, number_wait,
};
use crate::statement::{Counts, Form, Statement};
use affine_ast::{Bound, Name, Stmt, What};
use affine_expr::Set;
use sqlite_items::Items;
use std::alloc::{AllocError, Global};

/// The statements of a region, and what is allocated in it.
#[derive(Drop)]
pub(crate) struct Region {
    pub(crate) statements: Items<Statement>,
    pub(crate) inside: Counts,
}

/// A plain statement at its line.
fn does(line: u32, plain: Plain) -> Statement
    ensures line { result.line ≡ line }
    ensures form { result.form ≡ Form.Plain plain }
{
    Statement {
        line,
        form: Form::Plain(plain),
    }
}

/// A condition at its line.
fn condition(
    line: u32,
    set: Set,
    operands: Items<u32>,
    first: Region,
    other: Option<Items<Statement>>,
    other_inside: Counts,
) -> Statement
    ensures line { result.line ≡ line }
    ensures form { result.form ≡ Form.If set operands first.statements first.inside other other_inside }
{
    Statement {
        line,
        form: Form::If {
            set,
            operands,
            first: first.statements,
            first_inside: first.inside,
            other,
            other_inside,
        },
    }
}

#[cycle(regions)]
fn number_loop<'a>(
    numbering: &mut Numbering<'a>,
    alloc: Global,
    line: u32,
    var: &'a Name,
    lower: &'a Bound,
    upper: &'a Bound,
    step: i64,
    body: &'a [Stmt],
) -> Result<Statement, AllocError>
    ensures { IfOk result (λ s. NumbersNest (tree.tree (s ∷ []))
        (named.Loop line var.now lower.now upper.now step
        (named.nest body.now) named.Nothing) numbering.old numbering.new) }
{
    let var = numbering.number(var)?;
    let lower = numbering.limit(alloc, lower)?;
    let upper = numbering.limit(alloc, upper)?;
    let body = number_region(numbering, alloc, body)?;
    Ok(Statement {
        line,
        form: Form::For {
            var,
            lower,
            upper,
            step,
            inside: body.inside,
            body: body.statements,
        },
    })
}

#[cycle(regions)]
fn number_statement<'a>(
    numbering: &mut Numbering<'a>,
    alloc: Global,
    stmt: &'a Stmt,
) -> Result<Statement, AllocError>
    ensures { IfOk result (λ s. NumbersNest (tree.tree (s ∷ []))
        (named.nest (stmt.now ∷ [])) numbering.old numbering.new) }
{
    let line = stmt.line;
    match &stmt.what {
        What::For {
            var,
            lower,
            upper,
            step,
            body,
        } => number_loop(
            numbering,
            alloc,
            line,
            var,
            lower,
            upper,
            *step,
            body.as_slice(),
        ),
        What::If {
            set,
            operands,
            first,
            other,
        } => {
            let set = set.copy(alloc)?;
            let operands = numbering.operands(alloc, operands.as_slice())?;
            let first = number_region(numbering, alloc, first.as_slice())?;
            match other {
                None => Ok(condition(line, set, operands, first, None, Counts::none())),
                Some(other) => {
                    let other = number_region(numbering, alloc, other.as_slice())?;
                    Ok(condition(
                        line,
                        set,
                        operands,
                        first,
                        Some(other.statements),
                        other.inside,
                    ))
                }
            }
        }
        What::Value { result, pick, at } => {
            Ok(does(line, number_value(numbering, alloc, result, *pick, at)?))
        }
        What::Load {
            result,
            memref,
            at,
            ty,
        } => Ok(does(line, number_load(numbering, alloc, result, memref, at, ty)?)),
        What::Store {
            value,
            memref,
            at,
            ty,
        } => Ok(does(line, number_store(numbering, alloc, value, memref, at, ty)?)),
        What::RawLoad {
            result,
            memref,
            at,
            ty,
        } => Ok(does(
            line,
            number_raw_load(numbering, alloc, result, memref, at.as_slice(), ty)?,
        )),
        What::RawStore {
            value,
            memref,
            at,
            ty,
        } => Ok(does(
            line,
            number_raw_store(numbering, alloc, value, memref, at.as_slice(), ty)?,
        )),
        What::Constant { result, value, ty } => Ok(does(
            line,
            number_constant(numbering, result, *value, *ty)?,
        )),
        What::Binary {
            result,
            op,
            left,
            right,
            ty,
        } => Ok(does(
            line,
            number_binary(numbering, result, *op, left, right, *ty)?,
        )),
        What::Cast {
            result,
            kind,
            value,
            from,
            to,
        } => Ok(does(
            line,
            number_cast(numbering, result, *kind, value, *from, *to)?,
        )),
        What::Alloc { result, ty } => Ok(does(line, number_alloc(numbering, alloc, result, ty)?)),
        What::Dealloc { memref, ty } => {
            Ok(does(line, number_dealloc(numbering, alloc, memref, ty)?))
        }
        What::Start {
            from,
            from_at,
            to,
            to_at,
            tag,
            tag_at,
            count,
            stride,
            types,
        } => Ok(does(
            line,
            number_start(
                numbering, alloc, from, from_at, to, to_at, tag, tag_at, count, stride, types,
            )?,
        )),
        What::Wait {
            tag,
            tag_at,
            count,
            ty,
        } => Ok(does(line, number_wait(numbering, alloc, tag, tag_at, count, ty)?)),
        What::Return => Ok(does(line, Plain::Return)),
    }
}

/// The statements of a region with numbers for names, in order.
#[cycle(regions)]
pub(crate) fn number_region<'a>(
    numbering: &mut Numbering<'a>,
    alloc: Global,
    stmts: &'a [Stmt],
) -> Result<Region, AllocError>
    ensures { IfOk result (λ r. NumbersRegion r.statements r.inside
        (named.nest stmts.now) numbering.old numbering.new) }
{
    let mut statements = Items::new(alloc);
    let mut inside = Counts::none();
    for stmt in stmts {
        let statement = number_statement(numbering, alloc, stmt)?;
        inside = inside.and(statement.counts()?)?;
        statements.push(statement)?;
    }
    Ok(Region { statements, inside })
}
