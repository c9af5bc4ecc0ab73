// The module.
ghost use Rattle.std.specs.Prelude.{◌≡◌, [], ◌∷◌, IfOk};
ghost use Rattle.case_gen.specs.Sample as spec;

use affine_ast::{
    Access, Arg, ArgKind, Bound, Element, MemrefType, Module, Name, Scalar, Stmt, Text, What,
};
use affine_expr::{Expr, Map};
use int_ops::Op;
use sqlite_items::{Boxed, Items};
use std::alloc::{AllocError, Global};

fn named(alloc: Global, text: &str) -> Result<Name, AllocError>
    ensures { IfOk result (λ name. name ≡ spec.named text.now) }
{
    let text = String::from_str(alloc, text)?;
    Ok(Name {
        text: Text::from_string(text),
        made: false,
    })
}

/// The type of a square matrix.
fn matrix(alloc: Global, size: u32) -> Result<MemrefType, AllocError>
    ensures { IfOk result (λ ty. ty ≡ spec.matrix size) }
{
    let mut sizes = Items::new(alloc);
    sizes.push(size)?;
    sizes.push(size)?;
    Ok(MemrefType {
        sizes,
        element: Element::I32,
        space: 0,
    })
}

/// The subscripts of the element at two variables.
fn at(alloc: Global, row: &str, column: &str) -> Result<Access, AllocError>
    ensures { IfOk result (λ at. at ≡ spec.at row.now column.now) }
{
    let mut results = Items::new(alloc);
    results.push(Expr::Dim(0))?;
    results.push(Expr::Dim(1))?;
    let mut operands = Items::new(alloc);
    operands.push(named(alloc, row)?)?;
    operands.push(named(alloc, column)?)?;
    Ok(Access {
        map: Map {
            dims: 2,
            syms: 0,
            results,
        },
        operands,
    })
}

/// A bound that is one expression of one variable.
fn bound(alloc: Global, expr: Expr, tile: &str) -> Result<Bound, AllocError>
    ensures { IfOk result (λ bound. bound ≡ spec.bound_by expr tile.now) }
{
    let mut results = Items::new(alloc);
    results.push(expr)?;
    let mut operands = Items::new(alloc);
    operands.push(named(alloc, tile)?)?;
    Ok(Bound::Map(Access {
        map: Map {
            dims: 1,
            syms: 0,
            results,
        },
        operands,
    }))
}

/// The end of a tile's turns: its first turn and 8.
fn tile_end(alloc: Global) -> Result<Expr, AllocError>
    ensures { IfOk result (λ expr. expr ≡ spec.tile_end) }
{
    let first = Boxed::new(alloc, Expr::Dim(0))?;
    Ok(Expr::Add(first, Boxed::new(alloc, Expr::Const(8))?))
}

/// A loop's body of one statement.
fn alone(alloc: Global, stmt: Stmt) -> Result<Items<Stmt>, AllocError>
    ensures { IfOk result (λ body. body ≡ stmt ∷ []) }
{
    let mut body = Items::new(alloc);
    body.push(stmt)?;
    Ok(body)
}

/// A loop over the tiles.
fn over_tiles(
    alloc: Global,
    size: u32,
    line: u32,
    tile: &str,
    body: Items<Stmt>,
) -> Result<Stmt, AllocError>
    ensures { IfOk result (λ stmt. stmt ≡ spec.over_tiles size line tile.now body) }
{
    let what = What::For {
        var: named(alloc, tile)?,
        lower: Bound::Int(0),
        upper: Bound::Int(size as i64),
        step: 8,
        body,
    };
    Ok(Stmt { line, what })
}

/// A loop over the turns of a tile.
fn within_tile(
    alloc: Global,
    line: u32,
    turn: &str,
    tile: &str,
    body: Items<Stmt>,
) -> Result<Stmt, AllocError>
    ensures { IfOk result (λ stmt. stmt ≡ spec.within_tile line turn.now tile.now body) }
{
    let var = named(alloc, turn)?;
    let lower = bound(alloc, Expr::Dim(0), tile)?;
    let upper = bound(alloc, tile_end(alloc)?, tile)?;
    let what = What::For {
        var,
        lower,
        upper,
        step: 1,
        body,
    };
    Ok(Stmt { line, what })
}

/// A load of the element at two variables.
fn load(
    alloc: Global,
    size: u32,
    line: u32,
    into: &str,
    memref: &str,
    row: &str,
    column: &str,
) -> Result<Stmt, AllocError>
    ensures { IfOk result (λ stmt. stmt ≡ spec.load size line into.now memref.now row.now column.now) }
{
    let what = What::Load {
        result: named(alloc, into)?,
        memref: named(alloc, memref)?,
        at: at(alloc, row, column)?,
        ty: matrix(alloc, size)?,
    };
    Ok(Stmt { line, what })
}

/// A store to the element at two variables.
fn store(
    alloc: Global,
    size: u32,
    line: u32,
    value: &str,
    memref: &str,
    row: &str,
    column: &str,
) -> Result<Stmt, AllocError>
    ensures { IfOk result (λ stmt. stmt ≡ spec.store size line value.now memref.now row.now column.now) }
{
    let what = What::Store {
        value: named(alloc, value)?,
        memref: named(alloc, memref)?,
        at: at(alloc, row, column)?,
        ty: matrix(alloc, size)?,
    };
    Ok(Stmt { line, what })
}

/// An operation of two values of `i32`.
fn operation(
    alloc: Global,
    line: u32,
    into: &str,
    op: Op,
    left: &str,
    right: &str,
) -> Result<Stmt, AllocError>
    ensures { IfOk result (λ stmt. stmt ≡ spec.operation line into.now op left.now right.now) }
{
    let what = What::Binary {
        result: named(alloc, into)?,
        op,
        left: named(alloc, left)?,
        right: named(alloc, right)?,
        ty: Scalar::Int(Element::I32),
    };
    Ok(Stmt { line, what })
}

/// The three loads of a term.
fn loads(alloc: Global, size: u32) -> Result<Items<Stmt>, AllocError>
    ensures { IfOk result (λ stmts. stmts ≡ spec.loads size) }
{
    let mut stmts = Items::new(alloc);
    stmts.push(load(alloc, size, 10, "a", "A", "i", "k")?)?;
    stmts.push(load(alloc, size, 11, "b", "B", "k", "j")?)?;
    stmts.push(load(alloc, size, 12, "c", "C", "i", "j")?)?;
    Ok(stmts)
}

/// What raises an element by the product of two others.
fn term(alloc: Global, size: u32) -> Result<Items<Stmt>, AllocError>
    ensures { IfOk result (λ stmts. stmts ≡ spec.term size) }
{
    let mut stmts = loads(alloc, size)?;
    stmts.push(operation(alloc, 13, "p", Op::Mul, "a", "b")?)?;
    stmts.push(operation(alloc, 14, "s", Op::Add, "c", "p")?)?;
    stmts.push(store(alloc, size, 15, "s", "C", "i", "j")?)?;
    Ok(stmts)
}

/// The loops over the turns of three tiles.
fn turns(alloc: Global, size: u32) -> Result<Items<Stmt>, AllocError>
    ensures { IfOk result (λ stmts. stmts ≡ spec.turns size) }
{
    let body = term(alloc, size)?;
    let terms = within_tile(alloc, 9, "k", "kt", body)?;
    let columns = within_tile(alloc, 8, "j", "jt", alone(alloc, terms)?)?;
    alone(
        alloc,
        within_tile(alloc, 7, "i", "it", alone(alloc, columns)?)?,
    )
}

/// The loops over the tiles.
fn tiles(alloc: Global, size: u32) -> Result<Stmt, AllocError>
    ensures { IfOk result (λ stmt. stmt ≡ spec.tiles size) }
{
    let body = turns(alloc, size)?;
    let terms = over_tiles(alloc, size, 6, "kt", body)?;
    let columns = over_tiles(alloc, size, 5, "jt", alone(alloc, terms)?)?;
    over_tiles(alloc, size, 4, "it", alone(alloc, columns)?)
}

fn argument(alloc: Global, size: u32, name: &str) -> Result<Arg, AllocError>
    ensures { IfOk result (λ arg. arg ≡ spec.argument size name.now) }
{
    Ok(Arg {
        name: named(alloc, name)?,
        kind: ArgKind::Memref(matrix(alloc, size)?),
        line: 3,
    })
}

fn arguments(alloc: Global, size: u32) -> Result<Items<Arg>, AllocError>
    ensures { IfOk result (λ args. args ≡ spec.arguments size) }
{
    let mut args = Items::new(alloc);
    args.push(argument(alloc, size, "A")?)?;
    args.push(argument(alloc, size, "B")?)?;
    args.push(argument(alloc, size, "C")?)?;
    Ok(args)
}

/// The product of two matrices of so many rows and columns.
pub(crate) fn module_of(alloc: Global, size: u32) -> Result<Module, AllocError>
    ensures { IfOk result (λ product. product ≡ spec.product size) }
{
    let name = Text::from_string(String::from_str(alloc, "mm")?);
    let args = arguments(alloc, size)?;
    let mut body = alone(alloc, tiles(alloc, size)?)?;
    body.push(Stmt {
        line: 22,
        what: What::Return,
    })?;
    Ok(Module { name, args, body })
}
