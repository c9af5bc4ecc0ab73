// Affine expressions.
ghost use Rattle.std.specs.Prelude.{◌≡◌, ◌++◌, OnOk, codes, slice_get};
ghost use Rattle.affine_ast.specs.Spelling.{operand_text, as_literal, as_sum, as_product, sum_text, product_text, texts, listed, expression_text};
ghost use Rattle.affine_print.specs.Places.{leaves_of, text_at};

use crate::piece::{put, put_comma, put_name, put_signed, put_unsigned};
use affine_ast::Name;
use affine_expr::Expr;
use std::alloc::{AllocError, Global};

/// How the leaves of an expression are spelled.
#[derive(Clone, Copy)]
pub enum Leaves<'a> {
    /// `d0` and `s0`, as in a map or set.
    Numbered,
    /// The operands' names, as in subscripts: the dimensions first, the symbols as `symbol(%n)`.
    Named { operands: &'a [Name], dims: u32 },
}

/// What may stand at a place without parentheses.
#[derive(Clone, Copy)]
pub enum Place {
    /// Everything.
    Sum,
    /// What binds as strongly as a product.
    Product,
    /// What binds more strongly than a product.
    Unary,
    /// Behind a `-`, where digits would join it to an integer.
    Negated,
}

/// The operand of this number, where there is one.
#[tactic(auto, unfolding(affine_ast::specs::Spelling::operand_text))]
fn put_operand(out: &mut Vec<u8>, operands: &[Name], number: usize) -> Result<(), AllocError>
    ensures { OnOk result (out.new.items ≡ out.old.items ++ operand_text (slice_get operands.now number)) }
{
    match operands.get(number) {
        Some(name) => put_name(out, name),
        None => Ok(()),
    }
}

fn put_dimension(
    alloc: Global,
    out: &mut Vec<u8>,
    leaves: Leaves<'_>,
    number: u32,
) -> Result<(), AllocError>
    ensures { OnOk result (out.new.items ≡ out.old.items ++ (leaves_of leaves.entry).dimension number) }
{
    match leaves {
        Leaves::Numbered => {
            put(out, b"d")?;
            put_unsigned(alloc, out, number)
        }
        Leaves::Named { operands, dims: _ } => put_operand(out, operands, number as usize),
    }
}

fn put_symbol(
    alloc: Global,
    out: &mut Vec<u8>,
    leaves: Leaves<'_>,
    number: u32,
) -> Result<(), AllocError>
    ensures { OnOk result (out.new.items ≡ out.old.items ++ (leaves_of leaves.entry).symbol number) }
{
    match leaves {
        Leaves::Numbered => {
            put(out, b"s")?;
            put_unsigned(alloc, out, number)
        }
        Leaves::Named { operands, dims } => {
            put(out, b"symbol(")?;
            put_operand(out, operands, dims as usize + number as usize)?;
            put(out, b")")
        }
    }
}

fn put_literal(alloc: Global, out: &mut Vec<u8>, value: i64, place: Place) -> Result<(), AllocError>
    ensures { OnOk result (out.new.items ≡ out.old.items ++ text_at place (as_literal value)) }
{
    if value >= 0 && matches!(place, Place::Negated) {
        put(out, b"(")?;
        put_signed(alloc, out, value)?;
        put(out, b")")
    } else {
        put_signed(alloc, out, value)
    }
}

/// A sum or a difference without parentheses round it.
#[cycle(expressions)]
#[tactic(auto, unfolding(affine_ast::specs::Spelling::sum_text))]
fn put_sum(
    alloc: Global,
    out: &mut Vec<u8>,
    leaves: Leaves<'_>,
    left: &Expr,
    sign: &[u8],
    right: &Expr,
) -> Result<(), AllocError>
    ensures { OnOk result (out.new.items ≡ out.old.items ++ sum_text (texts (leaves_of leaves.entry) left.now) sign.now (texts (leaves_of leaves.entry) right.now)) }
{
    put_expr(alloc, out, leaves, left, Place::Sum)?;
    put(out, sign)?;
    put_expr(alloc, out, leaves, right, Place::Product)
}

#[cycle(expressions)]
fn put_sum_at(
    alloc: Global,
    out: &mut Vec<u8>,
    leaves: Leaves<'_>,
    left: &Expr,
    sign: &[u8],
    right: &Expr,
    place: Place,
) -> Result<(), AllocError>
    ensures { OnOk result (out.new.items ≡ out.old.items ++ text_at place (as_sum (sum_text (texts (leaves_of leaves.entry) left.now) sign.now (texts (leaves_of leaves.entry) right.now)))) }
{
    match place {
        Place::Sum => put_sum(alloc, out, leaves, left, sign, right),
        Place::Product | Place::Unary | Place::Negated => {
            put(out, b"(")?;
            put_sum(alloc, out, leaves, left, sign, right)?;
            put(out, b")")
        }
    }
}

/// A product or a division without parentheses round it.
#[cycle(expressions)]
#[tactic(auto, unfolding(affine_ast::specs::Spelling::product_text))]
fn put_product(
    alloc: Global,
    out: &mut Vec<u8>,
    leaves: Leaves<'_>,
    left: &Expr,
    sign: &[u8],
    right: &Expr,
) -> Result<(), AllocError>
    ensures { OnOk result (out.new.items ≡ out.old.items ++ product_text (texts (leaves_of leaves.entry) left.now) sign.now (texts (leaves_of leaves.entry) right.now)) }
{
    put_expr(alloc, out, leaves, left, Place::Product)?;
    put(out, sign)?;
    put_expr(alloc, out, leaves, right, Place::Unary)
}

#[cycle(expressions)]
fn put_product_at(
    alloc: Global,
    out: &mut Vec<u8>,
    leaves: Leaves<'_>,
    left: &Expr,
    sign: &[u8],
    right: &Expr,
    place: Place,
) -> Result<(), AllocError>
    ensures { OnOk result (out.new.items ≡ out.old.items ++ text_at place (as_product (product_text (texts (leaves_of leaves.entry) left.now) sign.now (texts (leaves_of leaves.entry) right.now)))) }
{
    match place {
        Place::Sum | Place::Product => put_product(alloc, out, leaves, left, sign, right),
        Place::Unary | Place::Negated => {
            put(out, b"(")?;
            put_product(alloc, out, leaves, left, sign, right)?;
            put(out, b")")
        }
    }
}

/// A negation: it needs no parentheses anywhere.
#[cycle(expressions)]
fn put_negation(
    alloc: Global,
    out: &mut Vec<u8>,
    leaves: Leaves<'_>,
    part: &Expr,
) -> Result<(), AllocError>
    ensures { OnOk result (out.new.items ≡ out.old.items ++ (codes "-" ++ (texts (leaves_of leaves.entry) part.now).negated)) }
{
    put(out, b"-")?;
    put_expr(alloc, out, leaves, part, Place::Negated)
}

/// An expression at a place, with no more parentheses than its tree needs.
#[cycle(expressions)]
#[tactic(auto, using(affine_ast::proofs::Spellings::expression_texts, crate::proofs::Pieces::unary_at))]
fn put_expr(
    alloc: Global,
    out: &mut Vec<u8>,
    leaves: Leaves<'_>,
    expr: &Expr,
    place: Place,
) -> Result<(), AllocError>
    ensures { OnOk result (out.new.items ≡ out.old.items ++ text_at place (texts (leaves_of leaves.entry) expr.now)) }
{
    match expr {
        Expr::Dim(number) => put_dimension(alloc, out, leaves, *number),
        Expr::Sym(number) => put_symbol(alloc, out, leaves, *number),
        Expr::Const(value) => put_literal(alloc, out, *value, place),
        Expr::Neg(part) => put_negation(alloc, out, leaves, part.get()),
        Expr::Add(left, right) => {
            put_sum_at(alloc, out, leaves, left.get(), b" + ", right.get(), place)
        }
        Expr::Sub(left, right) => {
            put_sum_at(alloc, out, leaves, left.get(), b" - ", right.get(), place)
        }
        Expr::Mul(left, right) => {
            put_product_at(alloc, out, leaves, left.get(), b" * ", right.get(), place)
        }
        Expr::FloorDiv(left, right) => {
            put_product_at(
                alloc,
                out,
                leaves,
                left.get(),
                b" floordiv ",
                right.get(),
                place,
            )
        }
        Expr::CeilDiv(left, right) => {
            put_product_at(
                alloc,
                out,
                leaves,
                left.get(),
                b" ceildiv ",
                right.get(),
                place,
            )
        }
        Expr::Mod(left, right) => {
            put_product_at(alloc, out, leaves, left.get(), b" mod ", right.get(), place)
        }
    }
}

/// An expression by itself.
#[tactic(auto, unfolding(affine_ast::specs::Spelling::expression_text))]
pub fn put_expression(
    alloc: Global,
    out: &mut Vec<u8>,
    leaves: Leaves<'_>,
    expr: &Expr,
) -> Result<(), AllocError>
    ensures { OnOk result (out.new.items ≡ out.old.items ++ expression_text (leaves_of leaves.entry) expr.now) }
{
    put_expr(alloc, out, leaves, expr, Place::Sum)
}

/// Expressions, parted by commas.
pub fn put_expressions(
    alloc: Global,
    out: &mut Vec<u8>,
    leaves: Leaves<'_>,
    exprs: &[Expr],
) -> Result<(), AllocError>
    ensures { OnOk result (out.new.items ≡ out.old.items ++ listed (expression_text (leaves_of leaves.entry)) exprs.now) }
{
    for (place, expr) in exprs.iter().enumerate() {
        put_comma(out, place)?;
        put_expression(alloc, out, leaves, expr)?;
    }
    Ok(())
}
