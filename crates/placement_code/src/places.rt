// Where the box of a placement begins.
ghost use Rattle.std.specs.Prelude.{◌≡◌, ◌<◌, ◌+◌, length, map, IfOk, [], ◌∷◌, ◌^◌, if◌then◌else◌};
ghost use Rattle.affine_expr.specs.declared.expr.Expr.{Const};
ghost use Rattle.made_names.specs.Made.{made_name};
ghost use Rattle.placement_texts.specs.Template.{term_names, join_terms, form, over_terms, last_place, clamp, value_or_zero, place_name, least_name};
ghost use Rattle.valid_laws.specs.Safe.{IsSmall};
ghost use Rattle.placement_code.specs.Small.{AreSmall, AreWell};
ghost use Rattle.placement_lists.specs.Statements.{made, place_statements, places_from};
ghost use Rattle.affine_ast.specs.declared.stmt.What as what;
ghost use Rattle.affine_ast.specs.declared.types.Pick.TheVariants.{Apply, Min, Max};

use crate::placement::Dimension;
use crate::sums::{first_term, joined, with_number};
use affine_ast::{Access, Name, Pick, Stmt, What};
use affine_expr::{Expr, Map};
use made_names::made_name;
use sqlite_items::Items;
use std::alloc::{AllocError, Global};

/// A sum with further terms, from this dimension on.
fn with_terms(alloc: Global, first: Expr, terms: &[(Name, i64)]) -> Result<Expr, AllocError>
    requires terms { AreSmall terms.now }
    requires few { length terms.now < 2 ^ 31 }
    ensures { IfOk result (λ sum. sum ≡ join_terms first 1 terms.now) }
{
    let mut sum = first;
    let mut dim = 1;
    for term in terms {
        sum = joined(alloc, sum, dim, term.1)?;
        dim += 1;
    }
    Ok(sum)
}

/// The terms in order, and then the offset.
fn form(alloc: Global, terms: &[(Name, i64)], offset: i64) -> Result<Expr, AllocError>
    requires terms { AreSmall terms.now }
    requires few { length terms.now < 2 ^ 31 }
    requires offset { IsSmall offset }
    ensures { IfOk result (λ sum. sum ≡ form terms.now offset) }
{
    let Some((term, more)) = terms.split_first() else {
        return Ok(Expr::Const(offset));
    };
    let first = first_term(alloc, term.1)?;
    with_number(alloc, with_terms(alloc, first, more)?, offset)
}

/// The names of the terms' values.
pub(crate) fn names_of(alloc: Global, terms: &[(Name, i64)]) -> Result<Items<Name>, AllocError>
    ensures { IfOk result (λ names. names ≡ term_names terms.now) }
{
    let mut names = Items::new(alloc);
    for term in terms {
        names.push(term.0.copy(alloc)?)?;
    }
    Ok(names)
}

/// A map over the terms' values.
fn over(alloc: Global, terms: &[(Name, i64)], results: Items<Expr>) -> Result<Access, AllocError>
    requires few { length terms.now < 2 ^ 31 }
    ensures { IfOk result (λ at. at ≡ over_terms terms.now results) }
{
    Ok(Access {
        map: Map {
            dims: terms.len() as u32,
            syms: 0,
            results,
        },
        operands: names_of(alloc, terms)?,
    })
}

/// The greatest place at which the box lies in the memref.
fn last_place(dim: &Dimension) -> i64
    ensures { result ≡ last_place dim.now }
{
    dim.size as i64 - dim.extent as i64
}

/// A place where there is no term.
pub(crate) fn fixed(dim: &Dimension) -> i64
    ensures { result ≡ (if dim.now.clamped then clamp dim.now dim.now.offset else dim.now.offset) }
{
    if dim.clamped {
        dim.offset.min(last_place(dim)).max(0)
    } else {
        dim.offset
    }
}

/// `affine_map<(d0) -> (d0, 0)>` of a value.
fn value_or_zero(alloc: Global, name: &Name) -> Result<Access, AllocError>
    ensures { IfOk result (λ at. at ≡ value_or_zero name.now) }
{
    let mut results = Items::new(alloc);
    results.push(Expr::Dim(0))?;
    results.push(Expr::Const(0))?;
    let mut operands = Items::new(alloc);
    operands.push(name.copy(alloc)?)?;
    Ok(Access {
        map: Map {
            dims: 1,
            syms: 0,
            results,
        },
        operands,
    })
}

/// A made statement has line 0.
pub(crate) fn statement(what: What) -> Stmt
    ensures { result ≡ made what }
{
    Stmt { line: 0, what }
}

/// `affine.min` of the form and the greatest place.
fn least_of(alloc: Global, number: u32, k: u32, dim: &Dimension) -> Result<Stmt, AllocError>
    requires number { number < 262144 }
    requires k { k < 7 }
    requires terms { AreSmall dim.now.terms }
    requires few { length dim.now.terms < 2 ^ 31 }
    requires offset { IsSmall dim.now.offset }
    ensures { IfOk result (λ stmt. stmt ≡ made (what.Value (least_name (made_name number) k) Min (over_terms dim.now.terms (form dim.now.terms dim.now.offset ∷ Const (last_place dim.now) ∷ [])))) }
{
    let terms = dim.terms.as_slice();
    let mut results = Items::new(alloc);
    results.push(form(alloc, terms, dim.offset)?)?;
    results.push(Expr::Const(last_place(dim)))?;
    Ok(statement(What::Value {
        result: made_name(alloc, number, 8 + 4 * k)?,
        pick: Pick::Min,
        at: over(alloc, terms, results)?,
    }))
}

/// `affine.max` of that and 0.
fn raised(alloc: Global, number: u32, k: u32) -> Result<Stmt, AllocError>
    requires number { number < 262144 }
    requires k { k < 7 }
    ensures { IfOk result (λ stmt. stmt ≡ made (what.Value (place_name (made_name number) k) Max (value_or_zero (least_name (made_name number) k)))) }
{
    let least = made_name(alloc, number, 8 + 4 * k)?;
    Ok(statement(What::Value {
        result: made_name(alloc, number, 7 + 4 * k)?,
        pick: Pick::Max,
        at: value_or_zero(alloc, &least)?,
    }))
}

/// `affine.apply` of the form.
fn applied(alloc: Global, number: u32, k: u32, dim: &Dimension) -> Result<Stmt, AllocError>
    requires number { number < 262144 }
    requires k { k < 7 }
    requires terms { AreSmall dim.now.terms }
    requires few { length dim.now.terms < 2 ^ 31 }
    requires offset { IsSmall dim.now.offset }
    ensures { IfOk result (λ stmt. stmt ≡ made (what.Value (place_name (made_name number) k) Apply (over_terms dim.now.terms (form dim.now.terms dim.now.offset ∷ [])))) }
{
    let terms = dim.terms.as_slice();
    let mut results = Items::new(alloc);
    results.push(form(alloc, terms, dim.offset)?)?;
    Ok(statement(What::Value {
        result: made_name(alloc, number, 7 + 4 * k)?,
        pick: Pick::Apply,
        at: over(alloc, terms, results)?,
    }))
}

/// The statements that say where the box begins in one dimension.
fn place(alloc: Global, number: u32, k: u32, dim: &Dimension) -> Result<Items<Stmt>, AllocError>
    requires number { number < 262144 }
    requires k { k < 7 }
    requires terms { AreSmall dim.now.terms }
    requires few { length dim.now.terms < 2 ^ 31 }
    requires offset { IsSmall dim.now.offset }
    ensures { IfOk result (λ stmts. stmts ≡ place_statements (made_name number) k dim.now dim.now.terms) }
{
    let mut stmts = Items::new(alloc);
    if dim.terms.as_slice().is_empty() {
        return Ok(stmts);
    }
    if dim.clamped {
        stmts.push(least_of(alloc, number, k, dim)?)?;
        stmts.push(raised(alloc, number, k)?)?;
    } else {
        stmts.push(applied(alloc, number, k, dim)?)?;
    }
    Ok(stmts)
}

/// The statements that say where the box begins.
pub(crate) fn places(
    alloc: Global,
    number: u32,
    dims: &[Dimension],
) -> Result<Items<Stmt>, AllocError>
    requires number { number < 262144 }
    requires dims { AreWell dims.now }
    ensures { IfOk result (λ stmts. stmts ≡ places_from (made_name number) 0 dims.now) }
{
    let mut stmts = Items::new(alloc);
    let mut k = 0;
    for dim in dims {
        stmts.append(place(alloc, number, k, dim)?)?;
        k += 1;
    }
    Ok(stmts)
}
