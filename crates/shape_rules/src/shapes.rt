// What the rules ask of maps, sets and types, whatever is in scope.
ghost use Rattle.std.specs.Prelude.{◌≡◌, ◌≤◌, ◌<◌, pos, true, IfOk, IfSome, IfNone, min, length, nat_eq, ◌+◌, ◌*◌};
ghost use Rattle.std.specs.List.{list_all};
ghost use Rattle.affine_expr.specs.Pure.{has_leaves_below};
ghost use Rattle.affine_ast.specs.Rules.{same_element, same_scalar, same_type, map_fits, set_fits, subscripts_fit, row_has_leaves, bound_fits, results_fit, in_signed_range, casts_between, sizes_positive, rank_within, shape_within, allocates_well, is_loadable};
ghost use Rattle.affine_ast.specs.Sizes.{product, scalar_bits, element_bits};

use affine_ast::{Access, Bound, Element, MemrefType, Name, Pick, Scalar};
use affine_expr::{Constraint, Expr, Set};
use int_ops::CastKind;

/// The bits of an element.
pub fn bits(element: Element) -> u32
    ensures { result ≡ element_bits element }
{
    match element {
        Element::I8 => 8,
        Element::I16 => 16,
        Element::I32 => 32,
        Element::I64 => 64,
    }
}

pub fn same_element(left: Element, right: Element) -> bool
    ensures { result ≡ same_element left right }
{
    bits(left) == bits(right)
}

pub fn same_scalar(left: Scalar, right: Scalar) -> bool
    ensures { result ≡ same_scalar left right }
{
    match (left, right) {
        (Scalar::Int(left), Scalar::Int(right)) => same_element(left, right),
        (Scalar::Index, Scalar::Index) => true,
        (Scalar::Int(_), Scalar::Index) => false,
        (Scalar::Index, Scalar::Int(_)) => false,
    }
}

#[tactic(auto, unfolding(affine_ast::specs::Rules::same_type))]
pub fn same_type(left: &MemrefType, right: &MemrefType) -> bool
    ensures { result ≡ same_type left.now right.now }
{
    left.sizes.as_slice() == right.sizes.as_slice()
        && same_element(left.element, right.element)
        && left.space == right.space
}

#[tactic(auto, using(crate::proofs::PurityLaws::leaves))]
pub fn has_leaves_below(expr: &Expr, dims: u32, syms: u32) -> bool
    ensures { result ≡ has_leaves_below dims syms expr.now }
{
    match expr {
        Expr::Dim(number) => *number < dims,
        Expr::Sym(number) => *number < syms,
        Expr::Const(_) => true,
        Expr::Neg(part) => has_leaves_below(part.get(), dims, syms),
        Expr::Add(left, right) => {
            has_leaves_below(left.get(), dims, syms) && has_leaves_below(right.get(), dims, syms)
        }
        Expr::Sub(left, right) => {
            has_leaves_below(left.get(), dims, syms) && has_leaves_below(right.get(), dims, syms)
        }
        Expr::Mul(left, right) => {
            has_leaves_below(left.get(), dims, syms) && has_leaves_below(right.get(), dims, syms)
        }
        Expr::FloorDiv(left, right) => {
            has_leaves_below(left.get(), dims, syms) && has_leaves_below(right.get(), dims, syms)
        }
        Expr::CeilDiv(left, right) => {
            has_leaves_below(left.get(), dims, syms) && has_leaves_below(right.get(), dims, syms)
        }
        Expr::Mod(left, right) => {
            has_leaves_below(left.get(), dims, syms) && has_leaves_below(right.get(), dims, syms)
        }
    }
}

fn have_leaves_below(exprs: &[Expr], dims: u32, syms: u32) -> bool
    ensures { result ≡ list_all (has_leaves_below dims syms) exprs.now }
{
    for expr in exprs {
        if !has_leaves_below(expr, dims, syms) {
            return false;
        }
    }
    true
}

fn rows_have_leaves(rows: &[Constraint], dims: u32, syms: u32) -> bool
    ensures { result ≡ list_all (row_has_leaves dims syms) rows.now }
{
    for row in rows {
        if !(has_leaves_below(&row.left, dims, syms) && has_leaves_below(&row.right, dims, syms)) {
            return false;
        }
    }
    true
}

/// Whether operands are as many as the parameters.
fn as_many(operands: &[Name], dims: u32, syms: u32) -> bool
    ensures { result ≡ nat_eq (length operands.now) (dims + syms) }
{
    operands.len() as u64 == dims as u64 + syms as u64
}

#[tactic(auto, unfolding(affine_ast::specs::Rules::map_fits))]
pub fn map_fits(at: &Access) -> bool
    ensures { result ≡ map_fits at.now }
{
    as_many(at.operands.as_slice(), at.map.dims, at.map.syms)
        && have_leaves_below(at.map.results.as_slice(), at.map.dims, at.map.syms)
}

#[tactic(auto, unfolding(affine_ast::specs::Rules::set_fits))]
pub fn set_fits(set: &Set, operands: &[Name]) -> bool
    ensures { result ≡ set_fits set.now operands.now }
{
    as_many(operands, set.dims, set.syms)
        && rows_have_leaves(set.rows.as_slice(), set.dims, set.syms)
}

#[tactic(auto, unfolding(affine_ast::specs::Rules::subscripts_fit))]
pub fn subscripts_fit(at: &Access, ty: &MemrefType) -> bool
    ensures value { result ≡ subscripts_fit at.now ty.now }
    ensures map { result ≡ true → map_fits at.now ≡ true }
{
    map_fits(at) && at.map.results.len() == ty.sizes.len()
}

pub fn bound_fits(bound: &Bound) -> bool
    ensures { result ≡ bound_fits bound.now }
{
    match bound {
        Bound::Int(_) => true,
        Bound::Value(_) => true,
        Bound::Map(at) => map_fits(at) && !at.map.results.is_empty(),
    }
}

pub fn results_fit(pick: Pick, at: &Access) -> bool
    ensures { result ≡ results_fit pick at.now }
{
    match pick {
        Pick::Apply => at.map.results.len() == 1,
        Pick::Min => !at.map.results.is_empty(),
        Pick::Max => !at.map.results.is_empty(),
    }
}

/// Whether a number is in the signed range of its type.
#[tactic(auto, unfolding(affine_ast::specs::Rules::in_signed_range))]
pub fn constant_fits(value: i64, ty: Scalar) -> bool
    ensures { result ≡ in_signed_range (scalar_bits ty) value }
{
    match ty {
        Scalar::Int(Element::I8) => -128 <= value && value < 128,
        Scalar::Int(Element::I16) => -32_768 <= value && value < 32_768,
        Scalar::Int(Element::I32) => -2_147_483_648 <= value && value < 2_147_483_648,
        Scalar::Int(Element::I64) => true,
        Scalar::Index => true,
    }
}

/// Whether a cast goes between these types.
pub fn casts_between(kind: CastKind, from: Scalar, to: Scalar) -> bool
    ensures { result ≡ casts_between kind from to }
{
    match (from, to) {
        (Scalar::Int(from), Scalar::Int(to)) => match kind {
            CastKind::ExtS => bits(from) < bits(to),
            CastKind::ExtU => bits(from) < bits(to),
            CastKind::Trunc => bits(to) < bits(from),
            CastKind::Index => false,
        },
        (Scalar::Int(_), Scalar::Index) => matches!(kind, CastKind::Index),
        (Scalar::Index, Scalar::Int(_)) => matches!(kind, CastKind::Index),
        (Scalar::Index, Scalar::Index) => false,
    }
}

#[tactic(auto, unfolding(affine_ast::specs::Rules::sizes_positive))]
fn sizes_positive(sizes: &[u32]) -> bool
    ensures { result ≡ sizes_positive sizes.now }
{
    for size in sizes {
        if *size < 1 {
            return false;
        }
    }
    true
}

fn rank_within(space: u8, rank: usize) -> bool
    ensures { result ≡ rank_within space rank }
{
    if space == 0 {
        rank <= 6
    } else if space == 1 {
        1 <= rank && rank <= 7
    } else {
        rank == 1
    }
}

/// Whether the sizes are at least 1, and the rank is one that the space has.
#[tactic(auto, unfolding(affine_ast::specs::Rules::shape_within))]
pub fn shape_within(ty: &MemrefType) -> bool
    ensures { result ≡ shape_within ty.now }
{
    sizes_positive(ty.sizes.as_slice()) && rank_within(ty.space, ty.sizes.len())
}

/// Whether an allocation is in space 1, or of tags in space 2.
pub fn allocates_well(ty: &MemrefType) -> bool
    ensures { result ≡ allocates_well ty.now }
{
    ty.space == 1 || (ty.space == 2 && same_element(ty.element, Element::I32))
}

pub fn is_loadable(ty: &MemrefType) -> bool
    ensures { result ≡ is_loadable ty.now }
{
    ty.space <= 1
}

/// A product that counts no further than one past 2^24.
fn times(elements: u32, size: u32) -> u32
    requires { elements ≤ 16777217 }
    ensures { result ≡ min (elements * size) 16777217 }
{
    (elements as u64 * size as u64).min(16_777_217) as u32
}

/// The elements of sizes that are at least 1, or one past 2^24 where they are more.
pub fn elements(sizes: &[u32]) -> u32
    requires { sizes_positive sizes.now ≡ true }
    ensures { result ≡ min (product sizes.now) 16777217 }
{
    let mut elements = 1;
    for size in sizes {
        elements = times(elements, *size);
    }
    elements
}
