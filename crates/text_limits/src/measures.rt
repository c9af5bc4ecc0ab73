// The operands of the parts of a statement, and whether these keep to the limits of an expression, a map and a set.
ghost use Rattle.std.specs.Prelude.{◌≡◌, ◌+◌, ◌&&◌, ◌∷◌, [], suc, max, true, nat_le, sum_by};
ghost use Rattle.std.specs.List.{list_all};
ghost use Rattle.affine_ast.specs.Nest.{plain_of};
ghost use Rattle.affine_ast.specs.Parts.{maps_of};
ghost use Rattle.affine_ast.specs.PlainLimits.{operand_count, depths, sum_depths, product_depths, literal_depths};
ghost use Rattle.plan_laws.specs.Limits.{expression_fits, access_fits, bound_fits, row_fits, rows_fit, map_operands, bound_operands, row_operands};
ghost use Rattle.text_limits.specs.Capped.{capped, depth_at, measured, with_measure};
ghost use Rattle.text_limits.specs.Sums.{plain_fits};

use affine_ast::{Access, Bound, What};
use affine_expr::{Constraint, Expr};
use shape_rules::shape_within;

/// Where an expression stands: alone or as the left side of a sum, where a product may stand, where only what binds more strongly may,
/// and behind a `-`.
#[derive(Clone, Copy)]
enum Place {
    Sum,
    Product,
    Unary,
    Negated,
}

/// The operands of a part of a statement, and whether it keeps to its own limits.
#[derive(Clone, Copy)]
pub(crate) struct Measure {
    pub operands: u64,
    pub fits: bool,
}

// ---- expressions

fn sum(left: u64, right: u64) -> u64
    ensures { result ≡ capped (left + right) }
{
    left.saturating_add(right)
}

#[tactic(auto, using(affine_ast::proofs::PlainLaws::counts))]
fn operands(expr: &Expr) -> u64
    ensures { result ≡ capped (operand_count expr.now) }
{
    match expr {
        Expr::Dim(_) => 1,
        Expr::Sym(_) => 1,
        Expr::Const(_) => 1,
        Expr::Neg(part) => operands(part.get()),
        Expr::Add(left, right) => sum(operands(left.get()), operands(right.get())),
        Expr::Sub(left, right) => sum(operands(left.get()), operands(right.get())),
        Expr::Mul(left, right) => sum(operands(left.get()), operands(right.get())),
        Expr::FloorDiv(left, right) => sum(operands(left.get()), operands(right.get())),
        Expr::CeilDiv(left, right) => sum(operands(left.get()), operands(right.get())),
        Expr::Mod(left, right) => sum(operands(left.get()), operands(right.get())),
    }
}

fn deeper(depth: u64) -> u64
    ensures { result ≡ capped (suc depth) }
{
    depth.saturating_add(1)
}

/// A literal that isn't negative has parentheses behind a `-`.
fn literal_depth(value: i64, place: Place) -> u64
    ensures { result ≡ depth_at place (literal_depths value) }
{
    match place {
        Place::Negated => { if value < 0 { 0 } else { 1 } }
        Place::Sum => 0,
        Place::Product => 0,
        Place::Unary => 0,
    }
}

/// A sum has parentheses wherever a product may stand.
fn depth_of_sum(left: u64, right: u64, place: Place) -> u64
    ensures { result ≡ capped (depth_at place (sum_depths (max left right))) }
{
    let depth = left.max(right);
    match place {
        Place::Sum => depth,
        Place::Product => deeper(depth),
        Place::Unary => deeper(depth),
        Place::Negated => deeper(depth),
    }
}

fn depth_of_product(left: u64, right: u64, place: Place) -> u64
    ensures { result ≡ capped (depth_at place (product_depths (max left right))) }
{
    let depth = left.max(right);
    match place {
        Place::Sum => depth,
        Place::Product => depth,
        Place::Unary => deeper(depth),
        Place::Negated => deeper(depth),
    }
}

/// The parentheses and negations inside one another in the printed spelling of an expression at this place.
#[tactic(auto, using(affine_ast::proofs::PlainLaws::depth_laws))]
fn depth(expr: &Expr, place: Place) -> u64
    ensures { result ≡ capped (depth_at place (depths expr.now)) }
{
    match expr {
        Expr::Dim(_) => 0,
        Expr::Sym(_) => 0,
        Expr::Const(value) => literal_depth(*value, place),
        Expr::Neg(part) => deeper(depth(part.get(), Place::Negated)),
        Expr::Add(left, right) => depth_of_sum(
            depth(left.get(), Place::Sum),
            depth(right.get(), Place::Product),
            place,
        ),
        Expr::Sub(left, right) => depth_of_sum(
            depth(left.get(), Place::Sum),
            depth(right.get(), Place::Product),
            place,
        ),
        Expr::Mul(left, right) => depth_of_product(
            depth(left.get(), Place::Product),
            depth(right.get(), Place::Unary),
            place,
        ),
        Expr::FloorDiv(left, right) => depth_of_product(
            depth(left.get(), Place::Product),
            depth(right.get(), Place::Unary),
            place,
        ),
        Expr::CeilDiv(left, right) => depth_of_product(
            depth(left.get(), Place::Product),
            depth(right.get(), Place::Unary),
            place,
        ),
        Expr::Mod(left, right) => depth_of_product(
            depth(left.get(), Place::Product),
            depth(right.get(), Place::Unary),
            place,
        ),
    }
}

// ---- measures

impl Measure {
    /// Of nothing.
    pub(crate) fn none() -> Measure
        ensures { result ≡ measured 0 true }
    {
        Measure {
            operands: 0,
            fits: true,
        }
    }

    /// Of two parts.
    pub(crate) fn and(self, other: Measure) -> Measure
        ensures { result ≡ with_measure self other }
    {
        Measure {
            operands: sum(self.operands, other.operands),
            fits: self.fits && other.fits,
        }
    }

    /// Where it keeps to another limit besides.
    pub(crate) fn limited(self, keeps: bool) -> Measure
        ensures { result ≡ record { operands = self.operands; fits = keeps && self.fits } }
    {
        Measure {
            operands: self.operands,
            fits: keeps && self.fits,
        }
    }
}

fn of_expression(expr: &Expr) -> Measure
    ensures { result ≡ measured (operand_count expr.now) (expression_fits expr.now) }
{
    let count = operands(expr);
    Measure {
        operands: count,
        fits: count <= 256 && depth(expr, Place::Sum) <= 128,
    }
}

/// Of an expression with so many operands more, which alone are counted.
pub(crate) fn of_more(expr: &Expr, more: u64) -> Measure
    ensures { result ≡ record { operands = more; fits = nat_le (operand_count expr.now + more) 256 && nat_le (depths expr.now).sum 128 } }
{
    let count = sum(operands(expr), more);
    Measure {
        operands: more,
        fits: count <= 256 && depth(expr, Place::Sum) <= 128,
    }
}

fn of_expressions(exprs: &[Expr]) -> Measure
    ensures { result ≡ measured (sum_by operand_count exprs.now) (list_all expression_fits exprs.now) }
{
    let mut measure = Measure::none();
    for expr in exprs {
        measure = measure.and(of_expression(expr));
    }
    measure
}

/// A map has at most 8 results.
pub(crate) fn of_access(at: &Access) -> Measure
    ensures { result ≡ measured (map_operands at.now) (access_fits at.now) }
{
    let results = at.map.results.as_slice();
    of_expressions(results).limited(results.len() <= 8)
}

pub(crate) fn of_bound(bound: &Bound) -> Measure
    ensures { result ≡ measured (bound_operands bound.now) (bound_fits bound.now) }
{
    match bound {
        Bound::Int(_) => Measure::none(),
        Bound::Value(_) => Measure::none(),
        Bound::Map(at) => of_access(at),
    }
}

fn of_row(row: &Constraint) -> Measure
    ensures { result ≡ measured (row_operands row.now) (row_fits row.now) }
{
    of_expression(&row.left).and(of_expression(&row.right))
}

fn of_each_row(rows: &[Constraint]) -> Measure
    ensures { result ≡ measured (sum_by row_operands rows.now) (list_all row_fits rows.now) }
{
    let mut measure = Measure::none();
    for row in rows {
        measure = measure.and(of_row(row));
    }
    measure
}

/// A set has at most 16 rows.
pub(crate) fn of_rows(rows: &[Constraint]) -> Measure
    ensures { result ≡ measured (sum_by row_operands rows.now) (rows_fit rows.now) }
{
    of_each_row(rows).limited(rows.len() <= 16)
}

fn of_ends(from: &Access, to: &Access, tag: &Access) -> Measure
    ensures { result ≡ measured (sum_by map_operands (from.now ∷ to.now ∷ tag.now ∷ [])) (list_all access_fits (from.now ∷ to.now ∷ tag.now ∷ [])) }
{
    of_access(from).and(of_access(to)).and(of_access(tag))
}

/// Of a statement without a region.
#[tactic(auto, using(affine_ast::proofs::Nests::plains))]
pub(crate) fn of_plain(what: &What) -> Measure
    ensures { result ≡ measured (sum_by map_operands (maps_of (plain_of what.now))) (plain_fits (plain_of what.now)) }
{
    match what {
        What::Value { at, .. } => of_access(at),
        What::Load { at, .. } => of_access(at),
        What::Store { at, .. } => of_access(at),
        What::Alloc { ty, .. } => Measure::none().limited(shape_within(ty)),
        What::Start {
            from_at,
            to_at,
            tag_at,
            ..
        } => of_ends(from_at, to_at, tag_at),
        What::Wait { tag_at, .. } => of_access(tag_at),
        _ => Measure::none(),
    }
}
