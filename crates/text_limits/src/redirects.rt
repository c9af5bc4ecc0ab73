// What the redirected accesses of a placement add to the sums of a text.
ghost use Rattle.std.specs.Prelude.{◌≡◌, [], ◌∷◌, map, sum_by, IfOk};
ghost use Rattle.std.specs.List.{list_all};
ghost use Rattle.placement_code.specs.Beginnings.{fixed_place};
ghost use Rattle.placement_code.specs.Placed.{placement_of, MayBeWritten};
ghost use Rattle.plan_laws.specs.Limits.{expression_fits};
ghost use Rattle.text_places.specs.Finding.{seen};
ghost use Rattle.text_limits.specs.Adding.{subscripts, operands_more, fits_in_fast, redirected};
ghost use Rattle.text_limits.specs.Capped.{measured, capped_sums};
ghost use Rattle.text_limits.specs.Lessening.{more_one, more_over, fits_one, fits_over};
ghost use Rattle.text_limits.specs.Telling.{told_with};

use crate::measures::{Measure, of_more};
use crate::sums::{Round, Sums, sums_of};
use affine_ast::Access;
use affine_expr::Expr;
use placement_code::{Dimension, Placement, before, behind};
use std::alloc::{AllocError, Global};
use text_places::FoundUse;

/// Where a box begins that has no term.
fn fixed(dim: &Dimension) -> i64
    ensures { result ≡ fixed_place dim.now }
{
    let last = dim.size as i64 - dim.extent as i64;
    if dim.clamped {
        dim.offset.min(last).max(0)
    } else {
        dim.offset
    }
}

/// The operands that a subscript less the place of its dimension has more.
#[tactic(auto, using(placement_code::proofs::Lessened::number_const, placement_code::proofs::Lessened::number_other))]
fn more_one(expr: &Expr, dim: &Dimension) -> u64
    ensures { result ≡ more_one expr.now dim.now }
{
    if !dim.terms.as_slice().is_empty() {
        return 1;
    }
    match expr {
        Expr::Const(_) => 0,
        _ => { if fixed(dim) == 0 { 0 } else { 1 } }
    }
}

fn of_subscript(expr: &Expr, dim: &Dimension) -> Measure
    ensures { result ≡ measured (more_one expr.now dim.now) (fits_one expr.now dim.now) }
{
    of_more(expr, more_one(expr, dim))
}

/// A subscript without a dimension stays.
fn of_stayed(expr: &Expr) -> Measure
    ensures { result ≡ measured 0 (expression_fits expr.now) }
{
    of_more(expr, 0)
}

fn of_subscripts(exprs: &[Expr], dims: &[Dimension]) -> Measure
    ensures { result ≡ measured (more_over exprs.now dims.now) (fits_over exprs.now dims.now) }
{
    let mut measure = Measure::none();
    let mut rest = dims;
    for expr in exprs {
        let Some((dim, more)) = rest.split_first() else {
            measure = measure.and(of_stayed(expr));
            continue;
        };
        measure = measure.and(of_subscript(expr, dim));
        rest = more;
    }
    measure
}

/// The half of the fast memref is a subscript and an operand more.
fn of_redirected(placed: &Placement, at: &Access) -> Measure
    ensures { let p = placement_of placed.now in result ≡ measured (operands_more p at.now) (fits_in_fast p at.now) }
{
    let results = at.map.results.as_slice();
    let half = Measure {
        operands: 1,
        fits: results.len() < 8,
    };
    half.and(of_subscripts(results, placed.dims.as_slice()))
}

fn of_use(placed: &Placement, found: &FoundUse<'_>) -> Measure
    ensures { let p = placement_of placed.now in let ats = subscripts (seen found.now ∷ []) in result ≡ measured (sum_by (operands_more p) ats) (list_all (fits_in_fast p) ats) }
{
    match found {
        FoundUse::Affine { at, .. } => of_redirected(placed, at),
        FoundUse::Other => Measure::none(),
    }
}

fn of_uses(placed: &Placement, uses: &[FoundUse<'_>]) -> Measure
    ensures { let p = placement_of placed.now in let ats = subscripts (map seen uses.now) in result ≡ measured (sum_by (operands_more p) ats) (list_all (fits_in_fast p) ats) }
{
    let mut measure = Measure::none();
    for found in uses {
        measure = measure.and(of_use(placed, found));
    }
    measure
}

impl Sums {
    /// With the uses of a placement's memref redirected to its fast memref.
    pub fn redirected(self, placed: &Placement, uses: &[FoundUse<'_>]) -> Sums
        ensures { result ≡ capped_sums (redirected (placement_of placed.now) (subscripts (map seen uses.now)) self) }
    {
        let measure = of_uses(placed, uses);
        self.plus(Sums {
            statements: 0,
            operands: measure.operands,
            elements: 0,
            tags: 0,
            fits: measure.fits,
        })
    }

    /// With a placement at a loop round which so many loops and conditions stand, and in which its memref has these uses.
    ///
    /// # Errors
    ///
    /// `AllocError`, for want of memory alone.
    pub fn with_placement(
        self,
        alloc: Global,
        placed: &Placement,
        round: Round,
        uses: &[FoundUse<'_>],
    ) -> Result<Sums, AllocError>
        requires { MayBeWritten placed.now }
        ensures { IfOk result (λ sums. sums ≡ told_with (placement_of placed.now) round.loops round.ifs (map seen uses.now) self) }
    {
        let front = sums_of(before(alloc, placed)?.as_slice(), round);
        let back = sums_of(behind(alloc, placed)?.as_slice(), round);
        Ok(self.plus(front.plus(back)).redirected(placed, uses))
    }
}
