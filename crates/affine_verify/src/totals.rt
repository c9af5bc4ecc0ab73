// Totals over the text so far, with an argument or an allocation more.
ghost use Rattle.std.specs.Prelude.{◌≡◌, ◌&&◌, true, min};
ghost use Rattle.affine_ast.specs.Sizes.{product};
ghost use Rattle.affine_ast.specs.Rules.{shape_within, allocations_within, arguments_within};
ghost use Rattle.affine_ast.specs.Scope.{totals_with};
ghost use Rattle.affine_ast.specs.Validity.{with_argument, argument_shape};
ghost use Rattle.affine_rules.specs.Scoped.{totals_of};

use affine_ast::{ArgKind, MemrefType};
use affine_rules::Totals;
use shape_rules::{elements, shape_within};

/// The elements of a memref of a shape within the limits, or one past 2^24 where they are more.
#[tactic(auto, using(crate::proofs::Shapes::positive))]
fn elements_of(ty: &MemrefType) -> u32
    requires { shape_within ty.now ≡ true }
    ensures { result ≡ min (product ty.now.sizes) 16777217 }
{
    elements(ty.sizes.as_slice())
}

/// Whether the shape of an allocation and the totals with it are within the limits.
pub(crate) fn allocation_fits(totals: Totals, ty: &MemrefType) -> bool
    ensures { result ≡ (shape_within ty.now && allocations_within (totals_with ty.now (totals_of totals))) }
{
    if !shape_within(ty) {
        return false;
    }
    let elements = elements_of(ty) as u64;
    let tags = if ty.space == 2 { elements } else { 0 };
    totals.allocated as u64 + elements <= 16_777_216 && totals.tags as u64 + tags <= 65_536
}

/// The totals with an allocation that is within the limits.
pub(crate) fn with_allocation(totals: Totals, ty: &MemrefType) -> Totals
    requires shape { shape_within ty.now ≡ true }
    requires totals { allocations_within (totals_with ty.now (totals_of totals)) ≡ true }
    ensures { totals_of result ≡ totals_with ty.now (totals_of totals) }
{
    let elements = elements_of(ty);
    let tags = if ty.space == 2 { elements } else { 0 };
    Totals {
        memrefs: totals.memrefs,
        indexes: totals.indexes,
        elements: totals.elements,
        allocated: totals.allocated + elements,
        tags: totals.tags + tags,
        statements: totals.statements,
    }
}

/// Whether the shape of an argument and the totals with it are within the limits.
pub(crate) fn argument_fits(totals: Totals, kind: &ArgKind) -> bool
    ensures { result ≡ (argument_shape kind.now && arguments_within (with_argument kind.now (totals_of totals))) }
{
    match kind {
        ArgKind::Memref(ty) => {
            if !shape_within(ty) {
                return false;
            }
            let elements = elements_of(ty) as u64;
            totals.memrefs < 64
                && totals.indexes <= 16
                && totals.elements as u64 + elements <= 1_048_576
        }
        ArgKind::Index(_) => {
            totals.memrefs <= 64 && totals.indexes < 16 && totals.elements <= 1_048_576
        }
    }
}

/// The totals with an argument that is within the limits.
pub(crate) fn with_argument(totals: Totals, kind: &ArgKind) -> Totals
    requires shape { argument_shape kind.now ≡ true }
    requires totals { arguments_within (with_argument kind.now (totals_of totals)) ≡ true }
    ensures { totals_of result ≡ with_argument kind.now (totals_of totals) }
{
    let mut sum = totals;
    match kind {
        ArgKind::Memref(ty) => {
            sum.memrefs += 1;
            sum.elements += elements_of(ty);
        }
        ArgKind::Index(_) => {
            sum.indexes += 1;
        }
    }
    sum
}
