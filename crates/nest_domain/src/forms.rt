// The forms of operands, of the results of maps and of bounds.
ghost use Rattle.std.specs.Prelude.{◌≡◌, true, List, [], ◌∷◌, take, drop, Ok};
ghost use Rattle.std.specs.List.{list_all};
ghost use Rattle.affine_expr.specs.Forms.{Form};
ghost use Rattle.affine_expr.specs.Linear.{Meets};
ghost use Rattle.affine_expr.specs.Pure.{is_pure, has_small_numbers};
ghost use Rattle.affine_ast.specs.Intervals.{Ranges};
ghost use Rattle.module_work.specs.Workable.{WorkableAccess, WorkableBound};
ghost use Rattle.nest_domain.specs.Table.{forms_of};
ghost use Rattle.nest_domain.specs.Forms.{all_over};
ghost use Rattle.nest_domain.specs.Domains.{operand_forms, map_forms, bound_forms};
ghost use Rattle.nest_domain.specs.Kept.{GivesForms};

use crate::table::{Forms, form_of};
use affine_ast::{Access, Bound, Name};
use affine_expr::{Combination, Expr, Leaves, LinearFault, Local};
use std::alloc::Global;

/// The forms of operands, in order.
#[tactic(auto, using(crate::proofs::Loops::goes_on, crate::proofs::Loops::stops, crate::proofs::Loops::ends))]
pub fn operand_forms<'a>(
    alloc: Global,
    table: &Forms<'a>,
    names: &'a [Name],
) -> Result<Vec<Combination>, LinearFault>
    ensures { Meets (operand_forms (forms_of table.now.entries) names.now) (λ found. found.items) result }
{
    let mut found = Vec::new(alloc);
    for name in names {
        let form = form_of(table, name)?;
        found.push(form)?;
    }
    Ok(found)
}

/// The forms of dimensions, and then of symbols, among those of operands.
pub fn parted(dims: u32, forms: &[Combination]) -> (&[Combination], &[Combination])
    ensures dims { result.0.now ≡ take dims forms.now }
    ensures syms { result.1.now ≡ drop dims forms.now }
{
    let dims = (dims as usize).min(forms.len());
    forms.split_at(dims)
}

/// The forms of expressions, one after the other.
pub(crate) fn all_formed(
    alloc: Global,
    exprs: &[Expr],
    leaves: &Leaves<'_>,
    locals: &mut Vec<Local>,
) -> Result<Vec<Combination>, LinearFault>
    requires pure { list_all is_pure exprs.now ≡ true }
    requires small { list_all has_small_numbers exprs.now ≡ true }
    ensures { GivesForms (all_over leaves.now.width leaves.now.dims.now leaves.now.syms.now exprs.now locals.old.items) locals.new.items (λ forms. forms.items) result }
{
    let mut forms = Vec::new(alloc);
    for expr in exprs {
        let form = expr.formed(alloc, leaves, locals)?;
        forms.push(form)?;
    }
    Ok(forms)
}

/// The forms of a map's results.
pub(crate) fn map_forms<'a>(
    alloc: Global,
    table: &Forms<'a>,
    width: u32,
    at: &'a Access,
    locals: &mut Vec<Local>,
) -> Result<Vec<Combination>, LinearFault>
    requires ready { (rho : Ranges) × WorkableAccess rho at.now }
    ensures { GivesForms (map_forms (forms_of table.now.entries) width at.now locals.old.items) locals.new.items (λ forms. forms.items) result }
{
    let operands = operand_forms(alloc, table, at.operands.as_slice())?;
    let (dims, syms) = parted(at.map.dims, operands.as_slice());
    let leaves = Leaves {
        width: width as usize,
        dims,
        syms,
    };
    all_formed(alloc, at.map.results.as_slice(), &leaves, locals)
}

/// One form, as a list.
pub fn one(alloc: Global, form: Combination) -> Result<Vec<Combination>, LinearFault>
    ensures { Meets {A = List Form} (Ok (form ∷ [])) (λ forms. forms.items) result }
{
    let mut forms = Vec::new(alloc);
    forms.push(form)?;
    Ok(forms)
}

/// The forms of a bound's results.
pub(crate) fn bound_forms<'a>(
    alloc: Global,
    table: &Forms<'a>,
    width: u32,
    bound: &'a Bound,
    locals: &mut Vec<Local>,
) -> Result<Vec<Combination>, LinearFault>
    requires ready { (rho : Ranges) × WorkableBound rho bound.now }
    ensures { GivesForms (bound_forms (forms_of table.now.entries) width bound.now locals.old.items) locals.new.items (λ forms. forms.items) result }
{
    let wide = width as usize + locals.len();
    match bound {
        Bound::Int(value) => one(alloc, Combination::of_number(alloc, wide, *value as i128)?),
        Bound::Value(name) => one(alloc, form_of(table, name)?.padded(alloc, wide)?),
        Bound::Map(at) => map_forms(alloc, table, width, at, locals),
    }
}
