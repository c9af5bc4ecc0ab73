// The forms of the results of maps and of the bounds of loops.
ghost use Rattle.std.specs.Prelude.{◌≡◌, true, List, [], ◌∷◌, take, drop, map, Ok, Result, IfOk};
ghost use Rattle.std.specs.List.{list_all};
ghost use Rattle.affine_expr.specs.Forms.{Form};
ghost use Rattle.affine_expr.specs.Linear.{Meets};
ghost use Rattle.affine_expr.specs.Pure.{is_pure, has_small_numbers};
ghost use Rattle.affine_ast.specs.Intervals.{Ranges};
ghost use Rattle.module_work.specs.Workable.{WorkableAccess, WorkableBound};
ghost use Rattle.nest_domain.specs.Table.{forms_of};
ghost use Rattle.nest_domain.specs.Forms.{all_over};
ghost use Rattle.nest_domain.specs.Domains.{map_forms, bound_forms};
ghost use Rattle.nest_domain.specs.Kept.{GivesForms};
ghost use Rattle.nest_domain.specs.Ready.{ReadyHeader};
ghost use Rattle.nest_domain.specs.Steps.{header_of};
ghost use Rattle.box_covers.specs.Traced.{going, goings, traced, Swept, swept};
ghost use Rattle.box_covers.specs.Told.{traced_of, AreReady, AddsGoing};

use crate::along::{TracedForms, pass};
use affine_ast::{Access, Bound};
use affine_expr::{Combination, Expr, Leaves, LinearFault, Local};
use nest_domain::{Forms, LoopForms, Step, form_of, operand_forms};
use std::alloc::Global;
use std::marker::Model;

/// The forms of dimensions, and then of symbols, among those of operands.
fn parted(dims: u32, forms: &[Combination]) -> (&[Combination], &[Combination])
    ensures dims { result.0.now ≡ take dims forms.now }
    ensures syms { result.1.now ≡ drop dims forms.now }
{
    let dims = (dims as usize).min(forms.len());
    forms.split_at(dims)
}

/// The forms of expressions, one after the other.
fn all_formed(
    alloc: Global,
    exprs: &[Expr],
    leaves: &Leaves<'_>,
    locals: &mut Vec<Local>,
) -> Result<Vec<Combination>, LinearFault>
    requires pure { list_all is_pure exprs.now ≡ true }
    requires small { list_all has_small_numbers exprs.now ≡ true }
    ensures { GivesForms (all_over leaves.now.width leaves.now.dims.now leaves.now.syms.now exprs.now locals.old.items) locals.new.items (λ forms. forms.items) result }
{
    let mut forms = Vec::new(alloc);
    for expr in exprs {
        let form = expr.formed(alloc, leaves, locals)?;
        forms.push(form)?;
    }
    Ok(forms)
}

/// The forms of a map's results.
pub(crate) fn map_forms<'a>(
    alloc: Global,
    table: &Forms<'a>,
    width: u32,
    at: &'a Access,
    locals: &mut Vec<Local>,
) -> Result<Vec<Combination>, LinearFault>
    requires ready { (rho : Ranges) × WorkableAccess rho at.now }
    ensures { GivesForms (map_forms (forms_of table.now.entries) width at.now locals.old.items) locals.new.items (λ forms. forms.items) result }
{
    let operands = operand_forms(alloc, table, at.operands.as_slice())?;
    let (dims, syms) = parted(at.map.dims, operands.as_slice());
    let leaves = Leaves {
        width: width as usize,
        dims,
        syms,
    };
    all_formed(alloc, at.map.results.as_slice(), &leaves, locals)
}

/// One form, as a list.
fn one(alloc: Global, form: Combination) -> Result<Vec<Combination>, LinearFault>
    ensures { Meets {A = List Form} (Ok (form ∷ [])) (λ forms. forms.items) result }
{
    let mut forms = Vec::new(alloc);
    forms.push(form)?;
    Ok(forms)
}

/// The forms of a bound's results.
fn bound_forms<'a>(
    alloc: Global,
    table: &Forms<'a>,
    width: u32,
    bound: &'a Bound,
    locals: &mut Vec<Local>,
) -> Result<Vec<Combination>, LinearFault>
    requires ready { (rho : Ranges) × WorkableBound rho bound.now }
    ensures { GivesForms (bound_forms (forms_of table.now.entries) width bound.now locals.old.items) locals.new.items (λ forms. forms.items) result }
{
    let wide = width as usize + locals.len();
    match bound {
        Bound::Int(value) => one(alloc, Combination::of_number(alloc, wide, *value as i128)?),
        Bound::Value(name) => one(alloc, form_of(table, name)?.padded(alloc, wide)?),
        Bound::Map(at) => map_forms(alloc, table, width, at, locals),
    }
}

/// What a loop goes over.
fn going<'a>(
    alloc: Global,
    lower: &'a Bound,
    upper: &'a Bound,
    step: i64,
    known: &TracedForms<'a>,
) -> Result<LoopForms, LinearFault>
    requires lower { (rho : Ranges) × WorkableBound rho lower.now }
    requires upper { (rho : Ranges) × WorkableBound rho upper.now }
    ensures { Meets (going lower.now upper.now step (traced_of known.now)) (λ g. g) result }
{
    let mut locals = Vec::new(alloc);
    let lowers = bound_forms(alloc, &known.forms, known.next, lower, &mut locals)?;
    let uppers = bound_forms(alloc, &known.forms, known.next, upper, &mut locals)?;
    Ok(LoopForms {
        lowers,
        uppers,
        step,
    })
}

/// Adds what one thing on the way goes over, which nothing but a loop does.
fn add_going<'a>(
    alloc: Global,
    step: &Step<'a>,
    known: &TracedForms<'a>,
    goings: &mut Vec<LoopForms>,
) -> Result<(), LinearFault>
    requires { (rho : Ranges) × ReadyHeader (header_of step.now) rho }
    ensures { AddsGoing (header_of step.now) (traced_of known.now) goings.old.items goings.new.items result }
{
    match step {
        Step::Round {
            lower,
            upper,
            step,
            ..
        } => {
            let made = going(alloc, *lower, *upper, *step, known)?;
            goings.push(made)?;
            Ok(())
        }
        Step::Given { .. } => Ok(()),
        Step::Except { .. } => Ok(()),
        Step::Behind { .. } => Ok(()),
        Step::Past { .. } => Ok(()),
    }
}

/// The loops on a way, from the outside in; what is known is then that at its end.
#[tactic(auto, using(crate::proofs::Passing::ready_at))]
fn goings_along<'a>(
    alloc: Global,
    inner: &[Step<'a>],
    known: &mut TracedForms<'a>,
) -> Result<Vec<LoopForms>, LinearFault>
    requires { AreReady (map header_of inner.now) }
    ensures goings { Meets (goings (map header_of inner.now) (traced_of known.old)) (λ gs. gs.items) result }
    ensures known { IfOk result (λ gs. traced_of known.new ≡ traced (map header_of inner.now) (traced_of known.old)) }
{
    let mut goings = Vec::new(alloc);
    for step in inner {
        add_going(alloc, step, known, &mut goings)?;
        pass(alloc, step, known)?;
    }
    Ok(goings)
}

/// The loops round an access, from a loop on, and the forms of its subscripts.
#[derive(Drop)]
pub(crate) struct SweptForms {
    pub goings: Vec<LoopForms>,
    pub forms: Vec<Combination>,
}

impl Model for SweptForms {
    ghost use Rattle.box_covers.specs.Traced.{Swept};

    ghost Value = { Swept };

    ghost view = { λ s. record { goings = s.goings.items; forms = s.forms.items } };
}

/// The loops and the subscripts of an access, from what is known before the loop.
pub(crate) fn swept<'a>(
    alloc: Global,
    inner: &[Step<'a>],
    at: &'a Access,
    known: &mut TracedForms<'a>,
) -> Result<SweptForms, LinearFault>
    requires way { AreReady (map header_of inner.now) }
    requires subscripts { (rho : Ranges) × WorkableAccess rho at.now }
    ensures { Meets (swept (map header_of inner.now) at.now (traced_of known.old)) (λ s. s) result }
{
    let goings = goings_along(alloc, inner, known)?;
    let mut locals = Vec::new(alloc);
    let forms = map_forms(alloc, &known.forms, known.next, at, &mut locals)?;
    Ok(SweptForms { goings, forms })
}
