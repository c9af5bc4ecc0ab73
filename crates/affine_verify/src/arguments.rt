// The arguments in order.
ghost use Rattle.std.specs.Prelude.{◌≡◌, Some, None, OnOk, IfOk, true, false};
ghost use Rattle.affine_ast.specs.Intervals.{range_or};
ghost use Rattle.affine_ast.specs.Scope.{Around};
ghost use Rattle.affine_ast.specs.Validity.{Told, told_arguments, rule_of_argument, behind_argument, range_ordered, range_small, argument_is_slow, binding_of_kind};
ghost use Rattle.affine_rules.specs.Scoped.{around_of, binding_of};
ghost use Rattle.affine_verify.specs.Comes.{Steps, Argues, Counts};

use crate::fault::{VerifyFault, judged};
use crate::plain::defined;
use crate::totals::{argument_fits, with_argument};
use affine_ast::{Arg, ArgKind};
use affine_expr::Interval;
use affine_rules::{Binding, Scoped, is_in, is_small};
use std::alloc::{AllocError, Global};

/// The range of an index argument.
fn range_or(range: Option<Interval>) -> Interval
    ensures { result ≡ range_or range }
{
    match range {
        Some(range) => range,
        None => Interval {
            least: 0,
            greatest: 1_048_576,
        },
    }
}

fn range_ordered(kind: &ArgKind) -> bool
    ensures { result ≡ range_ordered kind.now }
{
    match kind {
        ArgKind::Memref(_) => true,
        ArgKind::Index(range) => {
            let range = range_or(*range);
            range.least <= range.greatest
        }
    }
}

fn range_small(kind: &ArgKind) -> bool
    ensures { result ≡ range_small kind.now }
{
    match kind {
        ArgKind::Memref(_) => true,
        ArgKind::Index(range) => {
            let range = range_or(*range);
            is_small(range.least) && is_small(range.greatest)
        }
    }
}

fn is_slow(kind: &ArgKind) -> bool
    ensures { result ≡ argument_is_slow kind.now }
{
    match kind {
        ArgKind::Memref(ty) => ty.space == 0,
        ArgKind::Index(_) => true,
    }
}

/// The lowest rule that an argument breaks.
#[tactic(auto, unfolding(affine_ast::specs::Validity::rule_of_argument))]
fn rule_of_argument<'a>(scoped: &Scoped<'a>, arg: &'a Arg) -> Option<u8>
    ensures { result ≡ rule_of_argument (around_of scoped.now) arg.now.name arg.now.kind }
{
    if is_in(&scoped.names, &arg.name) {
        return Some(2);
    }
    if !range_ordered(&arg.kind) {
        return Some(3);
    }
    if !range_small(&arg.kind) {
        return Some(9);
    }
    if !is_slow(&arg.kind) {
        return Some(10);
    }
    if !argument_fits(scoped.totals, &arg.kind) {
        return Some(11);
    }
    None
}

fn bound_to(alloc: Global, kind: &ArgKind) -> Result<Binding, AllocError>
    ensures { IfOk result (λ binding. binding_of binding ≡ binding_of_kind kind.now) }
{
    match kind {
        ArgKind::Memref(ty) => {
            let ty = ty.copy(alloc)?;
            Ok(Binding::MemrefArgument(ty))
        }
        ArgKind::Index(range) => Ok(Binding::Symbol(range_or(*range))),
    }
}

/// Puts an argument in scope that breaks no rule.
fn argument<'a>(alloc: Global, arg: &'a Arg, scoped: &mut Scoped<'a>) -> Result<(), VerifyFault>
    ensures { Argues result arg.now.line (rule_of_argument (around_of scoped.old) arg.now.name arg.now.kind) (behind_argument arg.now.name arg.now.kind (around_of scoped.old)) scoped.new }
{
    let rule = rule_of_argument(scoped, arg);
    judged(arg.line, rule)?;
    let totals = with_argument(scoped.totals, &arg.kind);
    let binding = bound_to(alloc, &arg.kind)?;
    defined(arg.line, rule, &arg.name, binding, scoped)?;
    scoped.totals = totals;
    Ok(())
}

/// The arguments in order.
pub(crate) fn arguments<'a>(
    alloc: Global,
    args: &'a [Arg],
    scoped: &mut Scoped<'a>,
) -> Result<(), VerifyFault>
    ensures told { (body : Around → Told) → Steps result (told_arguments args.now body (around_of scoped.old)) (body (around_of scoped.new)) }
    ensures counts { OnOk result (Counts scoped.old scoped.new) }
{
    for arg in args {
        let argued = argument(alloc, arg, scoped);
        if argued.is_err() {
            return argued;
        }
    }
    Ok(())
}
