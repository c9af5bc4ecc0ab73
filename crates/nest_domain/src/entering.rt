// Along one thing on the way to a statement.
ghost use Rattle.std.specs.Prelude.{◌≡◌, OnOk};
ghost use Rattle.nest_domain.specs.Domains.{along_by};
ghost use Rattle.nest_domain.specs.Gathered.{known_of, Becomes};
ghost use Rattle.nest_domain.specs.Ready.{ReadyHeader, ranges_along};
ghost use Rattle.nest_domain.specs.Steps.{header_of};

use crate::known::{KnownForms, enter_condition};
use crate::loop_body::enter_loop;
use crate::plain::pass_plain;
use crate::step::Step;
use affine_expr::LinearFault;
use std::alloc::Global;

/// Takes one step: into a loop or a region of a condition, or past what stands before. `needed` says whether a value that it gives is
/// used behind it; only then the value has a form there.
pub(crate) fn along_step<'a>(
    alloc: Global,
    step: &Step<'a>,
    needed: bool,
    known: &mut KnownForms<'a>,
) -> Result<(), LinearFault>
    requires { ReadyHeader (header_of step.now) (known_of known.old).ranges }
    ensures known { Becomes (along_by (header_of step.now) needed (known_of known.old)) known.new result }
    ensures ranges { OnOk result ((known_of known.new).ranges ≡ ranges_along (header_of step.now) (known_of known.old).ranges) }
{
    match step {
        Step::Round {
            var,
            lower,
            upper,
            step,
        } => enter_loop(alloc, *var, *lower, *upper, *step, known),
        Step::Given { set, operands } => enter_condition(alloc, *set, *operands, known),
        Step::Except { .. } => Ok(()),
        Step::Behind { what } => pass_plain(alloc, *what, needed, known),
        Step::Past { .. } => Ok(()),
    }
}
