// The command `stage`, and the stage of a module for others.
ghost use Rattle.std.specs.Prelude.{◌≡◌, None, false, IfOk};
ghost use Rattle.affine_ast.specs.PlainLimits.{plain_fault};
ghost use Rattle.affine_ast.specs.Spelling.{spelling};
ghost use Rattle.affine_driver.specs.declared.command.Command.TheVariants.{Stage};
ghost use Rattle.affine_driver.specs.Behaviour.{Limited};
ghost use Rattle.affine_driver.specs.Command.{IsAllowed};
ghost use Rattle.affine_driver.specs.Outcome.{Answered, Gives};
ghost use Rattle.affine_driver.specs.Output.{planning, IsRead, IsStageOutput};
ghost use Rattle.plan_laws.specs.Plan as plans;
ghost use Rattle.plan_report.specs.Report.{report};
ghost use Rattle.stage_laws.specs.Law.{IsStageOf};

use crate::command::StageOptions;
use crate::demands::meet_limits;
use crate::refusal::Refusal;
use affine_ast::Verified;
use affine_print::print;
use copy_place::plan;
use module_stages::stage_module;
use nest_domain::{Options, Plan};
use plan_amounts::plans_are_reportable;
use plan_report::report;
use std::alloc::{AllocError, Global};

/// What the options of `stage` ask of a plan.
fn planning(options: StageOptions) -> Options
    ensures { result ≡ planning options }
{
    let StageOptions {
        depth,
        dma,
        double,
        buffers,
        capacity,
    } = options;
    Options {
        depth,
        dma,
        double,
        capacity,
        buffers,
    }
}

/// The plan of a module that meets V13, and its stage.
pub(crate) fn staged_by(
    alloc: Global,
    options: StageOptions,
    verified: &Verified,
) -> Result<(Plan, Verified), AllocError>
    requires plain { plain_fault verified.now.inner ≡ None }
    requires single { options.double ≡ false }
    requires text { IsRead verified.now.inner }
    ensures plan { IfOk result (λ made. made.0.decisions.items ≡ plans.plan (planning options) verified.now.inner) }
    ensures stage { IfOk result (λ made. IsStageOf (planning options) verified.now.inner made.1.inner) }
{
    let plan = plan(alloc, verified, &planning(options))?;
    let staged = stage_module(alloc, verified, &plan, options.dma)?;
    Ok((plan, staged))
}

/// Report and printed spelling of a module's stage.
#[tactic(auto, using(crate::proofs::Originals::stage_is, crate::proofs::Originals::reportable_plan))]
pub(crate) fn output_of(
    alloc: Global,
    options: StageOptions,
    verified: &Verified,
    planned: &Plan,
    staged: &Verified,
) -> Result<Vec<u8>, AllocError>
    requires plan { planned.now.decisions.items ≡ plans.plan (planning options) verified.now.inner }
    requires stage { IsStageOf (planning options) verified.now.inner staged.now.inner }
    ensures { IfOk result (λ output. IsStageOutput options verified.now.inner output.items) }
{
    plans_are_reportable();
    let mut output = report(alloc, planned, verified.module())?;
    let printed = print(alloc, staged.module())?;
    output.extend_from_slice(printed.as_slice())?;
    Ok(output)
}

/// What `stage` writes of a valid module, or why it writes nothing.
pub(crate) fn stage_output(
    alloc: Global,
    options: StageOptions,
    verified: &Verified,
) -> Result<Vec<u8>, Refusal>
    requires allowed { IsAllowed (Stage options) }
    requires text { IsRead verified.now.inner }
    ensures { Answered result (λ output. output.items) (Limited verified.now.inner (Gives (IsStageOutput options verified.now.inner))) }
{
    meet_limits(verified)?;
    let (plan, staged) = staged_by(alloc, options, verified)?;
    let output = output_of(alloc, options, verified, &plan, &staged)?;
    Ok(output)
}
