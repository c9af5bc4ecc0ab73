// The lines of a report.
ghost use Rattle.std.specs.Prelude.{◌≡◌, ◌++◌, OnOk, IfOk, slice_get, List, ℕ};
ghost use Rattle.std.specs.Fmt.{decimal};
ghost use Rattle.std.specs.Option.{option_copied};
ghost use Rattle.plan_report.specs.Report.{argument_text, half_bytes, depth_at, cause_text, directions_text, doubling_text, amount_text, staged_text, left_text, outcome_text, subject_text, decision_text, HasBytes, IsReportable, report};
ghost use Rattle.affine_ast.specs.Nest.{nest};
ghost use Rattle.affine_ast.specs.Spelling.{name_text};
ghost use Rattle.nest_domain.specs.declared.plan.Decision.{Decision as TheDecision};

use crate::amounts::half_bytes;
use crate::depths::depth_at;
use affine_ast::{Arg, Module, Name};
use nest_domain::{Cause, Decision, Doubling, Outcome, Plan};
use std::alloc::{AllocError, Global};

fn put(out: &mut Vec<u8>, text: &[u8]) -> Result<(), AllocError>
    ensures { OnOk result (out.new.items ≡ out.old.items ++ text.now) }
{
    out.extend_from_slice(text)
}

fn put_number(alloc: Global, out: &mut Vec<u8>, number: u64) -> Result<(), AllocError>
    ensures { OnOk result (out.new.items ≡ out.old.items ++ decimal number) }
{
    let text = number.to_string(alloc)?;
    put(out, text.as_bytes())
}

#[tactic(auto, unfolding(affine_ast::specs::Spelling::name_text))]
fn put_name(out: &mut Vec<u8>, name: &Name) -> Result<(), AllocError>
    ensures { OnOk result (out.new.items ≡ out.old.items ++ name_text name.now) }
{
    put(out, b"%")?;
    put(out, name.text.as_str().as_bytes())
}

fn put_argument(out: &mut Vec<u8>, arg: Option<&Arg>) -> Result<(), AllocError>
    ensures { OnOk result (out.new.items ≡ out.old.items ++ argument_text (option_copied arg.entry)) }
{
    match arg {
        Some(arg) => put_name(out, &arg.name),
        None => Ok(()),
    }
}

/// The block, its line and the memref.
#[tactic(auto, unfolding(crate::specs::Report::subject_text))]
fn put_subject(
    alloc: Global,
    out: &mut Vec<u8>,
    block: u32,
    line: u32,
    arg: Option<&Arg>,
) -> Result<(), AllocError>
    ensures { OnOk result (out.new.items ≡ out.old.items ++ subject_text block line (option_copied arg.entry)) }
{
    put(out, b"// block ")?;
    put_number(alloc, out, block as u64)?;
    put(out, b" line ")?;
    put_number(alloc, out, line as u64)?;
    put(out, b" ")?;
    put_argument(out, arg)?;
    put(out, b": ")
}

fn put_cause(out: &mut Vec<u8>, cause: Cause) -> Result<(), AllocError>
    ensures { OnOk result (out.new.items ≡ out.old.items ++ cause_text cause) }
{
    match cause {
        Cause::Region => put(out, b"region"),
        Cause::Coefficient => put(out, b"coefficient"),
        Cause::Rows => put(out, b"rows"),
        Cause::Capacity => put(out, b"capacity"),
        Cause::Size => put(out, b"size"),
        Cause::Shape => put(out, b"shape"),
        Cause::Dependence => put(out, b"dependence"),
    }
}

#[tactic(auto, unfolding(crate::specs::Report::left_text))]
fn put_left(out: &mut Vec<u8>, cause: Cause) -> Result<(), AllocError>
    ensures { OnOk result (out.new.items ≡ out.old.items ++ left_text cause) }
{
    put(out, b"left, ")?;
    put_cause(out, cause)
}

#[tactic(auto, unfolding(crate::specs::Report::amount_text))]
fn put_amount(alloc: Global, out: &mut Vec<u8>, bytes: u64, depth: u64) -> Result<(), AllocError>
    ensures { OnOk result (out.new.items ≡ out.old.items ++ amount_text bytes depth) }
{
    put(out, b"staged ")?;
    put_number(alloc, out, bytes)?;
    put(out, b" bytes at depth ")?;
    put_number(alloc, out, depth)?;
    put(out, b", ")
}

fn put_directions(out: &mut Vec<u8>, reads: bool, writes: bool) -> Result<(), AllocError>
    ensures { OnOk result (out.new.items ≡ out.old.items ++ directions_text reads writes) }
{
    match (reads, writes) {
        (true, true) => put(out, b"in out"),
        (true, false) => put(out, b"in"),
        (false, true) => put(out, b"out"),
        (false, false) => Ok(()),
    }
}

#[tactic(auto, unfolding(crate::specs::Report::doubling_text))]
fn put_doubling(out: &mut Vec<u8>, doubling: Doubling) -> Result<(), AllocError>
    ensures { OnOk result (out.new.items ≡ out.old.items ++ doubling_text doubling) }
{
    match doubling {
        Doubling::NotAsked => Ok(()),
        Doubling::Doubled => put(out, b", doubled"),
        Doubling::Single(cause) => {
            put(out, b", single, ")?;
            put_cause(out, cause)
        }
    }
}

/// What a staged memref takes, where, and in which directions it is copied.
#[derive(Clone, Copy)]
struct Copied {
    bytes: u64,
    depth: u64,
    reads: bool,
    writes: bool,
    doubling: Doubling,
}

#[tactic(auto, unfolding(crate::specs::Report::staged_text))]
fn put_staged(alloc: Global, out: &mut Vec<u8>, copied: &Copied) -> Result<(), AllocError>
    ensures { OnOk result (out.new.items ≡ out.old.items ++ staged_text copied.now.bytes copied.now.depth copied.now.reads copied.now.writes copied.now.doubling) }
{
    put_amount(alloc, out, copied.bytes, copied.depth)?;
    put_directions(out, copied.reads, copied.writes)?;
    put_doubling(out, copied.doubling)
}

#[tactic(auto, unfolding(crate::specs::Report::outcome_text))]
fn put_outcome(
    alloc: Global,
    out: &mut Vec<u8>,
    module: &Module,
    arg: Option<&Arg>,
    outcome: &Outcome,
) -> Result<(), AllocError>
    requires { HasBytes (option_copied arg) outcome.now }
    ensures { OnOk result (out.new.items ≡ out.old.items ++ outcome_text «module».now (option_copied arg.entry) outcome.now) }
{
    match outcome {
        Outcome::Left(cause) => put_left(out, *cause),
        Outcome::Staged {
            at,
            region,
            reads,
            writes,
            doubling,
        } => {
            let copied = Copied {
                bytes: half_bytes(arg, region),
                depth: depth_at(module, at),
                reads: *reads,
                writes: *writes,
                doubling: *doubling,
            };
            put_staged(alloc, out, &copied)
        }
    }
}

#[tactic(auto, unfolding(crate::specs::Report::decision_text))]
fn put_decision(
    alloc: Global,
    out: &mut Vec<u8>,
    module: &Module,
    decision: &Decision,
) -> Result<(), AllocError>
    requires { HasBytes (slice_get «module».now.args decision.now.memref) decision.now.outcome }
    ensures { OnOk result (out.new.items ≡ out.old.items ++ decision_text «module».now decision.now) }
{
    let arg = module.args.as_slice().get(decision.memref as usize);
    put_subject(alloc, out, decision.block, decision.line, arg)?;
    put_outcome(alloc, out, module, arg, &decision.outcome)?;
    put(out, b"\n")
}

/// The report of a plan of a module: a line for each decision, in the order of the plan.
///
/// # Errors
///
/// `AllocError`, for want of memory alone.
pub fn report(alloc: Global, plan: &Plan, module: &Module) -> Result<Vec<u8>, AllocError>
    requires { IsReportable «module».now plan.now.decisions.items }
    ensures { IfOk result (λ text. text.items ≡ report «module».now plan.now.decisions.items) }
{
    let mut out = Vec::new(alloc);
    for decision in &plan.decisions {
        put_decision(alloc, &mut out, module, decision)?;
    }
    Ok(out)
}
