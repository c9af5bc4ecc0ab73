// Runs whose steps a policy chooses.
ghost use Rattle.std.specs.Prelude.{◌≡◌, ◌≤◌, ◌^◌, [], List, Some, true, false, IfOk};
ghost use Rattle.bus_model.specs.declared.step.Step.{Step as TheStep};
ghost use Rattle.direct_meaning.specs.Memory.{Fits};
ghost use Rattle.direct_meaning.specs.Work.{work};
ghost use Rattle.order_machine.specs.Orders.{setting};
ghost use Rattle.order_machine.specs.Policies.{is_of, is_move, moved_by, Choice, Obeyed, HoldsBelow, RunsPolicy};
ghost use Rattle.order_machine.specs.Standing.{Setting, IsAt, IsSomewhere, after};

use crate::machine::Machine;
use affine_ast::{Image, Verified};
use bus_model::{Step, Verdict};
use std::alloc::{AllocError, Global};
use walk_program::make;

/// Which of the enabled steps a run takes.
#[derive(Clone, Copy)]
pub enum Policy {
    /// The first, so that engines move as late as may be.
    Late,
    /// The last, so that they move early.
    Early,
    /// The last until this engine has moved one element. From then on the first that isn't its own; the run ends where
    /// there is none.
    Hold(u32),
}

/// How such a run ended.
#[derive(Drop)]
pub struct Halted {
    /// None where only steps of the held engine were enabled.
    pub verdict: Option<Verdict>,
    pub image: Image,
    pub steps: u64,
}

/// Whether a step is an engine's.
fn is_of(step: Step, engine: u32) -> bool
    ensures { result ≡ is_of engine step }
{
    match step {
        Step::Compute => false,
        Step::Take { engine: own, .. } => own == engine,
        Step::Move { engine: own } => own == engine,
        Step::Finish { engine: own } => own == engine,
    }
}

/// Whether a step moves an element for an engine.
fn is_move(step: Step, engine: u32) -> bool
    ensures { result ≡ is_move engine step }
{
    match step {
        Step::Move { engine: own } => own == engine,
        _ => false,
    }
}

/// Whether the held engine has moved an element, with this step.
fn moved_by(policy: Policy, moved: bool, step: Step) -> bool
    ensures { result ≡ moved_by policy moved step }
{
    match policy {
        Policy::Late => moved,
        Policy::Early => moved,
        Policy::Hold(engine) => moved || is_move(step, engine),
    }
}

impl<'p> Machine<'p> {
    /// The first of the enabled steps.
    fn first(&self) -> Option<Step>
        requires { IsSomewhere self.now }
        ensures { (s : Setting) (steps : List TheStep) → IsAt s steps self.now → Choice Policy.Late false (after s steps) result }
    {
        if self.enabled() == 0 {
            return None;
        }
        Some(self.nth(0))
    }

    /// The last of the enabled steps.
    fn last(&self) -> Option<Step>
        requires { IsSomewhere self.now }
        ensures { (s : Setting) (steps : List TheStep) → IsAt s steps self.now → Choice Policy.Early false (after s steps) result }
    {
        let count = self.enabled();
        if count == 0 {
            return None;
        }
        Some(self.nth(count - 1))
    }

    /// The first of the enabled steps that isn't an engine's.
    fn other_than(&self, engine: u32) -> Option<Step>
        requires { IsSomewhere self.now }
        ensures { (s : Setting) (steps : List TheStep) → IsAt s steps self.now → Choice (Policy.Hold engine) true (after s steps) result }
    {
        let count = self.enabled();
        for n in 0..count {
            let step = self.nth(n);
            if !is_of(step, engine) {
                return Some(step);
            }
        }
        None
    }

    /// What a policy chooses.
    fn choice(&self, policy: Policy, moved: bool) -> Option<Step>
        requires { IsSomewhere self.now }
        ensures { (s : Setting) (steps : List TheStep) → IsAt s steps self.now → Choice policy moved (after s steps) result }
    {
        match policy {
            Policy::Late => self.first(),
            Policy::Early => self.last(),
            Policy::Hold(engine) => {
                if moved {
                    self.other_than(engine)
                } else {
                    self.last()
                }
            }
        }
    }

    /// Makes the steps that a policy chooses.
    fn obey(&mut self, policy: Policy)
        requires { (s : Setting) × IsAt s [] self.old }
        ensures { (s : Setting) → IsAt s [] self.old → Obeyed s policy self.new }
    {
        let mut moved = false;
        while let Some(step) = self.choice(policy, moved) {
            let _ = self.step(step);
            moved = moved_by(policy, moved, step);
        }
    }
}

/// Runs the machine of a module by a policy.
///
/// # Errors
///
/// `AllocError`, for want of memory alone. All of it is taken before the first step.
pub fn run_policy(
    alloc: Global,
    module: &Verified,
    image: Image,
    filler: i64,
    capacity: u64,
    engines: u32,
    policy: Policy,
) -> Result<Halted, AllocError>
    requires fits { Fits «module».now.inner image }
    requires some_engine { 1 ≤ engines }
    requires held { HoldsBelow engines policy }
    requires work { work «module».now.inner ≤ 2 ^ 48 }
    ensures runs { IfOk result (λ halted. RunsPolicy (setting «module».entry.now.inner image filler capacity engines) policy halted) }
    ensures fits { IfOk result (λ halted. halted.verdict ≡ Some Verdict.End → Fits «module».entry.now.inner halted.image) }
{
    let valid = module.module();
    let program = make(alloc, valid)?;
    let mut machine = Machine::new(alloc, &program, module, image, filler, capacity, engines)?;
    machine.obey(policy);
    let verdict = machine.verdict();
    let steps = machine.steps();
    Ok(Halted {
        verdict,
        image: machine.into_image(),
        steps,
    })
}
