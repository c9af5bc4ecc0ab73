// Runs whose steps are chosen by numbers.
ghost use Rattle.std.specs.Prelude.{◌≡◌, ◌≤◌, ◌^◌, [], List, None, IfOk};
ghost use Rattle.bus_model.specs.declared.step.Step.{Step as TheStep};
ghost use Rattle.direct_meaning.specs.Memory.{Fits};
ghost use Rattle.direct_meaning.specs.Work.{work};
ghost use Rattle.order_machine.specs.Standing.{Setting, IsAt, IsSomewhere};
ghost use Rattle.order_machine.specs.Orders.{next_number, Chooses, RunBy, RunsOrder, setting};

use crate::machine::Machine;
use affine_ast::{Image, Verified};
use bus_model::Verdict;
use std::alloc::{AllocError, Global};
use walk_program::make;

/// How a run ended whose steps a pick chose.
#[derive(Drop)]
pub struct Ordered {
    pub verdict: Verdict,
    /// The slow memory as it then stood, and the index arguments.
    pub image: Image,
    /// How many steps there were.
    pub steps: u64,
    /// The sum of the numbers of the steps among the enabled ones, modulo 2^64.
    pub trace: u64,
}

/// The number behind one that chooses.
fn next_number(x: u64) -> u64
    ensures { result ≡ next_number x }
{
    x.wrapping_mul(6364136223846793005)
        .wrapping_add(1442695040888963407)
}

impl<'p> Machine<'p> {
    /// Makes the enabled step that a number chooses. The answer is its number in their order.
    fn choose(&mut self, x: u64) -> u64
        requires somewhere { IsSomewhere self.old }
        requires going { self.old.verdict ≡ None }
        ensures { (s : Setting) (steps : List TheStep) → IsAt s steps self.old → Chooses s steps x result self.new }
    {
        let number = (x >> 33) % self.enabled();
        let step = self.nth(number);
        let _ = self.step(step);
        number
    }

    /// Makes steps until none is enabled, each chosen by the next number behind a pick. The answer is how the run ended, and
    /// the sum of the steps' numbers.
    fn run_by(&mut self, pick: u64) -> (Verdict, u64)
        requires { (s : Setting) × IsAt s [] self.old }
        ensures { (s : Setting) → IsAt s [] self.old → RunBy s pick result.0 result.1 self.new }
    {
        let mut x = pick;
        let mut trace = 0u64;
        loop {
            match self.verdict {
                Some(verdict) => return (verdict, trace),
                None => {
                    x = next_number(x);
                    let number = self.choose(x);
                    trace = trace.wrapping_add(number);
                }
            }
        }
    }
}

/// Runs the machine of a module until no step is enabled. Of the enabled steps, in the order of `Machine::nth`, each is
/// chosen by a number made from the pick.
///
/// # Errors
///
/// `AllocError`, for want of memory alone. All of it is taken before the first step.
pub fn run_order(
    alloc: Global,
    module: &Verified,
    image: Image,
    filler: i64,
    capacity: u64,
    engines: u32,
    pick: u64,
) -> Result<Ordered, AllocError>
    requires fits { Fits «module».now.inner image }
    requires some_engine { 1 ≤ engines }
    requires work { work «module».now.inner ≤ 2 ^ 48 }
    ensures runs { IfOk result (λ ordered. RunsOrder (setting «module».entry.now.inner image filler capacity engines) pick ordered) }
    ensures fits { IfOk result (λ ordered. ordered.verdict ≡ Verdict.End → Fits «module».entry.now.inner ordered.image) }
{
    let valid = module.module();
    let program = make(alloc, valid)?;
    let mut machine = Machine::new(alloc, &program, module, image, filler, capacity, engines)?;
    let ran = machine.run_by(pick);
    let steps = machine.steps();
    Ok(Ordered {
        verdict: ran.0,
        image: machine.into_image(),
        steps,
        trace: ran.1,
    })
}
