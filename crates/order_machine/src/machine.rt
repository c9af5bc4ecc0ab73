// The machine of a module, a step at a time.
ghost use Rattle.std.specs.Prelude.{◌≡◌, ◌<◌, ◌≤◌, ◌^◌, [], List, length, slice_get, Some, None, true, false, IfOk};
ghost use Rattle.bus_model.specs.declared.step.Step.{Step as TheStep};
ghost use Rattle.direct_meaning.specs.Memory.{Fits};
ghost use Rattle.direct_meaning.specs.Work.{work};
ghost use Rattle.run_laws.specs.StaysFitting.{with_slow};
ghost use Rattle.affine_ast.specs.Nest.{nest};
ghost use Rattle.walk_program.specs.Reading.{nest_of, arguments_of};
ghost use Rattle.walk_program.specs.Tree.{tree};
ghost use Rattle.walk_program.specs.WellMade.{WellMade};
ghost use Rattle.walk_actions.specs.Meant.{meant};
ghost use Rattle.order_meaning.specs.Machine.{end_of, is_held_up};
ghost use Rattle.order_meaning.specs.Listed.{IsListed, steps_from};
ghost use Rattle.order_engines.specs.Flying.{flights_of};
ghost use Rattle.order_machine.specs.Orders.{setting};
ghost use Rattle.order_machine.specs.Standing.{Setting, Stood, IsAt, IsSomewhere, StandsSomewhere, IsNumber, Steps, Makes, SameElse, NextIn, stuck, left_of, after};

use affine_ast::{Cells, Image, Verified};
use bus_model::{Step, Verdict};
use nest_walk::Walk;
use order_memory::Memory;
use run_parts::{copies, flat, refill};
use sqlite_items::Items;
use std::alloc::{AllocError, Global};
use thiserror::Error;
use walk_actions::Action;
use walk_program::Program;

/// A module that runs beside engines. `specs/Standing` says when it is the machine after which steps.
#[derive(Drop)]
pub struct Machine<'p> {
    pub(crate) walk: Walk<'p>,
    pub(crate) next: Option<Action<'p>>,
    pub(crate) memory: Memory<'p>,
    pub(crate) image: Image,
    pub(crate) memrefs: Vec<Cells>,
    pub(crate) verdict: Option<Verdict>,
    pub(crate) steps: u64,
    pub(crate) filler: i64,
    pub(crate) capacity: u64,
    pub(crate) engines: u32,
}

/// The step isn't enabled.
#[derive(Debug, Drop, Error)]
#[error("the step isn't enabled")]
pub struct NotEnabled;

impl<'p> Machine<'p> {
    /// The machine of a module, given with its program, before the first step.
    ///
    /// # Errors
    ///
    /// `AllocError`, for want of memory alone. All of it is taken here.
    pub fn new(
        alloc: Global,
        program: &'p Program,
        module: &Verified,
        image: Image,
        filler: i64,
        capacity: u64,
        engines: u32,
    ) -> Result<Machine<'p>, AllocError>
        requires made { WellMade program.now }
        requires arguments { arguments_of program.now.names program.now.arguments ≡ «module».now.inner.args }
        requires body { nest_of program.now.names (tree program.now.body) ≡ nest «module».now.inner.body }
        requires fits { Fits «module».now.inner image }
        requires some_engine { 1 ≤ engines }
        requires work { work «module».now.inner ≤ 2 ^ 48 }
        ensures { IfOk result (λ machine. IsAt (setting «module».entry.now.inner image filler capacity engines) [] machine) }
    {
        let _module = module.module();
        let slow = flat(alloc, image.memrefs.as_slice())?;
        let memory = Memory::new(alloc, program, slow)?;
        let memrefs = copies(alloc, image.memrefs.as_slice())?;
        let walk = Walk::new(alloc, program, image.symbols.as_slice())?;
        let mut machine = Machine {
            walk,
            next: None,
            memory,
            image,
            memrefs,
            verdict: None,
            steps: 0,
            filler,
            capacity,
            engines,
        };
        machine.advance();
        Ok(machine)
    }

    /// How the run ended, once it has.
    pub fn verdict(&self) -> Option<Verdict>
        ensures { (s : Setting) (steps : List TheStep) → IsAt s steps self.now → result ≡ (after s steps).verdict }
    {
        self.verdict
    }

    /// How many steps were made.
    pub fn steps(&self) -> u64
        ensures { (s : Setting) (steps : List TheStep) → IsAt s steps self.now → result ≡ length steps }
    {
        self.steps
    }

    /// The slow memory as it stands. The index arguments are those that were handed in.
    pub fn into_image(self) -> Image
        requires { IsSomewhere self }
        ensures { (s : Setting) (steps : List TheStep) → IsAt s steps self.entry → result ≡ with_slow s.memory (after s steps).core.state.slow }
    {
        let Machine {
            walk,
            next: _,
            memory,
            image,
            mut memrefs,
            verdict: _,
            steps: _,
            filler: _,
            capacity: _,
            engines: _,
        } = self;
        drop(walk);
        refill(&mut memrefs, memory.slow.as_slice());
        Image {
            memrefs: Items::from_vec(memrefs),
            symbols: image.symbols,
        }
    }

    /// Whether an action is a wait that passes its tests on a transfer that isn't finished.
    fn holds_up(&self, action: Action<'p>) -> bool
        ensures { result ≡ is_held_up (meant self.now.walk.names self.now.walk.subscripts action.entry) (flights_of self.now.memory.flights.flying.items) }
    {
        match action {
            Action::Waits { tag, count } => self.memory.holds_up(tag, count),
            _ => false,
        }
    }

    /// Whether no action is left, or the next one is held up.
    fn is_stuck(&self) -> bool
        ensures { result ≡ stuck (left_of self.now.next self.now.walk) (flights_of self.now.memory.flights.flying.items) }
    {
        match self.next {
            Some(action) => self.holds_up(action),
            None => true,
        }
    }

    /// How many steps are enabled.
    pub fn enabled(&self) -> u64
        requires { IsSomewhere self.now }
        ensures { (s : Setting) (steps : List TheStep) → IsAt s steps self.now → (enabled : List TheStep) × IsListed (after s steps) enabled × (result ≡ length enabled) }
    {
        match self.verdict {
            Some(_) => 0,
            None => self.count(),
        }
    }

    /// How many steps are enabled while the run goes on.
    fn count(&self) -> u64
        requires going { self.now.verdict ≡ None }
        requires somewhere { IsSomewhere self.now }
        ensures { (s : Setting) (steps : List TheStep) → IsAt s steps self.now → (enabled : List TheStep) × IsListed (after s steps) enabled × (result ≡ length enabled) }
    {
        let of_engines = self.memory.flights.enabled(self.engines);
        if self.is_stuck() {
            of_engines
        } else {
            of_engines + 1
        }
    }

    /// A step of an engine by its number.
    fn step_of_engines(&self, n: u64) -> Step
        requires { n < length (steps_from (flights_of self.now.memory.flights.flying.items) self.now.memory.flights.waiting.items 0 self.now.engines) }
        ensures { slice_get (steps_from (flights_of self.now.memory.flights.flying.items) self.now.memory.flights.waiting.items 0 self.now.engines) n ≡ Some result }
    {
        let Some(step) = self.memory.flights.nth(self.engines, n) else {
            unreachable!()
        };
        step
    }

    /// An enabled step by its number: the next action, then those of each engine, its finish or move, or where it is
    /// idle its takes by ascending tag.
    pub fn nth(&self, n: u64) -> Step
        requires { IsNumber self.now n }
        ensures { (s : Setting) (steps enabled : List TheStep) → IsAt s steps self.now → IsListed (after s steps) enabled → slice_get enabled n ≡ Some result }
    {
        if self.is_stuck() {
            return self.step_of_engines(n);
        }
        if n == 0 {
            return Step::Compute;
        }
        self.step_of_engines(n - 1)
    }

    /// Takes the next action from the walk. Where there is none, the run is at its end.
    fn advance(&mut self)
        requires { self.old.verdict ≡ None }
        ensures verdict { self.new.verdict ≡ end_of self.old.walk.left }
        ensures left { self.old.walk.left ≡ left_of self.new.next self.new.walk }
        ensures inside { NextIn self.new.next self.new.walk }
        ensures names { self.new.walk.names ≡ self.old.walk.names }
        ensures others { SameElse self.old self.new }
    {
        match self.walk.next() {
            Some(action) => self.next = Some(action),
            None => {
                self.next = None;
                self.verdict = Some(Verdict::End);
            }
        }
    }

    /// Takes the next action, which isn't held up.
    fn act(&mut self, action: Action<'p>)
        requires going { self.old.verdict ≡ None }
        requires next { self.old.next ≡ Some action }
        requires free { stuck (left_of self.old.next self.old.walk) (flights_of self.old.memory.flights.flying.items) ≡ false }
        requires stood { StandsSomewhere self.old }
        ensures made { (s : Setting) (steps : List TheStep) → Stood s steps self.old → Makes s steps Step.Compute true self.new }
        ensures count { self.new.steps ≡ self.old.steps }
    {
        let subscripts = self.walk.subscripts();
        match self
            .memory
            .do_next(action, subscripts, self.filler, self.capacity)
        {
            Ok(()) => self.advance(),
            Err(kind) => self.verdict = Some(Verdict::Fault(kind)),
        }
    }

    /// The next action, where it isn't held up.
    fn compute(&mut self) -> bool
        requires going { self.old.verdict ≡ None }
        requires stood { StandsSomewhere self.old }
        ensures made { (s : Setting) (steps : List TheStep) → Stood s steps self.old → Makes s steps Step.Compute result self.new }
        ensures count { self.new.steps ≡ self.old.steps }
    {
        if self.is_stuck() {
            return false;
        }
        match self.next {
            Some(action) => {
                self.act(action);
                true
            }
            None => false,
        }
    }

    /// A step, not counted. False, with nothing changed, where it isn't enabled.
    fn make(&mut self, step: Step) -> bool
        requires going { self.old.verdict ≡ None }
        requires stood { StandsSomewhere self.old }
        ensures made { (s : Setting) (steps : List TheStep) → Stood s steps self.old → Makes s steps step result self.new }
        ensures count { self.new.steps ≡ self.old.steps }
    {
        match step {
            Step::Compute => self.compute(),
            Step::Take { engine, tag } => self.memory.take(self.engines, engine, tag),
            Step::Move { engine } => self.memory.move_next(self.engines, engine),
            Step::Finish { engine } => self.memory.finish(self.engines, engine),
        }
    }

    /// A step of the run.
    ///
    /// # Errors
    ///
    /// The step isn't enabled. Nothing is changed.
    pub fn step(&mut self, step: Step) -> Result<(), NotEnabled>
        requires { IsSomewhere self.old }
        ensures { (s : Setting) (steps : List TheStep) → IsAt s steps self.old → Steps s steps step result self.new }
    {
        match self.verdict {
            Some(_) => Err(NotEnabled),
            None => self.go(step),
        }
    }

    /// A step while the run goes on.
    fn go(&mut self, step: Step) -> Result<(), NotEnabled>
        requires going { self.old.verdict ≡ None }
        requires somewhere { IsSomewhere self.old }
        ensures { (s : Setting) (steps : List TheStep) → IsAt s steps self.old → Steps s steps step result self.new }
    {
        if !self.make(step) {
            return Err(NotEnabled);
        }
        self.steps = self.steps.saturating_add(1);
        Ok(())
    }
}
