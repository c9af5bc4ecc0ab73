// The values of names and the slow memory, and what an effect does to them.
ghost use Rattle.std.specs.Prelude.{◌≡◌, ℕ, ◌<◌, length, IfSome};
ghost use Rattle.affine_ast.specs.Names.{put};
ghost use Rattle.direct_meaning.specs.Direct.{direct_load, direct_store, direct_step};
ghost use Rattle.walk_program.specs.Names.{name_at};
ghost use Rattle.walk_actions.specs.Meant.{place_meant};
ghost use Rattle.run_laws.specs.CanRun.{PlaceIn};
ghost use Rattle.run_parts.specs.Effects.{effect_meant, EffectIn};
ghost use Rattle.nest_meaning.specs.Held.{state_at, Lands, Same};
ghost use Rattle.nest_meaning.specs.Takes.{Takes};

use bus_model::FaultKind;
use run_parts::{Effect, Registers};
use walk_actions::Place;

/// What the names of data hold, and the slow memory, a memref behind the other.
#[derive(Drop)]
pub(crate) struct Machine<'p> {
    pub(crate) registers: Registers<'p>,
    pub(crate) slow: Vec<i64>,
}

impl<'p> Machine<'p> {
    /// Gives a name the number at a place.
    fn load(&mut self, into: u32, place: Place) -> Result<(), FaultKind>
        requires inside { into < length self.old.registers.names }
        requires place { PlaceIn (length self.old.slow.items) (place_meant place) }
        ensures takes { Takes result (direct_load (name_at self.old.registers.names into) (place_meant place) (state_at self.old)) (state_at self.new) }
        ensures same { Same self.old self.new }
    {
        match place {
            Place::Slow(place) => {
                let value = self.slow[place as usize];
                self.registers.keep(into, value);
                Ok(())
            }
            Place::Fast { .. } => Ok(()),
            Place::Outside => Err(FaultKind::Bounds),
        }
    }

    /// Puts a number into a place.
    fn store(&mut self, value: i64, place: Place) -> Result<(), FaultKind>
        requires { PlaceIn (length self.old.slow.items) (place_meant place) }
        ensures takes { Takes result (direct_store value (place_meant place) (state_at self.old)) (state_at self.new) }
        ensures same { Same self.old self.new }
    {
        match place {
            Place::Slow(place) => {
                self.slow[place as usize] = value;
                Ok(())
            }
            Place::Fast { .. } => Ok(()),
            Place::Outside => Err(FaultKind::Bounds),
        }
    }

    /// Takes what an action comes to. A module that is run directly has no allocation and no transfer.
    ///
    /// # Errors
    ///
    /// The fault of the action. The state is then as before.
    #[tactic(auto, unfolding(direct_meaning::specs::Direct::direct_step, direct_meaning::specs::Direct::read))]
    pub(crate) fn take(&mut self, effect: Effect<'_>) -> Result<(), FaultKind>
        requires inside { EffectIn (length self.old.registers.names) effect }
        requires lands { Lands (length self.old.slow.items) (effect_meant self.old.registers.names effect) }
        ensures takes { Takes result (direct_step (effect_meant self.old.registers.names effect.entry) (state_at self.old)) (state_at self.new) }
        ensures same { Same self.old self.new }
    {
        match effect {
            Effect::Sets { into, value } => {
                self.registers.keep(into, value);
                Ok(())
            }
            Effect::Loads { into, place } => self.load(into, place),
            Effect::Stores { value, place } => self.store(value, place),
            Effect::Faults(kind) => Err(kind),
            Effect::Nothing => Ok(()),
            Effect::Allocates { .. } | Effect::Releases { .. } => Ok(()),
            Effect::ReleasesTags { .. } => Ok(()),
            Effect::Starts(_) | Effect::Waits { .. } => Ok(()),
        }
    }
}
