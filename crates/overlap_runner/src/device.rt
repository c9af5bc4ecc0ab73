// The registers and the memory of the compute thread, and what an effect does to them.
ghost use Rattle.std.specs.Prelude.{◌≡◌, ◌<◌, List, Ok, length};
ghost use Rattle.walk_program.specs.Names.{name_at};
ghost use Rattle.walk_actions.specs.Meant.{place_meant};
ghost use Rattle.direct_meaning.specs.Action as meaning;
ghost use Rattle.prompt_semantics.specs.Device as model;
ghost use Rattle.prompt_semantics.specs.Prompt.{acts};
ghost use Rattle.run_parts.specs.Effects.{effect_meant, EffectIn};
ghost use Rattle.prompt_laws.specs.Rooms.{Room};
ghost use Rattle.overlap_memory.specs.Tied.{FastShape, with_allocated, with_released};
ghost use Rattle.overlap_runner.specs.Held.{Ready, shape_after};
ghost use Rattle.overlap_runner.specs.Follow.{Follows, Same};

use crate::places::{load, store};
use affine_ast::Element;
use bus_model::{FaultKind, Transfer};
use dma_engine::Gate;
use fast_rooms::{bytes_of, wrap};
use overlap_memory::Memory;
use run_parts::{Effect, Registers};
use std::sync::Wait;
use tag_table::Bus;
use walk_actions::Place;

/// The values of names, the memory, the filler of fresh cells and the capacity in bytes.
#[derive(Drop)]
pub(crate) struct Device<'p> {
    pub(crate) registers: Registers<'p>,
    pub(crate) memory: Memory,
    pub(crate) filler: i64,
    pub(crate) capacity: u64,
}

impl<'p> Device<'p> {
    /// Gives a name the number at a place.
    fn load(&mut self, bus: &Bus, into: u32, place: Place) -> Result<(), FaultKind>
        requires inside { into < length self.old.registers.names }
        requires ready { (rooms : List Room) × (shape : FastShape) × (y : model.Device) × Ready bus.now rooms shape self.old y (meaning.Loads (name_at self.old.registers.names into) (place_meant place)) }
        ensures follows { (rooms : List Room) (shape : FastShape) (y : model.Device) → Ready bus.now rooms shape self.old y (meaning.Loads (name_at self.old.registers.names into) (place_meant place)) → Follows bus.now shape shape result (acts self.old.filler self.old.capacity (meaning.Loads (name_at self.old.registers.names into) (place_meant place)) y) self.new }
        ensures same { Same self.old self.new }
    {
        match load(&mut self.memory, bus, place) {
            Ok(value) => {
                self.registers.keep(into, value);
                Ok(())
            }
            Err(kind) => Err(kind),
        }
    }

    /// Puts a number into a place.
    fn store<G: Gate>(
        &mut self,
        bus: &Bus,
        gate: &G,
        value: i64,
        place: Place,
    ) -> Result<(), FaultKind>
        requires ready { (rooms : List Room) × (shape : FastShape) × (y : model.Device) × Ready bus.now rooms shape self.old y (meaning.Stores (meaning.Number value) (place_meant place)) }
        ensures follows { (rooms : List Room) (shape : FastShape) (y : model.Device) → Ready bus.now rooms shape self.old y (meaning.Stores (meaning.Number value) (place_meant place)) → Follows bus.now shape shape result (acts self.old.filler self.old.capacity (meaning.Stores (meaning.Number value) (place_meant place)) y) self.new }
        ensures same { Same self.old self.new }
    {
        gate.before_store();
        let done = store(&mut self.memory, bus, place, value);
        gate.after_store();
        done
    }

    /// Makes a fast memref live, each cell with the filler.
    fn allocate(
        &mut self,
        bus: &Bus,
        number: u32,
        element: Element,
        sizes: &[u32],
    ) -> Result<(), FaultKind>
        requires ready { (rooms : List Room) × (shape : FastShape) × (y : model.Device) × Ready bus.now rooms shape self.old y (meaning.Allocates number element sizes.now) }
        ensures follows { (rooms : List Room) (shape : FastShape) (y : model.Device) → Ready bus.now rooms shape self.old y (meaning.Allocates number element sizes.now) → Follows bus.now shape (with_allocated shape number) result (acts self.old.filler self.old.capacity (meaning.Allocates number element sizes.now) y) self.new }
        ensures same { Same self.old self.new }
    {
        let bytes = bytes_of(element, sizes);
        let filler = wrap(self.filler, element);
        self.memory
            .allocate(bus, number, bytes, filler, self.capacity)
    }

    /// Releases a fast memref.
    fn release(
        &mut self,
        bus: &Bus,
        number: u32,
        element: Element,
        sizes: &[u32],
    ) -> Result<(), FaultKind>
        requires ready { (rooms : List Room) × (shape : FastShape) × (y : model.Device) × Ready bus.now rooms shape self.old y (meaning.Releases number element sizes.now) }
        ensures follows { (rooms : List Room) (shape : FastShape) (y : model.Device) → Ready bus.now rooms shape self.old y (meaning.Releases number element sizes.now) → Follows bus.now shape (with_released shape number) result (acts self.old.filler self.old.capacity (meaning.Releases number element sizes.now) y) self.new }
        ensures same { Same self.old self.new }
    {
        let bytes = bytes_of(element, sizes);
        self.memory.release(bus, number, bytes)
    }

    /// Releases tags.
    fn release_tags(&mut self, bus: &Bus, first: u32, count: u32) -> Result<(), FaultKind>
        ensures follows { (rooms : List Room) (shape : FastShape) (y : model.Device) → Ready bus.now rooms shape self.old y (meaning.ReleasesTags first count) → Follows bus.now shape shape result (acts self.old.filler self.old.capacity (meaning.ReleasesTags first count) y) self.new }
        ensures same { Same self.old self.new }
    {
        self.memory.release_tags(bus, first, count)
    }

    /// Starts a transfer.
    fn start(&mut self, bus: &Bus, transfer: Transfer) -> Result<(), FaultKind>
        requires ready { (rooms : List Room) × (shape : FastShape) × (y : model.Device) × Ready bus.now rooms shape self.old y (meaning.Starts transfer) }
        ensures follows { (rooms : List Room) (shape : FastShape) (y : model.Device) → Ready bus.now rooms shape self.old y (meaning.Starts transfer) → Follows bus.now shape shape result (acts self.old.filler self.old.capacity (meaning.Starts transfer) y) self.new }
        ensures same { Same self.old self.new }
    {
        self.memory.start(bus, transfer)
    }

    /// Waits for the transfer of a tag.
    fn wait<R: Wait, G: Gate>(
        &mut self,
        rt: &R,
        bus: &Bus,
        gate: &G,
        tag: u32,
        count: u64,
    ) -> Result<(), FaultKind>
        requires ready { (rooms : List Room) × (shape : FastShape) × (y : model.Device) × Ready bus.now rooms shape self.old y (meaning.Waits tag count) }
        ensures follows { (rooms : List Room) (shape : FastShape) (y : model.Device) → Ready bus.now rooms shape self.old y (meaning.Waits tag count) → Follows bus.now shape shape result (acts self.old.filler self.old.capacity (meaning.Waits tag count) y) self.new }
        ensures same { Same self.old self.new }
    {
        self.memory.wait(rt, bus, gate, tag, count)
    }

    /// Gives a name a number.
    fn set(&mut self, bus: &Bus, into: u32, value: i64)
        requires inside { into < length self.old.registers.names }
        ensures follows { (rooms : List Room) (shape : FastShape) (y : model.Device) → Ready bus.now rooms shape self.old y (meaning.Sets (name_at self.old.registers.names into) value) → Follows bus.now shape shape (Ok tt) (acts self.old.filler self.old.capacity (meaning.Sets (name_at self.old.registers.names into) value) y) self.new }
        ensures same { Same self.old self.new }
    {
        self.registers.keep(into, value);
    }

    /// Takes what an action comes to.
    ///
    /// # Errors
    ///
    /// The fault of the action. The memories are then as before.
    pub(crate) fn act<R: Wait, G: Gate>(
        &mut self,
        rt: &R,
        bus: &Bus,
        gate: &G,
        effect: Effect<'_>,
    ) -> Result<(), FaultKind>
        requires inside { EffectIn (length self.old.registers.names) effect }
        requires ready { (rooms : List Room) × (shape : FastShape) × (y : model.Device) × Ready bus.now rooms shape self.old y (effect_meant self.old.registers.names effect) }
        ensures follows { (rooms : List Room) (shape : FastShape) (y : model.Device) → Ready bus.now rooms shape self.old y (effect_meant self.old.registers.names effect.entry) → Follows bus.now shape (shape_after shape (effect_meant self.old.registers.names effect.entry)) result (acts self.old.filler self.old.capacity (effect_meant self.old.registers.names effect.entry) y) self.new }
        ensures same { Same self.old self.new }
    {
        match effect {
            Effect::Nothing => Ok(()),
            Effect::Sets { into, value } => {
                self.set(bus, into, value);
                Ok(())
            }
            Effect::Loads { into, place } => self.load(bus, into, place),
            Effect::Stores { value, place } => self.store(bus, gate, value, place),
            Effect::Allocates {
                number,
                element,
                sizes,
            } => self.allocate(bus, number, element, sizes),
            Effect::Releases {
                number,
                element,
                sizes,
            } => self.release(bus, number, element, sizes),
            Effect::ReleasesTags { first, count } => self.release_tags(bus, first, count),
            Effect::Starts(transfer) => self.start(bus, transfer),
            Effect::Waits { tag, count } => self.wait(rt, bus, gate, tag, count),
            Effect::Faults(kind) => Err(kind),
        }
    }
}
