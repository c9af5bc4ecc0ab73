// Loads and stores, by their places.
ghost use Rattle.std.specs.Prelude.{◌≡◌, List};
ghost use Rattle.prompt_laws.specs.Rooms.{Room};
ghost use Rattle.prompt_semantics.specs.Device as model;
ghost use Rattle.prompt_semantics.specs.Prompt.{prompt_store};
ghost use Rattle.overlap_memory.specs.Tied.{FastShape, Follows, Gives};
ghost use Rattle.walk_actions.specs.Meant.{place_meant};
ghost use Rattle.overlap_runner.specs.Held.{PlaceReached};

use bus_model::FaultKind;
use overlap_memory::Memory;
use tag_table::Bus;
use walk_actions::Place;

/// The number at a place.
pub(crate) fn load(memory: &mut Memory, bus: &Bus, place: Place) -> Result<i64, FaultKind>
    requires reached { (rooms : List Room) × (shape : FastShape) × (y : model.Device) × PlaceReached bus.now rooms shape memory.old y (place_meant place) }
    ensures gives { (rooms : List Room) (shape : FastShape) (y : model.Device) → PlaceReached bus.now rooms shape memory.old y (place_meant place) → Gives result (place_meant place) y }
    ensures same { memory.new ≡ memory.old }
{
    match place {
        Place::Slow(place) => memory.load_slow(bus, place),
        Place::Fast { number, half, cell } => memory.load_fast(bus, number, half, cell),
        Place::Outside => Err(FaultKind::Bounds),
    }
}

/// Puts a number into a place.
pub(crate) fn store(
    memory: &mut Memory,
    bus: &Bus,
    place: Place,
    value: i64,
) -> Result<(), FaultKind>
    requires reached { (rooms : List Room) × (shape : FastShape) × (y : model.Device) × PlaceReached bus.now rooms shape memory.old y (place_meant place) }
    ensures follows { (rooms : List Room) (shape : FastShape) (y : model.Device) → PlaceReached bus.now rooms shape memory.old y (place_meant place) → Follows bus.now shape result (prompt_store value (place_meant place) y) memory.new }
{
    match place {
        Place::Slow(place) => memory.store_slow(bus, place, value),
        Place::Fast { number, half, cell } => memory.store_fast(bus, number, half, cell, value),
        Place::Outside => Err(FaultKind::Bounds),
    }
}
