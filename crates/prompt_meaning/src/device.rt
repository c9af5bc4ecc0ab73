// The registers and memories of a run, and what an effect does to them.
ghost use Rattle.std.specs.Prelude.{◌≡◌, ℕ, ◌+◌, ◌-◌, ◌<◌, ◌≤◌, ◌^◌, List, length};
ghost use Rattle.bus_model.specs.Copies.{moved_in, moved_out};
ghost use Rattle.prompt_semantics.specs.Device.{put_half};
ghost use Rattle.direct_meaning.specs.Action as meaning;
ghost use Rattle.direct_meaning.specs.Direct.{End};
ghost use Rattle.prompt_semantics.specs.Prompt.{acts, prompt_step, refused, prompt_load, prompt_store, prompt_alloc, prompt_start, wait_on};
ghost use Rattle.prompt_semantics.specs.Device.{has_started, record_of};
ghost use Rattle.prompt_meaning.specs.Steps.{prompt_release, copied};
ghost use Rattle.walk_program.specs.Names.{name_at};
ghost use Rattle.walk_actions.specs.Meant.{place_meant};
ghost use Rattle.run_parts.specs.Effects.{effect_meant, EffectIn};
ghost use Rattle.prompt_laws.specs.Rooms.{Room, room_of, room_at};
ghost use Rattle.prompt_laws.specs.Costs.{cost};
ghost use Rattle.prompt_laws.specs.Reaches.{SizesFit, FlightsFit, Reaches};
ghost use Rattle.prompt_meaning.specs.Held.{device_at, PlaceReached, TransferReached, Reached, Same};
ghost use Rattle.prompt_meaning.specs.Memrefs.{halves_at, AreRooms};
ghost use Rattle.prompt_meaning.specs.Takes.{Takes, TakesWithin};

use crate::fast::{FastMemref, cell_of, fill_all, put_cell};
use affine_ast::Element;
use bus_model::{FaultKind, Transfer};
use fast_rooms::{bytes_of, wrap};
use run_parts::{Effect, Registers};
use transfer_records::{
    find, has_away, has_started, is_away, load_races, start_races, store_races,
};
use walk_actions::Place;

/// The values of names, the slow memory, the cells of the fast memrefs by number, the transfers that are started and not yet waited for,
/// and the numbers of a run so far.
#[derive(Drop)]
pub(crate) struct Device<'p> {
    pub(crate) registers: Registers<'p>,
    pub(crate) slow: Vec<i64>,
    pub(crate) fasts: Vec<FastMemref>,
    pub(crate) outstanding: Vec<Transfer>,
    pub(crate) filler: i64,
    pub(crate) capacity: u64,
    pub(crate) live: u64,
    pub(crate) actions: u64,
    pub(crate) engine_steps: u64,
    pub(crate) peak: u64,
}

/// Copies all elements of a transfer into its half.
fn copy_in(transfer: &Transfer, slow: &[i64], fasts: &mut [FastMemref])
    requires { TransferReached (length slow.now) transfer.now fasts.old }
    ensures halves { halves_at fasts.new ≡ put_half (halves_at fasts.old) transfer.now.fast transfer.now.half (moved_in transfer.now slow.now (halves_at fasts.old transfer.now.fast transfer.now.half)) }
    ensures rooms { (rooms : List Room) → AreRooms rooms fasts.old → AreRooms rooms fasts.new }
{
    for element in 0..transfer.count {
        let value = slow[transfer.slow(element) as usize];
        put_cell(
            fasts,
            transfer.fast,
            transfer.half,
            transfer.offset as usize + element as usize,
            value,
        );
    }
}

/// Copies all elements of a transfer out of its half.
fn copy_out(transfer: &Transfer, fasts: &[FastMemref], slow: &mut [i64])
    requires { TransferReached (length slow.old) transfer.now fasts.now }
    ensures { slow.new ≡ moved_out transfer.now (halves_at fasts.now transfer.now.fast transfer.now.half) slow.old }
{
    for element in 0..transfer.count {
        let cell = transfer.offset as usize + element as usize;
        let value = cell_of(fasts, transfer.fast, transfer.half, cell);
        slow[transfer.slow(element) as usize] = value;
    }
}

impl<'p> Device<'p> {
    /// Gives a name the number at a place.
    fn load(&mut self, into: u32, place: Place) -> Result<(), FaultKind>
        requires inside { into < length self.old.registers.names }
        requires place { PlaceReached self.old.slow.items self.old.fasts.items (place_meant place) }
        requires flights { (size : ℕ) × FlightsFit size self.old.outstanding.items }
        ensures takes { Takes result (prompt_load (name_at self.old.registers.names into) (place_meant place) (device_at self.old)) (device_at self.new) }
        ensures fasts { self.new.fasts ≡ self.old.fasts }
        ensures same { Same self.old self.new }
    {
        let value = match place {
            Place::Slow(place) => {
                if load_races(self.outstanding.as_slice(), place) {
                    return Err(FaultKind::Race);
                }
                self.slow[place as usize]
            }
            Place::Fast { number, half, cell } => {
                if is_away(self.outstanding.as_slice(), number, half) {
                    return Err(FaultKind::Touched);
                }
                cell_of(self.fasts.as_slice(), number, half, cell as usize)
            }
            Place::Outside => return Err(FaultKind::Bounds),
        };
        self.registers.keep(into, value);
        Ok(())
    }

    /// Puts a number into a place.
    fn store(&mut self, value: i64, place: Place) -> Result<(), FaultKind>
        requires place { PlaceReached self.old.slow.items self.old.fasts.items (place_meant place) }
        requires flights { (size : ℕ) × FlightsFit size self.old.outstanding.items }
        ensures takes { Takes result (prompt_store value (place_meant place) (device_at self.old)) (device_at self.new) }
        ensures rooms { (rooms : List Room) → AreRooms rooms self.old.fasts.items → AreRooms rooms self.new.fasts.items }
        ensures same { Same self.old self.new }
    {
        match place {
            Place::Slow(place) => {
                if store_races(self.outstanding.as_slice(), place) {
                    return Err(FaultKind::Race);
                }
                self.slow[place as usize] = value;
                Ok(())
            }
            Place::Fast { number, half, cell } => {
                if is_away(self.outstanding.as_slice(), number, half) {
                    return Err(FaultKind::Touched);
                }
                put_cell(
                    self.fasts.as_mut_slice(),
                    number,
                    half,
                    cell as usize,
                    value,
                );
                Ok(())
            }
            Place::Outside => Err(FaultKind::Bounds),
        }
    }

    /// Makes a fast memref live, each cell with the filler.
    fn allocate(&mut self, number: u32, element: Element, sizes: &[u32]) -> Result<(), FaultKind>
        requires reached { Reached self.old (meaning.Allocates number element sizes.now) }
        ensures takes { (rooms : List Room) → AreRooms rooms self.old.fasts.items → room_at rooms number ≡ room_of element sizes.now → TakesWithin rooms result (prompt_alloc self.old.filler self.old.capacity number element sizes.now (device_at self.old)) (device_at self.new) }
        ensures rooms { (rooms : List Room) → AreRooms rooms self.old.fasts.items → AreRooms rooms self.new.fasts.items }
        ensures same { Same self.old self.new }
    {
        let bytes = bytes_of(element, sizes);
        if bytes > self.capacity - self.live {
            return Err(FaultKind::Capacity);
        }
        let value = wrap(self.filler, element);
        fill_all(self.fasts.as_mut_slice(), number, value);
        self.live += bytes;
        self.peak = self.peak.max(self.live);
        Ok(())
    }

    /// Releases a fast memref.
    fn release(&mut self, number: u32, element: Element, sizes: &[u32]) -> Result<(), FaultKind>
        requires { SizesFit sizes.now }
        ensures takes { Takes result (prompt_release number element sizes.now (device_at self.old)) (device_at self.new) }
        ensures fasts { self.new.fasts ≡ self.old.fasts }
        ensures same { Same self.old self.new }
    {
        if has_away(self.outstanding.as_slice(), number) {
            return Err(FaultKind::Touched);
        }
        self.live = self.live.saturating_sub(bytes_of(element, sizes));
        Ok(())
    }

    /// Starts a transfer: all its elements are copied, and it is recorded.
    fn start(&mut self, transfer: Transfer) -> Result<(), FaultKind>
        requires reached { Reached self.old (meaning.Starts transfer) }
        ensures takes { Takes result (prompt_start transfer (device_at self.old)) (device_at self.new) }
        ensures rooms { (rooms : List Room) → AreRooms rooms self.old.fasts.items → AreRooms rooms self.new.fasts.items }
        ensures same { Same self.old self.new }
    {
        if let Some(_) = find(self.outstanding.as_slice(), transfer.tag) {
            return Err(FaultKind::Tag);
        }
        if is_away(self.outstanding.as_slice(), transfer.fast, transfer.half) {
            return Err(FaultKind::Touched);
        }
        if start_races(self.outstanding.as_slice(), &transfer) {
            return Err(FaultKind::Race);
        }
        self.copy(&transfer);
        self.outstanding.push_reserved(transfer);
        self.engine_steps += transfer.count as u64 + 2;
        Ok(())
    }

    /// Copies all elements of a transfer, in its direction.
    fn copy(&mut self, transfer: &Transfer)
        requires { TransferReached (length self.old.slow.items) transfer.now self.old.fasts.items }
        ensures copied { device_at self.new ≡ copied transfer.now (device_at self.old) }
        ensures rooms { (rooms : List Room) → AreRooms rooms self.old.fasts.items → AreRooms rooms self.new.fasts.items }
        ensures same { Same self.old self.new }
    {
        if transfer.incoming {
            copy_in(transfer, self.slow.as_slice(), self.fasts.as_mut_slice());
        } else {
            copy_out(transfer, self.fasts.as_slice(), self.slow.as_mut_slice());
        }
    }

    /// Waits for a tag's transfer, which is done.
    fn wait(&mut self, tag: u32, count: u64) -> Result<(), FaultKind>
        ensures takes { Takes result (wait_on (record_of tag self.old.outstanding.items) tag count (device_at self.old)) (device_at self.new) }
        ensures fasts { self.new.fasts ≡ self.old.fasts }
        ensures same { Same self.old self.new }
    {
        match find(self.outstanding.as_slice(), tag) {
            None => Err(FaultKind::Tag),
            Some(place) => {
                if self.outstanding[place].count as u64 != count {
                    return Err(FaultKind::Shape);
                }
                self.outstanding.remove(place);
                Ok(())
            }
        }
    }

    /// Releases tags.
    fn release_tags(&mut self, first: u32, count: u32) -> Result<(), FaultKind>
        ensures takes { Takes result (refused (has_started self.old.outstanding.items first count) FaultKind.Tag (device_at self.old) (End (device_at self.old))) (device_at self.new) }
        ensures fasts { self.new.fasts ≡ self.old.fasts }
        ensures same { Same self.old self.new }
    {
        if has_started(self.outstanding.as_slice(), first, count) {
            return Err(FaultKind::Tag);
        }
        Ok(())
    }
    /// Takes what an action comes to.
    #[tactic(auto, unfolding(prompt_semantics::specs::Prompt::acts, direct_meaning::specs::Direct::direct_step, direct_meaning::specs::Direct::read))]
    fn take(&mut self, effect: Effect<'_>) -> Result<(), FaultKind>
        requires inside { EffectIn (length self.old.registers.names) effect }
        requires reached { Reached self.old (effect_meant self.old.registers.names effect) }
        ensures takes { (rooms : List Room) → AreRooms rooms self.old.fasts.items → Reaches rooms (effect_meant self.old.registers.names effect.entry) (device_at self.old) → TakesWithin rooms result (acts self.old.filler self.old.capacity (effect_meant self.old.registers.names effect.entry) (device_at self.old)) (device_at self.new) }
        ensures rooms { (rooms : List Room) → AreRooms rooms self.old.fasts.items → AreRooms rooms self.new.fasts.items }
        ensures same { Same self.old self.new }
    {
        match effect {
            Effect::Nothing => Ok(()),
            Effect::Sets { into, value } => {
                self.registers.keep(into, value);
                Ok(())
            }
            Effect::Loads { into, place } => self.load(into, place),
            Effect::Stores { value, place } => self.store(value, place),
            Effect::Allocates {
                number,
                element,
                sizes,
            } => self.allocate(number, element, sizes),
            Effect::Releases {
                number,
                element,
                sizes,
            } => self.release(number, element, sizes),
            Effect::ReleasesTags { first, count } => self.release_tags(first, count),
            Effect::Starts(transfer) => self.start(transfer),
            Effect::Waits { tag, count } => self.wait(tag, count),
            Effect::Faults(kind) => Err(kind),
        }
    }

    /// Takes what an action comes to, and counts it.
    ///
    /// # Errors
    ///
    /// The fault of the action, which counts too. The memories are then as before.
    pub(crate) fn act(&mut self, effect: Effect<'_>) -> Result<(), FaultKind>
        requires inside { EffectIn (length self.old.registers.names) effect }
        requires reached { Reached self.old (effect_meant self.old.registers.names effect) }
        requires few { self.old.actions + self.old.engine_steps + cost (effect_meant self.old.registers.names effect) ≤ 2 ^ 60 }
        ensures takes { (rooms : List Room) → AreRooms rooms self.old.fasts.items → Reaches rooms (effect_meant self.old.registers.names effect.entry) (device_at self.old) → TakesWithin rooms result (prompt_step self.old.filler self.old.capacity (effect_meant self.old.registers.names effect.entry) (device_at self.old)) (device_at self.new) }
        ensures rooms { (rooms : List Room) → AreRooms rooms self.old.fasts.items → AreRooms rooms self.new.fasts.items }
        ensures same { Same self.old self.new }
    {
        self.actions += 1;
        self.take(effect)
    }
}
