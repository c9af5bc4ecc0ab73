// The memory, and what actions and engines do to it.
ghost use Rattle.std.specs.Prelude.{◌≡◌, ℕ, ◌<◌, ◌≤◌, true, false, List, length, Some, IfOk};
ghost use Rattle.std.specs.Bool.{MatchBool};
ghost use Rattle.std.specs.List.{All, remove};
ghost use Rattle.fast_halves.specs.Shape.{IsHere};
ghost use Rattle.bus_model.specs.Engines.{Flight, flight_of};
ghost use Rattle.direct_meaning.specs.Action.{Slow, Fast};
ghost use Rattle.prompt_semantics.specs.Device.{is_started, start_races, without};
ghost use Rattle.walk_program.specs.Names.{name_at, AreDistinct};
ghost use Rattle.walk_program.specs.Reading.{nest_of};
ghost use Rattle.walk_program.specs.Tree.{tree};
ghost use Rattle.walk_actions.specs.Meant.{meant, place_meant, NamesIn};
ghost use Rattle.run_parts.specs.Effects.{effect_meant, EffectIn};
ghost use Rattle.prompt_laws.specs.Rooms.{Room, room_of, room_at, rooms_in};
ghost use Rattle.prompt_laws.specs.Reaches.{SizesFit, FlightsFit};
ghost use Rattle.order_meaning.specs.Machine.{Core, transfers_of, is_finished, holds_up};
ghost use Rattle.order_meaning.specs.Machine.{load, store, allocate, start, wait_on, act_on};
ghost use Rattle.order_engines.specs.Flying.{flight, flights_of};
ghost use Rattle.order_memory.specs.Halves.{memref_at, CellThere, HalfHere, HalfAway};
ghost use Rattle.order_memory.specs.Tied.{Tied, IsFirst, Follows, Ends, Gives, TakesOrNot, MovesOrNot, FinishesOrNot};
ghost use Rattle.order_memory.specs.Parts.{released, tags_released, accepted};
ghost use Rattle.order_memory.specs.Reaches.{HalfIn, PlaceIn, PlaceThere, StartIn, IsOut, WaitIn, CanDo, CanTake};

use affine_ast::Element;
use bus_model::{FaultKind, Transfer};
use fast_halves::Halves;
use fast_rooms::{add_memrefs, bytes_of, wrap};
use order_engines::{Flights, Flying, place_of};
use run_parts::{Effect, Registers};
use std::alloc::{AllocError, Global};
use transfer_records::{find, has_away, has_started, load_races, start_races, store_races};
use walk_actions::{Action, Operand, Place};
use walk_program::Program;

/// The values of names, the slow list, the halves of the fast memrefs by number, the outstanding transfers in the order of
/// their starts, and beside them as they stand; and the live bytes.
#[derive(Drop)]
pub struct Memory<'p> {
    pub registers: Registers<'p>,
    pub slow: Vec<i64>,
    pub halves: Vec<Halves>,
    pub records: Vec<Transfer>,
    pub flights: Flights,
    pub live: u64,
}

/// So many tags has a valid module at most, and so many transfers are outstanding at most.
const MOST_TAGS: usize = 65536;

/// Whether all of a transfer is moved, and no engine holds it any more.
fn is_finished(flying: &Flying) -> bool
    ensures { result ≡ is_finished (flight flying.now) }
{
    if flying.moved != flying.transfer.count {
        return false;
    }
    match flying.engine {
        Some(_) => false,
        None => true,
    }
}

/// Whether a wait with this count passes its tests on a transfer that isn't finished.
fn holds_up(flying: &Flying, count: u64) -> bool
    ensures { result ≡ holds_up (Some (flight flying.now)) count }
{
    if flying.transfer.count as u64 != count {
        return false;
    }
    !is_finished(flying)
}

impl<'p> Memory<'p> {
    /// The memory before the first action of a program.
    pub fn new(
        alloc: Global,
        program: &'p Program,
        slow: Vec<i64>,
    ) -> Result<Memory<'p>, AllocError>
        requires { AreDistinct program.now.names }
        ensures tied { IfOk result (λ memory. (x : Core) → IsFirst slow.items x → Tied (rooms_in (nest_of program.entry.now.names (tree program.entry.now.body))) x memory) }
        ensures names { IfOk result (λ memory. memory.registers.names ≡ program.entry.now.names) }
    {
        let mut halves = Vec::new(alloc);
        add_memrefs(alloc, program.body.as_slice(), &mut halves)?;
        let registers = Registers::new(alloc, program.names.as_slice())?;
        let records = Vec::with_capacity(alloc, MOST_TAGS)?;
        let flying = Vec::with_capacity(alloc, MOST_TAGS)?;
        let waiting = Vec::with_capacity(alloc, MOST_TAGS + 1)?;
        Ok(Memory {
            registers,
            slow,
            halves,
            records,
            flights: Flights { flying, waiting },
            live: 0,
        })
    }

    /// The number at a slow place.
    fn load_slow(&self, place: u32) -> Result<i64, FaultKind>
        requires place { place < length self.now.slow.items }
        requires flights { (size : ℕ) × FlightsFit size self.now.records.items }
        ensures { (rooms : List Room) (x : Core) → Tied rooms x self.now → Gives result (Slow place) x }
    {
        if load_races(self.records.as_slice(), place) {
            return Err(FaultKind::Race);
        }
        Ok(self.slow[place as usize])
    }

    /// The number in a cell of a half.
    fn load_fast(&self, number: u32, half: u32, cell: u32) -> Result<i64, FaultKind>
        requires { CellThere self.now.halves.items number half cell }
        ensures { (rooms : List Room) (x : Core) → Tied rooms x self.now → HalfIn rooms x number half → Gives result (Fast number half cell) x }
    {
        match self.halves[number as usize].read(half, cell) {
            Ok(value) => Ok(value),
            Err(_) => Err(FaultKind::Touched),
        }
    }

    /// The number at a place.
    fn value_at(&self, place: Place) -> Result<i64, FaultKind>
        requires place { PlaceThere self.now.slow.items self.now.halves.items (place_meant place) }
        requires flights { (size : ℕ) × FlightsFit size self.now.records.items }
        ensures { (rooms : List Room) (x : Core) → Tied rooms x self.now → PlaceIn rooms x (place_meant place) → Gives result (place_meant place) x }
    {
        match place {
            Place::Slow(place) => self.load_slow(place),
            Place::Fast { number, half, cell } => self.load_fast(number, half, cell),
            Place::Outside => Err(FaultKind::Bounds),
        }
    }

    /// Gives a name the number at a place.
    fn load(&mut self, into: u32, place: Place) -> Result<(), FaultKind>
        requires inside { into < length self.old.registers.names }
        requires place { PlaceThere self.old.slow.items self.old.halves.items (place_meant place) }
        requires flights { (size : ℕ) × FlightsFit size self.old.records.items }
        ensures follows { (rooms : List Room) (x : Core) → Tied rooms x self.old → PlaceIn rooms x (place_meant place) → Follows rooms result (load (name_at self.old.registers.names into) (place_meant place) x) self.new }
        ensures names { self.new.registers.names ≡ self.old.registers.names }
    {
        match self.value_at(place) {
            Ok(value) => {
                self.registers.keep(into, value);
                Ok(())
            }
            Err(kind) => Err(kind),
        }
    }

    /// Puts a number into a slow place.
    fn store_slow(&mut self, value: i64, place: u32) -> Result<(), FaultKind>
        requires place { place < length self.old.slow.items }
        requires flights { (size : ℕ) × FlightsFit size self.old.records.items }
        ensures follows { (rooms : List Room) (x : Core) → Tied rooms x self.old → Follows rooms result (store value (Slow place) x) self.new }
        ensures registers { self.new.registers ≡ self.old.registers }
    {
        if store_races(self.records.as_slice(), place) {
            return Err(FaultKind::Race);
        }
        self.slow[place as usize] = value;
        Ok(())
    }

    /// Puts a number into a cell of a half.
    fn store_fast(&mut self, value: i64, number: u32, half: u32, cell: u32) -> Result<(), FaultKind>
        requires { CellThere self.old.halves.items number half cell }
        ensures follows { (rooms : List Room) (x : Core) → Tied rooms x self.old → HalfIn rooms x number half → Follows rooms result (store value (Fast number half cell) x) self.new }
        ensures registers { self.new.registers ≡ self.old.registers }
    {
        match self.halves[number as usize].write(half, cell, value) {
            Ok(()) => Ok(()),
            Err(_) => Err(FaultKind::Touched),
        }
    }

    /// Puts a number into a place.
    fn store(&mut self, value: i64, place: Place) -> Result<(), FaultKind>
        requires place { PlaceThere self.old.slow.items self.old.halves.items (place_meant place) }
        requires flights { (size : ℕ) × FlightsFit size self.old.records.items }
        ensures follows { (rooms : List Room) (x : Core) → Tied rooms x self.old → PlaceIn rooms x (place_meant place) → Follows rooms result (store value (place_meant place) x) self.new }
        ensures registers { self.new.registers ≡ self.old.registers }
    {
        match place {
            Place::Slow(place) => self.store_slow(value, place),
            Place::Fast { number, half, cell } => self.store_fast(value, number, half, cell),
            Place::Outside => Err(FaultKind::Bounds),
        }
    }

    /// Makes a fast memref live, each cell with the filler, where the live bytes don't pass the capacity.
    fn allocate(
        &mut self,
        number: u32,
        element: Element,
        sizes: &[u32],
        filler: i64,
        capacity: u64,
    ) -> Result<(), FaultKind>
        requires number { number < length self.old.halves.items }
        requires home { All IsHere (memref_at self.old.halves.items number).halves }
        requires sizes { SizesFit sizes.now }
        requires live { self.old.live ≤ capacity }
        ensures follows { (rooms : List Room) (x : Core) → Tied rooms x self.old → room_at rooms number ≡ room_of element sizes.now → Follows rooms result (allocate filler capacity number element sizes.now x) self.new }
        ensures registers { self.new.registers ≡ self.old.registers }
    {
        let bytes = bytes_of(element, sizes);
        if bytes > capacity - self.live {
            return Err(FaultKind::Capacity);
        }
        let value = wrap(filler, element);
        self.halves[number as usize].refill(value);
        self.live += bytes;
        Ok(())
    }

    /// Releases a fast memref, unless a half of it is away.
    fn release(&mut self, number: u32, element: Element, sizes: &[u32]) -> Result<(), FaultKind>
        requires { SizesFit sizes.now }
        ensures follows { (rooms : List Room) (x : Core) → Tied rooms x self.old → Follows rooms result (released number element sizes.now x) self.new }
        ensures registers { self.new.registers ≡ self.old.registers }
    {
        if has_away(self.records.as_slice(), number) {
            return Err(FaultKind::Touched);
        }
        self.live = self.live.saturating_sub(bytes_of(element, sizes));
        Ok(())
    }

    /// Releases tags, unless one of them is started.
    fn release_tags(&mut self, first: u32, count: u32) -> Result<(), FaultKind>
        ensures follows { (rooms : List Room) (x : Core) → Tied rooms x self.old → Follows rooms result (tags_released first count x) self.new }
        ensures registers { self.new.registers ≡ self.old.registers }
    {
        if has_started(self.records.as_slice(), first, count) {
            return Err(FaultKind::Tag);
        }
        Ok(())
    }

    /// Starts a transfer: the cells of its half are moved out, and nothing is copied.
    fn start(&mut self, transfer: Transfer) -> Result<(), FaultKind>
        requires { (rooms : List Room) × (x : Core) × Tied rooms x self.old × StartIn rooms x transfer × FlightsFit (length x.state.slow) (transfers_of x.flights) }
        ensures follows { (rooms : List Room) (x : Core) → Tied rooms x self.old → StartIn rooms x transfer → Follows rooms result (start transfer x) self.new }
        ensures registers { self.new.registers ≡ self.old.registers }
    {
        if let Some(_) = find(self.records.as_slice(), transfer.tag) {
            return Err(FaultKind::Tag);
        }
        if !self.is_here(transfer.fast, transfer.half, transfer.offset) {
            return Err(FaultKind::Touched);
        }
        if start_races(self.records.as_slice(), &transfer) {
            return Err(FaultKind::Race);
        }
        self.begin(transfer);
        Ok(())
    }

    /// Whether a half is here, told by one of its cells.
    fn is_here(&self, number: u32, half: u32, cell: u32) -> bool
        requires { CellThere self.now.halves.items number half cell }
        ensures { MatchBool result (HalfHere self.now.halves.items number half) (HalfAway self.now.halves.items number half) }
    {
        match self.halves[number as usize].read(half, cell) {
            Ok(_) => true,
            Err(_) => false,
        }
    }

    /// Moves the cells of a half out, for a transfer that is outstanding from here on.
    fn begin(&mut self, transfer: Transfer)
        requires tied { (rooms : List Room) × (x : Core) × Tied rooms x self.old × StartIn rooms x transfer × FlightsFit (length x.state.slow) (transfers_of x.flights) }
        requires idle { is_started self.old.records.items transfer.tag ≡ false }
        requires here { HalfHere self.old.halves.items transfer.fast transfer.half }
        requires free { start_races self.old.records.items transfer ≡ false }
        ensures follows { (rooms : List Room) (x : Core) → Tied rooms x self.old → StartIn rooms x transfer → Ends rooms (start transfer x) self.new }
        ensures registers { self.new.registers ≡ self.old.registers }
    {
        let Ok(cells) = self.halves[transfer.fast as usize].lend(transfer.half, transfer.tag) else {
            unreachable!()
        };
        self.records.push_reserved(transfer);
        self.flights.start(transfer, cells);
    }

    /// Whether a wait passes its tests on a transfer that isn't finished.
    pub fn holds_up(&self, tag: u32, count: u64) -> bool
        ensures { result ≡ holds_up (flight_of (flights_of self.now.flights.flying.items) tag) count }
    {
        match place_of(self.flights.flying.as_slice(), tag) {
            None => false,
            Some(place) => holds_up(&self.flights.flying[place], count),
        }
    }

    /// Waits for a tag's transfer, which is finished: its cells are moved back into its half.
    fn wait(&mut self, tag: u32, count: u64) -> Result<(), FaultKind>
        requires { (rooms : List Room) × (x : Core) × Tied rooms x self.old × WaitIn x tag count }
        ensures follows { (rooms : List Room) (x : Core) → Tied rooms x self.old → WaitIn x tag count → Follows rooms result (wait_on (flight_of x.flights tag) tag count x) self.new }
        ensures registers { self.new.registers ≡ self.old.registers }
    {
        let Some(place) = find(self.records.as_slice(), tag) else {
            return Err(FaultKind::Tag);
        };
        if self.records[place].count as u64 != count {
            return Err(FaultKind::Shape);
        }
        self.accept(tag, place);
        Ok(())
    }

    /// Takes a finished transfer off, and moves its cells back.
    fn accept(&mut self, tag: u32, place: usize)
        requires tied { (rooms : List Room) × (x : Core) × (f : Flight) × Tied rooms x self.old × (flight_of x.flights tag ≡ Some f) × (is_finished f ≡ true) × IsOut (x.halves f.transfer.fast f.transfer.half) }
        requires place { place < length self.old.records.items }
        requires left { without tag self.old.records.items ≡ remove self.old.records.items place }
        ensures tied { (rooms : List Room) (x : Core) (f : Flight) → Tied rooms x self.old → flight_of x.flights tag ≡ Some f → IsOut (x.halves f.transfer.fast f.transfer.half) → Tied rooms (accepted tag f x) self.new }
        ensures registers { self.new.registers ≡ self.old.registers }
    {
        let Some(flying) = self.flights.collect(tag) else {
            unreachable!()
        };
        self.records.remove(place);
        self.halves[flying.transfer.fast as usize].accept(flying.transfer.half, flying.cells);
    }

    /// Takes what an action comes to, once its operands are read. A wait isn't held up.
    ///
    /// # Errors
    ///
    /// The fault of the action. The memory is then as before.
    #[tactic(auto, unfolding(order_meaning::specs::Machine::act_on, direct_meaning::specs::Direct::direct_step, direct_meaning::specs::Direct::read))]
    pub fn act(&mut self, effect: Effect<'_>, filler: i64, capacity: u64) -> Result<(), FaultKind>
        requires inside { EffectIn (length self.old.registers.names) effect }
        requires can { (rooms : List Room) × (x : Core) × Tied rooms x self.old × CanDo rooms capacity (effect_meant self.old.registers.names effect) x }
        ensures follows { (rooms : List Room) (x : Core) → Tied rooms x self.old → CanDo rooms capacity (effect_meant self.old.registers.names effect.entry) x → Follows rooms result (act_on filler capacity (effect_meant self.old.registers.names effect.entry) x) self.new }
        ensures names { self.new.registers.names ≡ self.old.registers.names }
    {
        match effect {
            Effect::Nothing => Ok(()),
            Effect::Sets { into, value } => {
                self.registers.keep(into, value);
                Ok(())
            }
            Effect::Loads { into, place } => self.load(into, place),
            Effect::Stores { value, place } => self.store(value, place),
            Effect::Allocates {
                number,
                element,
                sizes,
            } => self.allocate(number, element, sizes, filler, capacity),
            Effect::Releases {
                number,
                element,
                sizes,
            } => self.release(number, element, sizes),
            Effect::ReleasesTags { first, count } => self.release_tags(first, count),
            Effect::Starts(transfer) => self.start(transfer),
            Effect::Waits { tag, count } => self.wait(tag, count),
            Effect::Faults(kind) => Err(kind),
        }
    }

    /// Takes an action, with the subscripts that stand beside it. A wait isn't held up.
    ///
    /// # Errors
    ///
    /// The fault of the action. The memory is then as before.
    pub fn do_next(
        &mut self,
        action: Action<'_>,
        subscripts: &[Operand],
        filler: i64,
        capacity: u64,
    ) -> Result<(), FaultKind>
        requires names { NamesIn (length self.old.registers.names) subscripts.now action }
        requires can { (rooms : List Room) × (x : Core) × Tied rooms x self.old × CanTake rooms capacity (meant self.old.registers.names subscripts.now action) x }
        ensures follows { (rooms : List Room) (x : Core) → Tied rooms x self.old → CanTake rooms capacity (meant self.old.registers.names subscripts.now action.entry) x → Follows rooms result (act_on filler capacity (meant self.old.registers.names subscripts.now action.entry) x) self.new }
        ensures names { self.new.registers.names ≡ self.old.registers.names }
    {
        let effect = self.registers.settle(action, subscripts);
        self.act(effect, filler, capacity)
    }

    /// An idle engine takes a tag's transfer. False, with nothing changed, where it may not.
    pub fn take(&mut self, engines: u32, engine: u32, tag: u32) -> bool
        requires { (rooms : List Room) × (x : Core) × Tied rooms x self.old }
        ensures takes { (rooms : List Room) (x : Core) → Tied rooms x self.old → TakesOrNot rooms engines engine tag result x self.new }
        ensures registers { self.new.registers ≡ self.old.registers }
    {
        self.flights.take(engines, engine, tag)
    }

    /// An engine moves the next element of its transfer. False, with nothing changed, where it may not.
    pub fn move_next(&mut self, engines: u32, engine: u32) -> bool
        requires { (rooms : List Room) × (x : Core) × Tied rooms x self.old }
        ensures moves { (rooms : List Room) (x : Core) → Tied rooms x self.old → MovesOrNot rooms engines engine result x self.new }
        ensures registers { self.new.registers ≡ self.old.registers }
    {
        self.flights
            .move_next(self.slow.as_mut_slice(), engines, engine)
    }

    /// An engine lets go of its transfer. False, with nothing changed, where it may not.
    pub fn finish(&mut self, engines: u32, engine: u32) -> bool
        requires { (rooms : List Room) × (x : Core) × Tied rooms x self.old }
        ensures finishes { (rooms : List Room) (x : Core) → Tied rooms x self.old → FinishesOrNot rooms engines engine result x self.new }
        ensures registers { self.new.registers ≡ self.old.registers }
    {
        self.flights.finish(engines, engine)
    }
}
