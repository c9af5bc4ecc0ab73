// The memory, and what actions do to it.
ghost use Rattle.std.specs.Prelude.{◌≡◌, [], List, ℕ, ℤ, ◌<◌, ◌^◌, false, length, Some, None, IfOk};
ghost use Rattle.std.specs.List.{All, remove};
ghost use Rattle.int_ops.specs.Wrapped.{wrapped};
ghost use Rattle.affine_ast.specs.declared.types.Element.{Element as TheElement};
ghost use Rattle.bus_model.specs.declared.step.FaultKind.TheVariants.{Touched, Tag};
ghost use Rattle.fast_halves.specs.Shape.{here};
ghost use Rattle.tag_table.specs.Shapes.{IsIdle, fresh_compute};
ghost use Rattle.direct_meaning.specs.Static.{element_bits};
ghost use Rattle.direct_meaning.specs.Action.{Slow, Fast};
ghost use Rattle.direct_meaning.specs.Actions.{half_cells};
ghost use Rattle.direct_meaning.specs.Direct.{End};
ghost use Rattle.prompt_semantics.specs.Device.{Device, is_started, is_away, has_away, has_started, start_races, started};
ghost use Rattle.prompt_semantics.specs.Device.{record_of, without, bytes_of, released};
ghost use Rattle.prompt_semantics.specs.Prompt.{prompt_store, prompt_start, prompt_alloc, wait_on, refused};
ghost use Rattle.overlap_memory.specs.Tied.{Tied, FastShape, IsAllocated, HasCells, Follows, FollowsTo, Gives, CanStart};
ghost use Rattle.overlap_memory.specs.Tied.{memref_at, half_at, tag_of, with_allocated, with_released};
ghost use Rattle.overlap_memory.specs.First.{IsFirst, shape_at_first};

use crate::records::{first, forget, position};
use crate::waiting::wait_for;
use bus_model::{FaultKind, Transfer};
use dma_engine::Gate;
use fast_halves::Halves;
use std::alloc::{AllocError, Global};
use std::sync::Wait;
use tag_table::{Bus, ComputeSeat, EngineSeat, Parcel};
use transfer_records::{
    has_away, has_started, is_away, is_started, load_races, start_races, store_races,
};

/// The compute thread's memory: its seat, engine 0, the halves of each fast memref of the text, the outstanding
/// transfers in the order of their starts, and the live bytes.
#[derive(Drop)]
pub struct Memory {
    seat: ComputeSeat,
    helper: EngineSeat,
    halves: Vec<Halves>,
    records: Vec<Transfer>,
    live: u64,
}

impl Memory {
    /// The memory before the first action, with room for a record of each tag.
    pub fn new(
        alloc: Global,
        bus: &Bus,
        seat: ComputeSeat,
        helper: EngineSeat,
        halves: Vec<Halves>,
    ) -> Result<Memory, AllocError>
        requires seat { (words : List ℤ) × (seat ≡ fresh_compute bus.now.id words bus.now.tags)
            × (bus.now.words ≡ length words) × (bus.now.words < 2 ^ 32) }
        requires helper { IsIdle bus.now.id helper }
        requires halves { (number half : ℕ) → tag_of (half_at halves.items number half) ≡ None }
        requires whole { (number half : ℕ) (cells : List ℤ) → half_at halves.items number half ≡ Some (here cells)
            → length cells ≡ (memref_at halves.items number).cells }
        ensures { IfOk result (λ memory. (y : Device) → IsFirst seat.prompt y
            → Tied bus.now (shape_at_first halves.items) memory y) }
    {
        Ok(Memory {
            seat,
            helper,
            halves,
            records: Vec::with_capacity(alloc, bus.tags() as usize)?,
            live: 0,
        })
    }

    /// Starts a transfer.
    pub fn start(&mut self, bus: &Bus, transfer: Transfer) -> Result<(), FaultKind>
        requires tied { (shape : FastShape) × (y : Device) × Tied bus.now shape self.old y }
        requires can { CanStart bus.now self.old transfer }
        ensures follows { (shape : FastShape) (y : Device) → Tied bus.now shape self.old y
            → IsAllocated shape transfer.fast → HasCells shape y transfer.fast transfer.half
            → Follows bus.now shape result (prompt_start transfer y) self.new }
    {
        if is_started(self.records.as_slice(), transfer.tag) {
            return Err(FaultKind::Tag);
        }
        if is_away(self.records.as_slice(), transfer.fast, transfer.half) {
            return Err(FaultKind::Touched);
        }
        if start_races(self.records.as_slice(), &transfer) {
            return Err(FaultKind::Race);
        }
        self.begin(bus, transfer);
        Ok(())
    }

    /// Hands the half's cells over to the bus.
    fn begin(&mut self, bus: &Bus, transfer: Transfer)
        requires tied { (shape : FastShape) × (y : Device) × Tied bus.now shape self.old y
            × (is_started y.outstanding transfer.tag ≡ false)
            × (is_away y.outstanding transfer.fast transfer.half ≡ false)
            × (start_races y.outstanding transfer ≡ false) }
        requires can { CanStart bus.now self.old transfer }
        ensures tied { (shape : FastShape) (y : Device) → Tied bus.now shape self.old y
            → IsAllocated shape transfer.fast → HasCells shape y transfer.fast transfer.half
            → Tied bus.now shape self.new (started transfer y) }
    {
        let Ok(cells) = self.halves[transfer.fast as usize].lend(transfer.half, transfer.tag) else {
            unreachable!()
        };
        self.records.push_reserved(transfer);
        bus.start(
            &mut self.seat,
            transfer.tag,
            Parcel {
                transfer,
                cells,
                moved: 0,
            },
        );
    }

    /// Waits for the transfer of a tag.
    pub fn wait<R: Wait, G: Gate>(
        &mut self,
        rt: &R,
        bus: &Bus,
        gate: &G,
        tag: u32,
        count: u64,
    ) -> Result<(), FaultKind>
        requires tied { (shape : FastShape) × (y : Device) × Tied bus.now shape self.old y }
        ensures follows { (shape : FastShape) (y : Device) → Tied bus.now shape self.old y
            → Follows bus.now shape result (wait_on (record_of tag y.outstanding) tag count y) self.new }
    {
        let Some((place, transfer)) = position(self.records.as_slice(), tag) else {
            return Err(FaultKind::Tag);
        };
        if transfer.count as u64 != count {
            return Err(FaultKind::Shape);
        }
        self.collect(rt, bus, gate, tag, place, transfer);
        Ok(())
    }

    /// Takes every started transfer back, as a fault asks for before the bus is closed.
    pub fn drain<R: Wait, G: Gate>(&mut self, rt: &R, bus: &Bus, gate: &G)
        requires tied { (shape : FastShape) × (y : Device) × Tied bus.now shape self.old y }
        ensures tied { (shape : FastShape) (y : Device) → Tied bus.now shape self.old y
            → Tied bus.now shape self.new record y { outstanding = [] } }
    {
        while let Some(transfer) = first(self.records.as_slice()) {
            self.collect(rt, bus, gate, transfer.tag, 0, transfer);
        }
    }

    /// The slow words at the end: those of the prompt meaning.
    pub fn close(self, bus: Bus, engines: Vec<EngineSeat>, into: &mut [i64])
        requires tied { (shape : FastShape) × (y : Device) × Tied bus shape self y × (y.outstanding ≡ []) }
        requires engines { All (IsIdle bus.id) engines.items }
        requires length { length into.old ≡ bus.words }
        ensures { (shape : FastShape) (y : Device) → Tied bus shape self y → into.new ≡ y.state.slow }
    {
        let Memory {
            seat,
            helper,
            halves,
            records,
            live: _,
        } = self;
        drop(helper);
        drop(halves);
        drop(records);
        bus.close(seat, engines, into);
    }

    /// Takes a started transfer back.
    fn collect<R: Wait, G: Gate>(
        &mut self,
        rt: &R,
        bus: &Bus,
        gate: &G,
        tag: u32,
        place: usize,
        transfer: Transfer,
    )
        requires tied { (shape : FastShape) × (y : Device) × Tied bus.now shape self.old y }
        requires place { (place < length self.old.records.items)
            × (record_of tag self.old.records.items ≡ Some transfer)
            × (without tag self.old.records.items ≡ remove self.old.records.items place) }
        ensures tied { (shape : FastShape) (y : Device) → Tied bus.now shape self.old y
            → Tied bus.now shape self.new record y { outstanding = without tag y.outstanding } }
        ensures fewer { length self.new.records.items < length self.old.records.items }
    {
        forget(&mut self.records, place);
        gate.before_collect(tag);
        let parcel = wait_for(rt, bus, gate, &mut self.seat, &mut self.helper, tag);
        self.halves[transfer.fast as usize].accept(transfer.half, parcel.cells);
    }

    /// The number at a slow place.
    pub fn load_slow(&mut self, bus: &Bus, place: u32) -> Result<i64, FaultKind>
        requires tied { (shape : FastShape) × (y : Device) × Tied bus.now shape self.old y }
        requires place { place < bus.now.words }
        ensures gives { (shape : FastShape) (y : Device) → Tied bus.now shape self.old y → Gives result (Slow place) y }
        ensures same { self.new ≡ self.old }
    {
        if load_races(self.records.as_slice(), place) {
            return Err(FaultKind::Race);
        }
        Ok(bus.load(&mut self.seat, place))
    }

    /// Puts a number into a slow place.
    pub fn store_slow(&mut self, bus: &Bus, place: u32, value: i64) -> Result<(), FaultKind>
        requires tied { (shape : FastShape) × (y : Device) × Tied bus.now shape self.old y }
        requires place { place < bus.now.words }
        ensures follows { (shape : FastShape) (y : Device) → Tied bus.now shape self.old y
            → Follows bus.now shape result (prompt_store value (Slow place) y) self.new }
    {
        if store_races(self.records.as_slice(), place) {
            return Err(FaultKind::Race);
        }
        bus.store(&mut self.seat, place, value);
        Ok(())
    }

    /// The number in a cell of a half.
    pub fn load_fast(&self, bus: &Bus, number: u32, half: u32, cell: u32) -> Result<i64, FaultKind>
        requires tied { (shape : FastShape) × (y : Device) × Tied bus.now shape self.now y }
        requires place { (number < length self.now.halves.items)
            × (half < length (memref_at self.now.halves.items number).halves)
            × (cell < (memref_at self.now.halves.items number).cells) }
        ensures gives { (shape : FastShape) (y : Device) → Tied bus.now shape self.now y → HasCells shape y number half
            → Gives result (Fast number half cell) y }
    {
        match self.halves[number as usize].read(half, cell) {
            Ok(value) => Ok(value),
            Err(_) => Err(FaultKind::Touched),
        }
    }

    /// Puts a number into a cell of a half.
    pub fn store_fast(
        &mut self,
        bus: &Bus,
        number: u32,
        half: u32,
        cell: u32,
        value: i64,
    ) -> Result<(), FaultKind>
        requires tied { (shape : FastShape) × (y : Device) × Tied bus.now shape self.old y }
        requires place { (number < length self.old.halves.items)
            × (half < length (memref_at self.old.halves.items number).halves)
            × (cell < (memref_at self.old.halves.items number).cells) }
        ensures follows { (shape : FastShape) (y : Device) → Tied bus.now shape self.old y → HasCells shape y number half
            → Follows bus.now shape result (prompt_store value (Fast number half cell) y) self.new }
    {
        match self.halves[number as usize].write(half, cell, value) {
            Ok(()) => Ok(()),
            Err(_) => Err(FaultKind::Touched),
        }
    }

    /// Allocates a fast memref: its halves have fresh cells, where the live bytes don't pass the capacity.
    pub fn allocate(
        &mut self,
        bus: &Bus,
        number: u32,
        bytes: u64,
        filler: i64,
        capacity: u64,
    ) -> Result<(), FaultKind>
        requires tied { (shape : FastShape) × (y : Device) × Tied bus.now shape self.old y
            × (shape.rooms number ≡ None) }
        requires number { number < length self.old.halves.items }
        ensures follows { (shape : FastShape) (y : Device) → Tied bus.now shape self.old y → shape.rooms number ≡ None
            → (z : ℤ) (element : TheElement) (sizes : List ℕ) → bytes ≡ bytes_of element sizes
            → filler ≡ wrapped (element_bits element) z → shape.cells number ≡ half_cells sizes
            → FollowsTo bus.now shape (with_allocated shape number) result
            (prompt_alloc z capacity number element sizes y) self.new }
    {
        let Some(live) = self.live.checked_add(bytes) else {
            return Err(FaultKind::Capacity);
        };
        if live > capacity {
            return Err(FaultKind::Capacity);
        }
        self.halves[number as usize].refill(filler);
        self.live = live;
        Ok(())
    }

    /// Releases a fast memref, unless a half of it is away.
    pub fn release(&mut self, bus: &Bus, number: u32, bytes: u64) -> Result<(), FaultKind>
        ensures follows { (shape : FastShape) (y : Device) → Tied bus.now shape self.old y
            → (element : TheElement) (sizes : List ℕ) → bytes ≡ bytes_of element sizes
            → FollowsTo bus.now shape (with_released shape number) result
            (refused (has_away y.outstanding number) Touched y (End (released element sizes y))) self.new }
    {
        if has_away(self.records.as_slice(), number) {
            return Err(FaultKind::Touched);
        }
        self.live = self.live.saturating_sub(bytes);
        Ok(())
    }

    /// Releases tags, unless one of them is started.
    pub fn release_tags(&mut self, bus: &Bus, first: u32, count: u32) -> Result<(), FaultKind>
        ensures follows { (shape : FastShape) (y : Device) → Tied bus.now shape self.old y
            → Follows bus.now shape result (refused (has_started y.outstanding first count) Tag y (End y)) self.new }
    {
        if has_started(self.records.as_slice(), first, count) {
            return Err(FaultKind::Tag);
        }
        Ok(())
    }
}
