// The atomic steps, on the raw seats.
ghost use Rattle.std.specs.Prelude.{◌≡◌, ◌≢◌, ℕ, ℤ, ◌<◌, ◌≤◌, ◌+◌, ◌^◌, List, [], ◌∷◌, Some, None, length, true, false, MatchResult, slice_set, if◌then◌else◌};
ghost use Rattle.std.specs.Bool.{MatchBool};
ghost use Rattle.bus_model.specs.Places.{slow_place};
ghost use Rattle.bus_model.specs.Copies.{number_at};
ghost use Rattle.bus_model.specs.declared.transfer.Started.{Started};
ghost use Rattle.tag_table.specs.declared.view.ComputeView.{ComputeView};
ghost use Rattle.tag_table.specs.declared.view.EngineView.{EngineView};
ghost use Rattle.tag_table.specs.declared.view.View.TheVariants.{Compute, Engine};
ghost use Rattle.tag_table.specs.Rule.{started_at, job, FitsIn, Sized, ClearOfOut, ClearOfAll, MayGo};
ghost use Rattle.tag_table.specs.Steps.{met_more, working, holding, stored, start_in, start_out, after_collect, not_yet};

use crate::view::{Parcel, RawSeat, View, Words};
use atomic_table::Play;
use bus_model::Transfer;

const FREE: u64 = 0;

const READY: u64 = 1;

const TAKEN: u64 = 2;

const DONE: u64 = 3;

const HELD: u64 = 4;

// A load of a slow word by the compute thread.
pub(crate) struct SeesSlow;

impl Play<Option<Parcel>, View> for SeesSlow {
    ghost use Rattle.tag_table.specs.Steps.{saw_slow};

    ghost then = { saw_slow };
}

// A store of a slow word by the compute thread.
pub(crate) struct StoresSlow;

impl Play<Option<Parcel>, View> for StoresSlow {
    ghost use Rattle.tag_table.specs.Steps.{stored_slow};

    ghost then = { stored_slow };
}

// HELD over FREE: the empty slot is taken.
pub(crate) struct TakesEmpty;

impl Play<Option<Parcel>, View> for TakesEmpty {
    ghost use Rattle.tag_table.specs.Steps.{took_empty};

    ghost then = { took_empty };
}

// READY over HELD: the parcel goes home to its slot.
pub(crate) struct Starts;

impl Play<Option<Parcel>, View> for Starts {
    ghost use Rattle.tag_table.specs.Steps.{started};

    ghost then = { started };
}

// READY exchanged for TAKEN: an engine takes the parcel.
pub(crate) struct Takes;

impl Play<Option<Parcel>, View> for Takes {
    ghost use Rattle.tag_table.specs.Steps.{took};

    ghost then = { took };
}

// A load of a slow word by an engine.
pub(crate) struct MovesIn;

impl Play<Option<Parcel>, View> for MovesIn {
    ghost use Rattle.tag_table.specs.Steps.{moved_one_in};

    ghost then = { moved_one_in };
}

// A store of a slow word by an engine.
pub(crate) struct MovesOut;

impl Play<Option<Parcel>, View> for MovesOut {
    ghost use Rattle.tag_table.specs.Steps.{moved_one_out};

    ghost then = { moved_one_out };
}

// DONE over TAKEN: the parcel goes home.
pub(crate) struct Gives;

impl Play<Option<Parcel>, View> for Gives {
    ghost use Rattle.tag_table.specs.Steps.{gave};

    ghost then = { gave };
}

// DONE exchanged for HELD: the compute thread takes the parcel.
pub(crate) struct TakesDone;

impl Play<Option<Parcel>, View> for TakesDone {
    ghost use Rattle.tag_table.specs.Steps.{took_done};

    ghost then = { took_done };
}

// FREE over HELD: the empty slot goes home.
pub(crate) struct Frees;

impl Play<Option<Parcel>, View> for Frees {
    ghost use Rattle.tag_table.specs.Steps.{freed};

    ghost then = { freed };
}

// The prompt word.
pub(crate) fn load_slow(words: &Words, seat: &mut RawSeat, tags: u32, word: u32) -> i64
    requires seat { (seat.old.table_id ≡ words.now.table_id) × Sized words.now.table_id words.now.key tags }
    requires word { word < length words.now.key.prompt.items }
    requires view { (v : ComputeView) × (seat.old.me.0 ≡ Compute v) × ClearOfOut v.tags word }
    ensures same { (seat.new.table_id ≡ seat.old.table_id) × (seat.new.id ≡ seat.old.id) × (seat.new.me ≡ seat.old.me) }
    ensures value { (v : ComputeView) → seat.old.me.0 ≡ Compute v → result ≡ number_at v.prompt word }
{
    words
        .load::<SeesSlow>(seat, tags as usize + word as usize)
        .cast_signed()
}

pub(crate) fn store_slow(words: &Words, seat: &mut RawSeat, tags: u32, word: u32, value: i64)
    requires seat { (seat.old.table_id ≡ words.now.table_id) × Sized words.now.table_id words.now.key tags }
    requires word { word < length words.now.key.prompt.items }
    requires view { (v : ComputeView) × (seat.old.me.0 ≡ Compute v) × (v.held ≡ None) × ClearOfAll v.tags word }
    ensures same { (seat.new.table_id ≡ seat.old.table_id) × (seat.new.id ≡ seat.old.id) }
    ensures stored { (v : ComputeView) → seat.old.me.0 ≡ Compute v → seat.new.me ≡ (stored v word value, seat.old.me.1) }
{
    words.store::<StoresSlow>(seat, tags as usize + word as usize, value.cast_unsigned());
}

// Takes the empty slot of a tag that is free.
pub(crate) fn hold(words: &Words, seat: &mut RawSeat, tags: u32, tag: u32)
    requires seat { (seat.old.table_id ≡ words.now.table_id) × Sized words.now.table_id words.now.key tags }
    requires tag { tag < tags }
    requires view { (v : ComputeView) × (seat.old.me ≡ (Compute v, [])) × (v.held ≡ None) × (started_at v.tags tag ≡ None) }
    ensures same { (seat.new.table_id ≡ seat.old.table_id) × (seat.new.id ≡ seat.old.id) }
    ensures held { (v : ComputeView) → seat.old.me.0 ≡ Compute v → seat.new.me ≡ (holding v (Some tag), (tag, None) ∷ []) }
{
    words.store::<TakesEmpty>(seat, tag as usize, HELD);
}

// The slot that the seat holds gets the parcel, and the tag is ready.
pub(crate) fn publish(words: &Words, seat: &mut RawSeat, tags: u32, tag: u32, parcel: Parcel)
    requires seat { (seat.old.table_id ≡ words.now.table_id) × Sized words.now.table_id words.now.key tags }
    requires tag { tag < tags }
    requires view { (v : ComputeView) × (seat.old.me ≡ (Compute v, (tag, None) ∷ [])) × (v.held ≡ Some tag) × (started_at v.tags tag ≡ None) × MayGo (length words.now.key.prompt.items) v.tags parcel }
    ensures same { (seat.new.table_id ≡ seat.old.table_id) × (seat.new.id ≡ seat.old.id) }
    ensures into { (v : ComputeView) → seat.old.me.0 ≡ Compute v → parcel.transfer.incoming ≡ true → seat.new.me ≡ (start_in v tag parcel.transfer parcel.cells.items, []) }
    ensures out { (v : ComputeView) → seat.old.me.0 ≡ Compute v → parcel.transfer.incoming ≡ false → seat.new.me ≡ (start_out v tag parcel.transfer parcel.cells.items, []) }
{
    match words.exchange(seat, tag as usize, Some(parcel)) {
        None => {}
        Some(_) => unreachable!(),
    }
    words.store::<Starts>(seat, tag as usize, READY);
}

pub(crate) fn start(words: &Words, seat: &mut RawSeat, tags: u32, tag: u32, parcel: Parcel)
    requires seat { (seat.old.table_id ≡ words.now.table_id) × Sized words.now.table_id words.now.key tags }
    requires tag { tag < tags }
    requires view { (v : ComputeView) × (seat.old.me ≡ (Compute v, [])) × (v.held ≡ None) × (started_at v.tags tag ≡ None) × MayGo (length words.now.key.prompt.items) v.tags parcel }
    ensures same { (seat.new.table_id ≡ seat.old.table_id) × (seat.new.id ≡ seat.old.id) }
    ensures into { (v : ComputeView) → seat.old.me.0 ≡ Compute v → parcel.transfer.incoming ≡ true → seat.new.me ≡ (start_in v tag parcel.transfer parcel.cells.items, []) }
    ensures out { (v : ComputeView) → seat.old.me.0 ≡ Compute v → parcel.transfer.incoming ≡ false → seat.new.me ≡ (start_out v tag parcel.transfer parcel.cells.items, []) }
{
    hold(words, seat, tags, tag);
    publish(words, seat, tags, tag, parcel);
}

// The parcel of a tag that is ready, or the word that was found.
pub(crate) fn take_tag(
    words: &Words,
    seat: &mut RawSeat,
    tags: u32,
    tag: u32,
) -> Result<Parcel, u64>
    requires seat { (seat.old.table_id ≡ words.now.table_id) × Sized words.now.table_id words.now.key tags }
    requires tag { tag < tags }
    requires view { (e : EngineView) × (seat.old.me ≡ (Engine e, [])) × (e.work ≡ None) }
    ensures same { (seat.new.table_id ≡ seat.old.table_id) × (seat.new.id ≡ seat.old.id) }
    ensures taken { (e : EngineView) → seat.old.me.0 ≡ Engine e → MatchResult result (λ p. (seat.new.me ≡ (met_more e (Some (job tag p.transfer p.cells.items p.moved)) tag 1, (tag, None) ∷ [])) × (p.moved ≡ 0) × FitsIn e.words p.transfer p.cells.items) (λ found. (found ≢ 1) × (seat.new.me ≡ (met_more e None tag found, []))) }
{
    let found = words.compare_exchange::<Takes>(seat, tag as usize, READY, TAKEN);
    if found != READY {
        return Err(found);
    }
    match words.exchange(seat, tag as usize, None) {
        Some(parcel) => Ok(parcel),
        None => unreachable!(),
    }
}

// The slow place of an element.
fn place_of(x: &Transfer, element: u32) -> usize
    requires chunk { 1 ≤ x.now.chunk }
    requires fits { slow_place x.now element < 2 ^ 64 }
    ensures { result ≡ slow_place x.now element }
{
    x.base as usize
        + (element / x.chunk) as usize * x.stride as usize
        + (element % x.chunk) as usize
}

// Loads the next element into its cell.
pub(crate) fn move_in(
    words: &Words,
    seat: &mut RawSeat,
    tags: u32,
    x: &Transfer,
    cells: &mut Vec<i64>,
    moved: u32,
)
    requires seat { (seat.old.table_id ≡ words.now.table_id) × Sized words.now.table_id words.now.key tags }
    requires view { (e : EngineView) × (t : ℕ) × (seat.old.me ≡ (Engine e, (t, None) ∷ [])) × (e.work ≡ Some (job t x.now cells.old.items moved)) }
    requires next { (moved < x.now.count) × (x.now.incoming ≡ true) }
    requires fits { FitsIn (length words.now.key.prompt.items) x.now cells.old.items × (tags + length words.now.key.prompt.items < 2 ^ 64) }
    ensures same { (seat.new.table_id ≡ seat.old.table_id) × (seat.new.id ≡ seat.old.id) × (length cells.new.items ≡ length cells.old.items) }
    ensures cell { (z : ℤ) × (cells.new.items ≡ slice_set cells.old.items (x.now.offset + moved) z) }
    ensures view { (e : EngineView) (t : ℕ) → seat.old.me ≡ (Engine e, (t, None) ∷ []) → e.work ≡ Some (job t x.now cells.old.items moved) → seat.new.me ≡ (working e (Some (job t x.now cells.new.items (moved + 1))), (t, None) ∷ []) }
{
    let place = place_of(x, moved);
    let cell = x.offset as usize + moved as usize;
    let found = words.load::<MovesIn>(seat, tags as usize + place);
    cells[cell] = found.cast_signed();
}

// Stores the next element into its word.
pub(crate) fn move_out(
    words: &Words,
    seat: &mut RawSeat,
    tags: u32,
    x: &Transfer,
    cells: &Vec<i64>,
    moved: u32,
)
    requires seat { (seat.old.table_id ≡ words.now.table_id) × Sized words.now.table_id words.now.key tags }
    requires view { (e : EngineView) × (t : ℕ) × (seat.old.me ≡ (Engine e, (t, None) ∷ [])) × (e.work ≡ Some (job t x.now cells.now.items moved)) }
    requires next { (moved < x.now.count) × (x.now.incoming ≡ false) }
    requires fits { FitsIn (length words.now.key.prompt.items) x.now cells.now.items × (tags + length words.now.key.prompt.items < 2 ^ 64) }
    ensures same { (seat.new.table_id ≡ seat.old.table_id) × (seat.new.id ≡ seat.old.id) }
    ensures view { (e : EngineView) (t : ℕ) → seat.old.me ≡ (Engine e, (t, None) ∷ []) → e.work ≡ Some (job t x.now cells.now.items moved) → seat.new.me ≡ (working e (Some (job t x.now cells.now.items (moved + 1))), (t, None) ∷ []) }
{
    let place = place_of(x, moved);
    let cell = x.offset as usize + moved as usize;
    words.store::<MovesOut>(seat, tags as usize + place, cells[cell].cast_unsigned());
}

// Moves the next element, if one is left.
pub(crate) fn move_next(words: &Words, seat: &mut RawSeat, tags: u32, parcel: &mut Parcel) -> bool
    requires seat { (seat.old.table_id ≡ words.now.table_id) × Sized words.now.table_id words.now.key tags }
    requires view { (e : EngineView) × (t : ℕ) × (seat.old.me ≡ (Engine e, (t, None) ∷ [])) × (e.work ≡ Some (job t parcel.old.transfer parcel.old.cells.items parcel.old.moved)) }
    requires fits { FitsIn (length words.now.key.prompt.items) parcel.old.transfer parcel.old.cells.items × (tags + length words.now.key.prompt.items < 2 ^ 64) }
    ensures same { (seat.new.table_id ≡ seat.old.table_id) × (seat.new.id ≡ seat.old.id) × (parcel.new.transfer ≡ parcel.old.transfer) × (length parcel.new.cells.items ≡ length parcel.old.cells.items) }
    ensures more { MatchBool result ((parcel.old.moved < parcel.old.transfer.count) × (parcel.new.moved ≡ parcel.old.moved + 1)) ((parcel.old.transfer.count ≤ parcel.old.moved) × (parcel.new.moved ≡ parcel.old.moved)) }
    ensures cells { result ≡ true → (z : ℤ) × (parcel.new.cells.items ≡ (if parcel.old.transfer.incoming then slice_set parcel.old.cells.items (parcel.old.transfer.offset + parcel.old.moved) z else parcel.old.cells.items)) }
    ensures still { result ≡ false → parcel.new.cells.items ≡ parcel.old.cells.items }
    ensures view { (e : EngineView) (t : ℕ) → seat.old.me ≡ (Engine e, (t, None) ∷ []) → e.work ≡ Some (job t parcel.old.transfer parcel.old.cells.items parcel.old.moved) → seat.new.me ≡ (working e (Some (job t parcel.new.transfer parcel.new.cells.items parcel.new.moved)), (t, None) ∷ []) }
{
    let Parcel {
        transfer,
        cells,
        moved,
    } = parcel;
    if *moved >= transfer.count {
        return false;
    }
    if transfer.incoming {
        move_in(words, seat, tags, transfer, cells, *moved);
        *moved += 1;
        return true;
    }
    move_out(words, seat, tags, transfer, cells, *moved);
    *moved += 1;
    true
}

// The slot gets the parcel, and the tag is done.
pub(crate) fn give_back(words: &Words, seat: &mut RawSeat, tags: u32, tag: u32, parcel: Parcel)
    requires seat { (seat.old.table_id ≡ words.now.table_id) × Sized words.now.table_id words.now.key tags }
    requires tag { tag < tags }
    requires view { (e : EngineView) × (seat.old.me ≡ (Engine e, (tag, None) ∷ [])) × (e.work ≡ Some (job tag parcel.transfer parcel.cells.items parcel.moved)) }
    requires moved { parcel.moved ≡ parcel.transfer.count }
    ensures same { (seat.new.table_id ≡ seat.old.table_id) × (seat.new.id ≡ seat.old.id) }
    ensures idle { (e : EngineView) → seat.old.me.0 ≡ Engine e → seat.new.me ≡ (working e None, []) }
{
    match words.exchange(seat, tag as usize, Some(parcel)) {
        None => {}
        Some(_) => unreachable!(),
    }
    words.store::<Gives>(seat, tag as usize, DONE);
}

// The parcel of a tag that is done, or the word that was found.
pub(crate) fn try_collect(
    words: &Words,
    seat: &mut RawSeat,
    tags: u32,
    tag: u32,
) -> Result<Parcel, u64>
    requires seat { (seat.old.table_id ≡ words.now.table_id) × Sized words.now.table_id words.now.key tags }
    requires tag { tag < tags }
    requires view { (v : ComputeView) × (st : Started) × (seat.old.me ≡ (Compute v, [])) × (v.held ≡ None) × (started_at v.tags tag ≡ Some st) }
    ensures same { (seat.new.table_id ≡ seat.old.table_id) × (seat.new.id ≡ seat.old.id) }
    ensures collected { (v : ComputeView) (st : Started) → seat.old.me.0 ≡ Compute v → started_at v.tags tag ≡ Some st → MatchResult result (λ p. (p.transfer ≡ st.transfer) × (p.cells.items ≡ st.list) × (p.moved ≡ st.transfer.count) × (seat.new.me ≡ (Compute (after_collect v tag), []))) (λ found. (found ≢ 3) × (seat.new.me ≡ (not_yet v tag found, []))) }
{
    let found = words.compare_exchange::<TakesDone>(seat, tag as usize, DONE, HELD);
    if found != DONE {
        return Err(found);
    }
    match words.exchange(seat, tag as usize, None) {
        Some(parcel) => {
            release(words, seat, tags, tag);
            Ok(parcel)
        }
        None => unreachable!(),
    }
}

// Gives the empty slot back.
pub(crate) fn release(words: &Words, seat: &mut RawSeat, tags: u32, tag: u32)
    requires seat { (seat.old.table_id ≡ words.now.table_id) × Sized words.now.table_id words.now.key tags }
    requires tag { tag < tags }
    requires view { (v : ComputeView) × (seat.old.me ≡ (Compute v, (tag, None) ∷ [])) × (v.held ≡ Some tag) × (started_at v.tags tag ≡ None) }
    ensures same { (seat.new.table_id ≡ seat.old.table_id) × (seat.new.id ≡ seat.old.id) }
    ensures held { (v : ComputeView) → seat.old.me.0 ≡ Compute v → seat.new.me ≡ (holding v None, []) }
{
    words.store::<Frees>(seat, tag as usize, FREE);
}
