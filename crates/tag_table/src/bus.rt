// The bus, as callers see it.
ghost use Rattle.std.specs.Prelude.{◌≡◌, ◌≢◌, ℕ, ℤ, ◌<◌, ◌≤◌, ◌+◌, ◌^◌, [], ◌∷◌, length, map, Some, None, IfOk, IfErr, OnOk, MatchResult, FitsSigned, slice_index};
ghost use Rattle.std.specs.List.{All, range_with_len};
ghost use Rattle.std.specs.Bool.{MatchBool};
ghost use Rattle.std.specs.Mem.Slots.{slots_items, slots_len, IsFull};
ghost use mir.Syntax.{w64};
ghost use mir.Val.{to_z};
ghost use Rattle.bus_model.specs.declared.transfer.Started.{Started};
ghost use Rattle.bus_model.specs.Copies.{number_at};
ghost use Rattle.tag_table.specs.declared.view.Work.{Work};
ghost use Rattle.tag_table.specs.declared.view.View.TheVariants.{Compute};
ghost use Rattle.tag_table.specs.Rule.{started_at, ClearOfOut, ClearOfAll};
ghost use Rattle.tag_table.specs.Steps.{numbered, one_more};
ghost use Rattle.tag_table.specs.Shapes.{MayStart, NoneStarted, IsIdle, with_word, with_tag, with_work, after_start, after_move, compute_met, engine_met, fresh_compute, fresh_engine, compute_of, IsComputeMe, row_of};

use crate::seats::{ComputeSeat, EngineSeat};
use crate::steps;
use crate::view::{BusRule, Layout, Parcel, RawSeat, View, Words};
use atomic_table::{Closed, Split, Table};
use std::alloc::{AllocError, Global};
use std::marker::Model;
use thiserror::Error;

/// The slow words, the tags' words and their slots. A contract sees which bus it is, and how many slow words and tags it has.
#[derive(Drop)]
pub struct Bus {
    table: Table<Option<Parcel>, View, Layout, BusRule, Global>,
    words: usize,
    tags: u32,
}

impl Model for Bus {
    ghost use Rattle.std.specs.Prelude.{◌≡◌, ◌<◌, ◌+◌, ◌^◌, length};
    ghost use Rattle.tag_table.specs.Rule.{Sized};
    ghost use Rattle.tag_table.specs.Shapes.{BusShape};

    ghost Value = { BusShape };

    ghost view = { λ b. record { id = b.table.shared.table_id; words = b.words; tags = b.tags } };

    ghost invariant = { λ b. Sized b.table.shared.table_id b.table.shared.key b.tags × (length b.table.shared.key.prompt.items ≡ b.words) × (b.tags + b.words < 2 ^ 64) };
}

/// The tag's word, which this call's exchange met, wasn't 3 for done.
#[derive(Debug, Drop, Error)]
#[error("not done yet: the tag's word was {word}")]
pub struct NotYet {
    pub word: u64,
}

/// The tag's word, which this call's exchange met, wasn't 1 for ready.
#[derive(Debug, Drop, Error)]
#[error("not ready: the tag's word was {word}")]
pub struct NotReady {
    pub word: u64,
}

// A seat for an engine, which is idle.
struct Engines;

impl Split<View> for Engines {
    ghost use Rattle.tag_table.specs.declared.view.View.TheVariants.{Compute, Engine};
    ghost use Rattle.tag_table.specs.Steps.{one_more, new_engine};
    ghost use Rattle.tag_table.specs.Shapes.{compute_of};

    ghost left = { λ v. Compute (one_more (compute_of v)) };

    ghost right = { λ v. Engine (new_engine (compute_of v)) };
}

impl Bus {
    /// A bus whose prompt memory is these words, with all tags free, the compute thread's seat, and idle engines numbered
    /// from 0.
    pub fn new(
        alloc: Global,
        words: &[i64],
        tags: u32,
        engines: u32,
    ) -> Result<(Bus, ComputeSeat, Vec<EngineSeat>), AllocError>
        requires { 1 ≤ engines }
        ensures bus { IfOk result (λ r. (r.0.words ≡ length words.now) × (r.0.tags ≡ tags)) }
        ensures compute { IfOk result (λ r. r.1 ≡ fresh_compute r.0.id words.now tags) }
        ensures engines { IfOk result (λ r. r.2.items ≡ map (fresh_engine r.0.id) (range_with_len 0 engines)) }
    {
        let layout = Layout {
            prompt: words.to_vec(alloc)?,
            tags,
        };
        all_fit(words);
        let row = first_words(alloc, words, tags)?;
        let (table, mut seat) = Table::vacant(alloc, row.as_slice(), tags as usize, &layout)?;
        let list = engine_seats(alloc, &table.shared, &mut seat, engines)?;
        let bus = Bus {
            table,
            words: row.len() - tags as usize - 1,
            tags,
        };
        Ok((bus, ComputeSeat { seat }, list))
    }

    /// How many tags there are.
    pub fn tags(&self) -> u32
        ensures { result ≡ self.now.tags }
    {
        self.tags
    }

    /// A slow word, which is the prompt one.
    pub fn load(&self, seat: &mut ComputeSeat, word: u32) -> i64
        requires seat { seat.old.id ≡ self.now.id }
        requires word { word < self.now.words }
        requires clear { ClearOfOut seat.old.tags word }
        ensures same { seat.new ≡ seat.old }
        ensures value { result ≡ number_at seat.old.prompt word }
    {
        steps::load_slow(&self.table.shared, &mut seat.seat, self.tags, word)
    }

    /// Stores a slow word.
    pub fn store(&self, seat: &mut ComputeSeat, word: u32, value: i64)
        requires seat { seat.old.id ≡ self.now.id }
        requires word { word < self.now.words }
        requires clear { ClearOfAll seat.old.tags word }
        ensures { seat.new ≡ with_word seat.old word value }
    {
        steps::store_slow(&self.table.shared, &mut seat.seat, self.tags, word, value);
    }

    /// Hands a parcel over for a transfer. Its elements count as copied from here on.
    pub fn start(&self, seat: &mut ComputeSeat, tag: u32, parcel: Parcel)
        requires seat { seat.old.id ≡ self.now.id }
        requires tag { tag < self.now.tags }
        requires parcel { MayStart self.now.words seat.old.tags tag parcel }
        ensures { seat.new ≡ after_start seat.old tag parcel.transfer parcel.cells.items }
    {
        steps::start(&self.table.shared, &mut seat.seat, self.tags, tag, parcel);
    }

    /// Takes the parcel of a started transfer back, if an engine is done with it: all its elements are moved, and its cells
    /// are those of the prompt half.
    pub fn try_collect(&self, seat: &mut ComputeSeat, tag: u32) -> Result<Parcel, NotYet>
        requires seat { seat.old.id ≡ self.now.id }
        requires tag { tag < self.now.tags }
        requires started { (st : Started) × (started_at seat.old.tags tag ≡ Some st) }
        ensures parcel { (st : Started) → started_at seat.old.tags tag ≡ Some st → IfOk result (λ p. (p.transfer ≡ st.transfer) × (p.cells.items ≡ st.list) × (p.moved ≡ st.transfer.count)) }
        ensures not_yet { IfErr result (λ n. n.word ≢ 3) }
        ensures seat { MatchResult result (λ _. seat.new ≡ with_tag (compute_met seat.old tag 3) tag None) (λ n. seat.new ≡ compute_met seat.old tag n.word) }
    {
        match steps::try_collect(&self.table.shared, &mut seat.seat, self.tags, tag) {
            Ok(parcel) => Ok(parcel),
            Err(word) => Err(NotYet { word }),
        }
    }

    /// Gives an idle engine the transfer of a tag, if it is ready.
    pub fn try_take(&self, seat: &mut EngineSeat, tag: u32) -> Result<(), NotReady>
        requires seat { seat.old.id ≡ self.now.id }
        requires tag { tag < self.now.tags }
        requires idle { seat.old.work ≡ None }
        ensures { MatchResult result
            (λ _. (w : Work) × (seat.new ≡ with_work (engine_met seat.old tag 1) (Some w)) × (w.tag ≡ tag) × (w.moved ≡ 0))
            (λ n. (n.word ≢ 1) × (seat.new ≡ engine_met seat.old tag n.word)) }
    {
        match steps::take_tag(&self.table.shared, &mut seat.seat, self.tags, tag) {
            Ok(parcel) => {
                seat.held = Some((tag, parcel));
                Ok(())
            }
            Err(word) => Err(NotReady { word }),
        }
    }

    /// Moves the next element of the transfer that the engine holds. False where all are moved.
    pub fn move_one(&self, seat: &mut EngineSeat) -> bool
        requires seat { seat.old.id ≡ self.now.id }
        requires busy { (w : Work) × (seat.old.work ≡ Some w) }
        ensures { (w : Work) → seat.old.work ≡ Some w → MatchBool result
            ((w.moved < w.transfer.count) × ((z : ℤ) × (seat.new ≡ with_work seat.old (Some (after_move w z)))))
            ((w.transfer.count ≤ w.moved) × (seat.new ≡ seat.old)) }
    {
        match &mut seat.held {
            Some((_, parcel)) => steps::move_next(
                &self.table.shared,
                &mut seat.seat,
                self.tags,
                parcel,
            ),
            None => unreachable!(),
        }
    }

    /// Gives a transfer back whose elements are all moved. The engine is then idle.
    pub fn finish(&self, seat: &mut EngineSeat)
        requires seat { seat.old.id ≡ self.now.id }
        requires moved { (w : Work) × (seat.old.work ≡ Some w) × (w.moved ≡ w.transfer.count) }
        ensures { seat.new ≡ with_work seat.old None }
    {
        match seat.held.take() {
            Some((tag, parcel)) => {
                steps::give_back(&self.table.shared, &mut seat.seat, self.tags, tag, parcel)
            }
            None => unreachable!(),
        }
    }

    /// The slow words as they stand at the end, which are the prompt memory.
    pub fn close(self, seat: ComputeSeat, engines: Vec<EngineSeat>, into: &mut [i64])
        requires compute { (seat.id ≡ self.id) × NoneStarted seat }
        requires engines { All (IsIdle self.id) engines.items }
        requires length { length into.old ≡ self.words }
        ensures { into.new ≡ seat.prompt }
    {
        drop(engines);
        let Bus {
            table,
            words: _,
            tags,
        } = self;
        let ComputeSeat { seat } = seat;
        let mut closed = table.close_with(seat);
        read_out(&closed, tags, into);
        let mut tag = 0;
        while tag < closed.slot_count() {
            drop(closed.take(tag));
            tag += 1;
        }
        closed.free();
    }
}

fn engine_seats(
    alloc: Global,
    words: &Words,
    seat: &mut RawSeat,
    engines: u32,
) -> Result<Vec<EngineSeat>, AllocError>
    requires table { (seat.old.table_id ≡ words.now.table_id) × (words.now.table_id.slots + length (compute_of seat.old.me.0).prompt + 1 ≡ words.now.table_id.words) }
    requires compute { IsComputeMe seat.old.me × ((compute_of seat.old.me.0).engines ≡ 0) }
    ensures seat { OnOk result ((seat.new.table_id ≡ seat.old.table_id) × (seat.new.id ≡ seat.old.id) × (seat.new.me ≡ (Compute (numbered (compute_of seat.old.me.0) engines), []))) }
    ensures list { IfOk result (λ v. v.items ≡ map (fresh_engine words.now.table_id) (range_with_len 0 engines)) }
{
    let mut list = Vec::with_capacity(alloc, engines as usize)?;
    for _ in 0..engines {
        let one = engine_seat(words, seat);
        list.push(one)?;
    }
    Ok(list)
}

fn engine_seat(words: &Words, seat: &mut RawSeat) -> EngineSeat
    requires table { (seat.old.table_id ≡ words.now.table_id) × (words.now.table_id.slots + length (compute_of seat.old.me.0).prompt + 1 ≡ words.now.table_id.words) }
    requires compute { IsComputeMe seat.old.me }
    ensures seat { (seat.new.table_id ≡ seat.old.table_id) × (seat.new.id ≡ seat.old.id) × (seat.new.me ≡ (Compute (one_more (compute_of seat.old.me.0)), [])) }
    ensures engine { result ≡ fresh_engine words.now.table_id (compute_of seat.old.me.0).engines }
{
    EngineSeat {
        seat: words.split_seat::<Engines>(seat),
        held: None,
    }
}

// A signed number that was read is known to fit.
fn all_fit(words: &[i64])
    ensures { (i : ℕ) → FitsSigned w64 (number_at words.now i) }
{
    for word in words {
        let _read = *word;
    }
}

// The words at the start: the tags' words, all free, then the slow words, then one to spare.
fn first_words(alloc: Global, words: &[i64], tags: u32) -> Result<Vec<u64>, AllocError>
    ensures { IfOk result (λ v. v.items ≡ row_of words.now tags) }
{
    let mut row = Vec::from_elem(alloc, 0u64, tags as usize)?;
    for word in words {
        row.push(word.cast_unsigned())?;
    }
    row.push(0)?;
    Ok(row)
}

// The slow words, which follow those of the tags.
fn read_out(closed: &Closed<Option<Parcel>, Global>, tags: u32, into: &mut [i64])
    requires { IsFull closed.now.words × (tags + length into.old ≤ slots_len closed.now.words) × (tags + length into.old < 2 ^ 64) }
    ensures { (i : ℕ) → i < length into.old → number_at into.new i ≡ to_z w64 (slice_index (slots_items closed.now.words) (tags + i)) }
{
    for i in 0..into.len() {
        into[i] = closed.word(tags as usize + i).cast_signed();
    }
}
