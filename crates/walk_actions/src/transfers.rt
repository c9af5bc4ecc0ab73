// The action of a start.

ghost use Rattle.std.specs.Prelude.{◌≡◌, ◌<◌, ◌≤◌, ◌+◌, ◌-◌, ◌*◌, ◌/◌, ◌%◌, ◌^◌, ℕ, List, length, vec_capacity, All};
ghost use Rattle.std.specs.Prelude.{Some};
ghost use Rattle.affine_ast.specs.declared.name.Name.{Name as TheName};
ghost use Rattle.affine_ast.specs.Sizes.{product};
ghost use Rattle.direct_meaning.specs.Action as meaning;
ghost use Rattle.direct_meaning.specs.Static.{place_of, tag_of, number};
ghost use Rattle.direct_meaning.specs.Turns.{gap};
ghost use Rattle.direct_meaning.specs.Actions.{layout_of, half_cells, has_shape, started, transfer_of, start_between};
ghost use Rattle.direct_meaning.specs.Actions.{start_of};
ghost use Rattle.valid_laws.specs.Safe.{SafePlace, SafeTypes, IsMemref, IsCount, SafeChunks};
ghost use Rattle.walk_program.specs.Names.{name_at};
ghost use Rattle.walk_program.specs.Numbered.{Operands, StrideFits};
ghost use Rattle.walk_program.specs.Reading.{names_at, stride_of};
ghost use Rattle.walk_actions.specs.declared.action.Operand.{Operand as TheOperand};
ghost use Rattle.walk_actions.specs.Looked.{env_of, known_of};
ghost use Rattle.walk_actions.specs.Meant.{meant, place_meant, NamesNone, MeansAlone};
ghost use Rattle.walk_actions.specs.Values.{use_of};
ghost use Rattle.walk_actions.specs.Transfers.{layout_meant, transfer_at, AreChunks, IsEnd, home_at, place_at_end};
ghost use Rattle.walk_actions.specs.Transfers.{tag_at_end};

use crate::action::{Action, Home, Place};
use crate::environment::Environment;
use crate::statements::elements;
use affine_ast::MemrefType;
use bus_model::{FaultKind, Transfer};
use walk_program::Subscripts;

/// How many elements a transfer has, and how they lie: so many side by side, each such chunk begun a stride behind the
/// last.
#[derive(Clone, Copy)]
struct Chunks {
    count: u64,
    stride: u64,
    chunk: u64,
}

/// The slow memref of a transfer: its number, the place of its first element, and the place behind its last.
#[derive(Clone, Copy)]
struct Slow {
    number: u32,
    end: u32,
}

impl Chunks {
    /// The slow place of the last element of a transfer that begins at a place.
    #[tactic(auto, using(crate::proofs::Lasts::lasts))]
    fn last_place(self, base: u32) -> u128
        requires { AreChunks self }
        ensures { result ≡ base + (self.count - 1) / self.chunk * self.stride + (self.count - 1) % self.chunk }
    {
        let last = self.count - 1;
        let chunks = last / self.chunk;
        base as u128 + chunks as u128 * self.stride as u128 + (last % self.chunk) as u128
    }
}

/// Whether the fast part of a transfer lies within a half of so many cells, and its count is a multiple of its chunk.
fn has_shape(transfer: &Transfer, cells: u32) -> bool
    requires { 1 ≤ transfer.now.chunk }
    ensures { result ≡ has_shape transfer.now cells }
{
    transfer.offset as u64 + transfer.count as u64 <= cells as u64
        && transfer.count % transfer.chunk == 0
}

impl<'p> Environment<'p> {
    /// The count of a transfer, and how its elements lie.
    #[tactic(auto, using(crate::proofs::Lasts::chunkings))]
    fn chunks(&self, count: u32, stride: Option<(u32, u32)>) -> Chunks
        requires name { count < length self.now.names }
        requires names { StrideFits (length self.now.names) stride }
        requires count { IsCount (known_of self.now count) }
        requires safe { SafeChunks (env_of self.now) (stride_of self.now.names stride) }
        ensures value { layout_meant result ≡ layout_of (env_of self.now) (name_at self.now.names count)
            (stride_of self.now.names stride) }
        ensures well { AreChunks result }
    {
        let count = self.count(count);
        match stride {
            None => Chunks {
                count,
                stride: count,
                chunk: count,
            },
            Some((stride, chunk)) => Chunks {
                count,
                stride: self.number(stride) as u64,
                chunk: self.number(chunk) as u64,
            },
        }
    }
}

/// A transfer between a place in slow memory, the memref of which ends at a place, and a place in a half of so many
/// cells: it starts, or is the fault of what is wrong with it.
#[tactic(auto, unfolding(crate::specs::Meant::meant), using(crate::proofs::Lasts::starts))]
fn started<'q>(
    incoming: bool,
    tag: u32,
    memref: u32,
    base: u32,
    chunks: Chunks,
    fast: u32,
    half: u32,
    offset: u32,
    end: u32,
    cells: u32,
) -> Action<'q>
    requires { AreChunks chunks }
    ensures value { MeansAlone result (started (transfer_at incoming tag memref base chunks fast half offset) end
        cells) }
    ensures inside { NamesNone result }
{
    if chunks.last_place(base) >= end as u128 {
        return Action::Faults(FaultKind::Bounds);
    }
    let transfer = Transfer {
        incoming,
        tag,
        memref,
        base,
        stride: chunks.stride as u32,
        chunk: chunks.chunk as u32,
        count: chunks.count as u32,
        fast,
        half,
        offset,
    };
    if has_shape(&transfer, cells) {
        Action::Starts(transfer)
    } else {
        Action::Faults(FaultKind::Shape)
    }
}

/// A transfer between an element of a slow memref, which begins at a place, and one of a fast memref.
#[tactic(auto, unfolding(crate::specs::Meant::meant), using(crate::proofs::Lasts::halves))]
fn transfer<'q>(
    incoming: bool,
    memref: u32,
    first: u32,
    slow_ty: &MemrefType,
    fast_ty: &MemrefType,
    chunks: Chunks,
    slow: Place,
    fast: Place,
    tag: Option<u32>,
) -> Action<'q>
    requires chunks { AreChunks chunks }
    requires slow { first + product slow_ty.now.sizes < 2 ^ 32 }
    requires slow_sizes { All (λ n. 1 ≤ n) slow_ty.now.sizes }
    requires rank { 1 ≤ length fast_ty.now.sizes }
    requires fast { product fast_ty.now.sizes < 2 ^ 32 }
    requires fast_sizes { All (λ n. 1 ≤ n) fast_ty.now.sizes }
    ensures value { MeansAlone result (transfer_of incoming memref first slow_ty.now fast_ty.now (layout_meant chunks)
        (place_meant slow) (place_meant fast) tag) }
    ensures inside { NamesNone result }
{
    let Place::Slow(base) = slow else {
        return Action::Faults(FaultKind::Bounds);
    };
    let Place::Fast { number, half, cell } = fast else {
        return Action::Faults(FaultKind::Bounds);
    };
    let Some(tag) = tag else {
        return Action::Faults(FaultKind::Bounds);
    };
    let end = first + elements(slow_ty.sizes.as_slice());
    let cells = elements(&fast_ty.sizes.as_slice()[1..]);
    started(
        incoming, tag, memref, base, chunks, number, half, cell, end, cells,
    )
}

/// An end of a transfer: a memref's name with its subscripts and its type.
#[derive(Clone, Copy)]
pub(crate) struct End<'p> {
    pub memref: u32,
    pub at: &'p Subscripts,
    pub ty: &'p MemrefType,
}

impl<'p> Environment<'p> {
    /// A start of a transfer between two ends, which its tag names.
    #[tactic(auto, unfolding(crate::specs::Meant::meant), using(crate::proofs::Ends::ends))]
    fn start_between<'q>(
        &self,
        from: End<'_>,
        to: End<'_>,
        tag: End<'_>,
        chunks: Chunks,
        room: &mut Vec<i64>,
    ) -> Action<'q>
        requires from { IsEnd self.now (vec_capacity room.old) from }
        requires to { IsEnd self.now (vec_capacity room.old) to }
        requires tag { IsEnd self.now (vec_capacity room.old) tag }
        requires spaces { from.ty.now.space + to.ty.now.space ≡ 1 }
        requires chunks { AreChunks chunks }
        ensures value { MeansAlone result (start_between (home_at self.now from.entry) (home_at self.now to.entry)
            (place_at_end self.now from.entry) (place_at_end self.now to.entry) from.entry.ty.now to.entry.ty.now
            (layout_meant chunks) (tag_at_end self.now tag.entry)) }
        ensures inside { NamesNone result }
        ensures capacity { vec_capacity room.new ≡ vec_capacity room.old }
    {
        let from_place = self.place(from.memref, from.at, from.ty, room);
        let to_place = self.place(to.memref, to.at, to.ty, room);
        let number = self.tag(tag.memref, tag.at, tag.ty, room);
        if let Some(
            Home::Slow {
                number: memref,
                first,
            },
        ) = self.home(from.memref)
        {
            return transfer(
                true, memref, first, from.ty, to.ty, chunks, from_place, to_place, number,
            );
        }
        if let Some(
            Home::Slow {
                number: memref,
                first,
            },
        ) = self.home(to.memref)
        {
            return transfer(
                false, memref, first, to.ty, from.ty, chunks, to_place, from_place, number,
            );
        }
        Action::Faults(FaultKind::Bounds)
    }

    /// The action of a start.
    #[tactic(auto, unfolding(crate::specs::Meant::meant))]
    pub(crate) fn start<'q>(
        &self,
        from: (u32, &Subscripts),
        to: (u32, &Subscripts),
        tag: (u32, &Subscripts),
        count: u32,
        stride: Option<(u32, u32)>,
        types: &[MemrefType; 3],
        room: &mut Vec<i64>,
    ) -> Action<'q>
        requires from { (from.0 < length self.now.names)
            × Operands (length self.now.names) (vec_capacity room.old) from.1.now.operands }
        requires to { (to.0 < length self.now.names) × Operands (length self.now.names)
            (vec_capacity room.old) to.1.now.operands }
        requires tag { (tag.0 < length self.now.names) × Operands (length self.now.names)
            (vec_capacity room.old) tag.1.now.operands }
        requires name { count < length self.now.names }
        requires names { StrideFits (length self.now.names) stride }
        requires types { SafeTypes (env_of self.now) (name_at self.now.names from.0) (use_of self.now from.1.now)
            (name_at self.now.names to.0) (use_of self.now to.1.now) (name_at self.now.names tag.0)
            (use_of self.now tag.1.now) types.now }
        requires count { IsCount (known_of self.now count) }
        requires safe { SafeChunks (env_of self.now) (stride_of self.now.names stride) }
        ensures value { MeansAlone result (start_of (env_of self.now) (name_at self.now.names from.entry.0)
            (use_of self.now from.entry.1.now) (name_at self.now.names to.entry.0) (use_of self.now to.entry.1.now)
            (name_at self.now.names tag.entry.0) (use_of self.now tag.entry.1.now)
            (layout_of (env_of self.now) (name_at self.now.names count) (stride_of self.now.names stride)) types.now) }
        ensures inside { NamesNone result }
        ensures capacity { vec_capacity room.new ≡ vec_capacity room.old }
    {
        let [from_ty, to_ty, tag_ty] = types;
        let chunks = self.chunks(count, stride);
        let from = End {
            memref: from.0,
            at: from.1,
            ty: from_ty,
        };
        let to = End {
            memref: to.0,
            at: to.1,
            ty: to_ty,
        };
        let tag = End {
            memref: tag.0,
            at: tag.1,
            ty: tag_ty,
        };
        self.start_between(from, to, tag, chunks, room)
    }
}
