//! The halves of a fast memref, each here with its cells, or away with the tag of the transfer that has them.
//!
//! A half that is away answers `Away` with its tag, and changes nothing. Lending moves the list of cells out and accepting
//! moves one in, so it has one owner at each moment. Only `new` takes memory. The crate stands on std alone.
#![tactic(auto)]

ghost use Rattle.std.specs.Prelude.{◌≡◌, ℕ, ℤ, ◌<◌, List, length, slice_get, slice_set, replicate, Some, IfOk, MatchResult};
ghost use Rattle.std.specs.List.{All};
ghost use Rattle.fast_halves.specs.Shape.{here, away, shape, shapes, IsHere, IsAway, IsHereWith};

use std::alloc::{AllocError, Global};
use std::marker::Model;
use std::mem;
use thiserror::Error;

#[derive(Drop)]
enum Half {
    Here(Vec<i64>),
    Away(u32),
}

impl Half {
    fn lend(&mut self, tag: u32) -> Vec<i64>
        requires { IsHere (shape self.old) }
        ensures { (self.old ≡ Half.Here result) × (self.new ≡ Half.Away tag) }
    {
        match mem::replace(self, Half::Away(tag)) {
            Half::Here(cells) => cells,
            Half::Away(_) => unreachable!(),
        }
    }

    fn write(&mut self, cell: u32, value: i64)
        requires { (c : List ℤ) × (shape self.old ≡ here c) × (cell < length c) }
        ensures { (c : List ℤ) × (shape self.old ≡ here c) × (shape self.new ≡ here (slice_set c cell value)) }
    {
        match self {
            Half::Here(cells) => cells[cell as usize] = value,
            Half::Away(_) => unreachable!(),
        }
    }

    fn refill(&mut self, filler: i64)
        requires { IsHere (shape self.old) }
        ensures { (c : List ℤ) × (shape self.old ≡ here c) × (shape self.new ≡ here (replicate (length c) filler)) }
    {
        match self {
            Half::Here(cells) => cells.fill(filler),
            Half::Away(_) => unreachable!(),
        }
    }
}

/// The half is away with this tag.
#[derive(Debug, Drop, Error)]
#[error("the half is away with tag {tag}")]
pub struct Away {
    pub tag: u32,
}

/// The halves of one fast memref, which have the same number of cells. A contract sees that number, and a list of halves.
#[derive(Drop)]
pub struct Halves {
    cells: u32,
    halves: Vec<Half>,
}

impl Model for Halves {
    ghost use Rattle.std.specs.List.{All};
    ghost use Rattle.fast_halves.specs.Shape.{HalvesShape, shapes, Fitting};

    ghost Value = { HalvesShape };

    ghost view = { λ h. record { cells = h.cells; halves = shapes h.halves.items } };

    ghost invariant = { λ h. All (Fitting h.cells) h.halves.items };
}

impl Halves {
    /// Halves that are all here, each cell with the filler.
    pub fn new(alloc: Global, halves: u32, cells: u32, filler: i64) -> Result<Halves, AllocError>
        ensures cells { IfOk result (λ h. h.cells ≡ cells) }
        ensures halves { IfOk result (λ h. h.halves ≡ replicate halves (here (replicate cells filler))) }
    {
        let mut list = Vec::with_capacity(alloc, halves as usize)?;
        for _ in 0..halves {
            list.push(Half::Here(Vec::from_elem(alloc, filler, cells as usize)?))?;
        }
        Ok(Halves {
            cells,
            halves: list,
        })
    }

    /// Puts the filler into every cell of every half.
    pub fn refill(&mut self, filler: i64)
        requires { All IsHere self.old.halves }
        ensures cells { self.new.cells ≡ self.old.cells }
        ensures halves { self.new.halves ≡ replicate (length self.old.halves) (here (replicate self.old.cells filler)) }
    {
        refill_each(self.halves.as_mut_slice(), self.cells, filler);
    }

    /// The number in a cell of a half.
    pub fn read(&self, half: u32, cell: u32) -> Result<i64, Away>
        requires { (half < length self.now.halves) × (cell < self.now.cells) }
        ensures { MatchResult result
            (λ z. (c : List ℤ) × (slice_get self.now.halves half ≡ Some (here c)) × (slice_get c cell ≡ Some z))
            (λ a. slice_get self.now.halves half ≡ Some (away a.tag)) }
    {
        match &self.halves[half as usize] {
            Half::Here(cells) => Ok(cells[cell as usize]),
            Half::Away(tag) => Err(Away { tag: *tag }),
        }
    }

    /// Puts a number into a cell of a half.
    pub fn write(&mut self, half: u32, cell: u32, value: i64) -> Result<(), Away>
        requires { (half < length self.old.halves) × (cell < self.old.cells) }
        ensures cells { self.new.cells ≡ self.old.cells }
        ensures halves { MatchResult result
            (λ _. (c : List ℤ) × (slice_get self.old.halves half ≡ Some (here c)) × (self.new.halves ≡ slice_set self.old.halves half (here (slice_set c cell value))))
            (λ a. (slice_get self.old.halves half ≡ Some (away a.tag)) × (self.new ≡ self.old)) }
    {
        if let Half::Away(kept) = &self.halves[half as usize] {
            return Err(Away { tag: *kept });
        }
        self.halves[half as usize].write(cell, value);
        Ok(())
    }

    /// Moves the cells of a half out. It is then away, and keeps the tag.
    pub fn lend(&mut self, half: u32, tag: u32) -> Result<Vec<i64>, Away>
        requires { half < length self.old.halves }
        ensures cells { self.new.cells ≡ self.old.cells }
        ensures halves { MatchResult result
            (λ v. (slice_get self.old.halves half ≡ Some (here v.items)) × (length v.items ≡ self.old.cells) × (self.new.halves ≡ slice_set self.old.halves half (away tag)))
            (λ a. (slice_get self.old.halves half ≡ Some (away a.tag)) × (self.new ≡ self.old)) }
    {
        if let Half::Away(kept) = &self.halves[half as usize] {
            return Err(Away { tag: *kept });
        }
        Ok(self.halves[half as usize].lend(tag))
    }

    /// Moves cells into a half that is away. It is then here.
    pub fn accept(&mut self, half: u32, cells: Vec<i64>)
        requires away { IsAway (slice_get self.old.halves half) }
        requires length { length cells.items ≡ self.old.cells }
        ensures { self.new ≡ record self.old { halves = slice_set self.old.halves half (here cells.items) } }
    {
        self.halves[half as usize] = Half::Here(cells);
    }
}

// Puts the filler into every cell of halves that are all here.
fn refill_each(halves: &mut [Half], cells: u32, filler: i64)
    requires { All (IsHereWith cells) halves.old }
    ensures filled { shapes halves.new ≡ replicate (length halves.old) (here (replicate cells filler)) }
    ensures here { All (IsHereWith cells) halves.new }
{
    for half in 0..halves.len() {
        halves[half].refill(filler);
    }
}
