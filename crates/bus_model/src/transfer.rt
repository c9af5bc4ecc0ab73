// Transfers.
ghost use Rattle.std.specs.Prelude.{◌≡◌, ℕ, ◌^◌, ◌<◌, ◌≤◌, ◌↔◌, IsTrue, Some, None};
ghost use Rattle.std.specs.List.{Any};
ghost use Rattle.bus_model.specs.Places.{slow_place, meets};
ghost use Rattle.bus_model.specs.Engines.{HoldsNone, IsLegal};

use crate::Step;
use std::collections::LinkedList;

/// A transfer of `count` elements between slow places and the cells of one half of a fast memref. Element e lies at slow
/// place `base + (e / chunk) * stride + e % chunk` and at cell `offset + e` of the half.
#[derive(Clone, Copy)]
pub struct Transfer {
    /// True from slow to fast memory.
    pub incoming: bool,
    /// The number of its tag element.
    pub tag: u32,
    /// The number of the slow memref, in argument order.
    pub memref: u32,
    /// The slow place of its first element.
    pub base: u32,
    /// How far apart two chunks begin, in elements.
    pub stride: u32,
    /// How many elements lie side by side.
    pub chunk: u32,
    /// How many elements there are.
    pub count: u32,
    /// The number of the fast memref, by the order of allocations in the text.
    pub fast: u32,
    /// The number of the half.
    pub half: u32,
    /// The cell of its first element in the half.
    pub offset: u32,
}

impl Transfer {
    /// The slow place of an element.
    pub fn slow(&self, element: u32) -> u32
        requires element { element < self.now.count }
        requires chunk { 1 ≤ self.now.chunk }
        requires fits { slow_place self.now element < 2 ^ 32 }
        ensures { result ≡ slow_place self.now element }
    {
        self.base + element / self.chunk * self.stride + element % self.chunk
    }
}

/// Whether an element of a transfer lies at a slow place.
pub fn meets(a: &Transfer, slow: u32) -> bool
    requires chunk { 1 ≤ a.now.chunk }
    requires fits { (e : ℕ) → e < a.now.count → slow_place a.now e < 2 ^ 32 }
    ensures value { result ≡ meets a.now slow }
    ensures exact { IsTrue result ↔ ((e : ℕ) × (e < a.now.count) × (slow_place a.now e ≡ slow)) }
{
    for element in 0..a.count {
        if a.slow(element) == slow {
            return true;
        }
    }
    false
}

/// The outstanding transfers in order of their starts, each with how many elements are moved and the engine that holds it.
#[derive(Drop)]
pub struct BusState {
    pub transfers: Vec<(Transfer, u32, Option<u32>)>,
}

impl BusState {
    /// Whether these transfers let an engine make this step. False for `Compute`, which they don't judge.
    pub fn legal(&self, step: Step) -> bool
        ensures { IsTrue result ↔ IsLegal step self.now.transfers.items }
    {
        match step {
            Step::Compute => false,
            Step::Take { engine, tag } => self.has_idle(engine) && self.has_waiting(tag),
            Step::Move { engine } => self.has_unmoved(engine),
            Step::Finish { engine } => self.has_moved(engine),
        }
    }

    fn has_idle(&self, engine: u32) -> bool
        ensures { IsTrue result ↔ HoldsNone engine self.now.transfers.items }
    {
        self.transfers.iter().all(|x| x.2 != Some(engine))
    }

    fn has_waiting(&self, tag: u32) -> bool
        ensures { IsTrue result ↔ Any (λ x. (x.0.tag ≡ tag) × (x.1 ≡ 0) × (x.2 ≡ None)) self.now.transfers.items }
    {
        self.transfers
            .iter()
            .any(|x| x.0.tag == tag && x.1 == 0 && x.2.is_none())
    }

    fn has_unmoved(&self, engine: u32) -> bool
        ensures { IsTrue result ↔ Any (λ x. (x.2 ≡ Some engine) × (x.1 < x.0.count)) self.now.transfers.items }
    {
        self.transfers
            .iter()
            .any(|x| x.2 == Some(engine) && x.1 < x.0.count)
    }

    fn has_moved(&self, engine: u32) -> bool
        ensures { IsTrue result ↔ Any (λ x. (x.2 ≡ Some engine) × (x.1 ≡ x.0.count)) self.now.transfers.items }
    {
        self.transfers
            .iter()
            .any(|x| x.2 == Some(engine) && x.1 == x.0.count)
    }
}

/// A started transfer as a contract sees it, with the list that its half has where each transfer is copied at its start.
/// No value of it is made.
pub struct Started {
    pub transfer: Transfer,
    pub list: LinkedList<i64>,
}
