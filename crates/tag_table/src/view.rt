// What travels through a slot, what each seat knows, and the rule of the bus.
use atomic_table::{Seat, Shared, TableRule};
use bus_model::{Started, Transfer};
use std::collections::LinkedList;

/// A transfer with the cells of its half, which were moved to it, and how many elements are moved.
#[derive(Drop)]
pub struct Parcel {
    pub transfer: Transfer,
    pub cells: Vec<i64>,
    pub moved: u32,
}

/// What an engine knows of the transfer that it holds. No value of it is made, nor of the types of views below.
pub struct Work {
    pub tag: u32,
    pub transfer: Transfer,
    pub cells: LinkedList<i64>,
    pub moved: u32,
}

/// The prompt memory, the tag whose slot the compute thread holds, the started transfer of each tag, the tags and words
/// that exchanges met, and how many engine seats were made.
pub struct ComputeView {
    pub prompt: LinkedList<i64>,
    pub held: Option<u32>,
    pub tags: LinkedList<Option<Started>>,
    pub met: LinkedList<(u32, u64)>,
    pub engines: u32,
}

/// The number of slow words, the engine's number, the transfer that it holds, and the tags and words that exchanges met.
pub struct EngineView {
    pub words: usize,
    pub number: u32,
    pub work: Option<Work>,
    pub met: LinkedList<(u32, u64)>,
}

pub enum View {
    Compute(ComputeView),
    Engine(EngineView),
}

/// What the table is told when it is made.
#[derive(Drop)]
pub struct Layout {
    pub prompt: Vec<i64>,
    pub tags: u32,
}

pub struct BusRule;

impl TableRule<Option<Parcel>, View, Layout> for BusRule {
    ghost use Rattle.std.specs.Prelude.{length};
    ghost use Rattle.tag_table.specs.declared.view.View.TheVariants.{Compute};
    ghost use Rattle.tag_table.specs.Rule.{BusOk, fresh};

    ghost holds = { λ key. BusOk (length key.prompt.items) key.tags };

    ghost first = { λ key. Compute (fresh key.prompt.items key.tags) };
}

pub(crate) type Words = Shared<Option<Parcel>, View, Layout, BusRule>;

pub(crate) type RawSeat = Seat<Option<Parcel>, View>;
