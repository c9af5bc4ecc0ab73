// A run that is prepared, and the run.
ghost use Rattle.std.specs.Prelude.{◌≡◌, ◌+◌, ◌≤◌, List, length, IfOk};
ghost use Rattle.std.specs.List.{All};
ghost use Rattle.affine_ast.specs.declared.name.Name.{Name};
ghost use Rattle.prompt_laws.specs.Rooms.{rooms_in};
ghost use Rattle.walk_program.specs.Reading.{nest_of};
ghost use Rattle.walk_program.specs.Tree.{tree};
ghost use Rattle.tag_table.specs.Shapes.{IsIdle};
ghost use Rattle.direct_meaning.specs.Memory.{Fits};
ghost use Rattle.overlap_runner.specs.Preparation.{IsProgramOf, Begun, RunsPromptly};

use crate::device::Device;
use crate::run::run_beside;
use affine_ast::{Cells, Image, Verified};
use bus_model::Verdict;
use dma_engine::Gate;
use fast_rooms::add_memrefs;
use nest_walk::Walk;
use overlap_memory::Memory;
use run_parts::{Registers, copies, flat, refill};
use sqlite_items::Items;
use std::alloc::{AllocError, Global};
use std::marker::Model;
use std::sync::Wait;
use std::sync::atomic::AtomicBool;
use std::thread::Threads;
use tag_table::{Bus, EngineSeat};
use walk_program::Program;

/// A run with all its memory taken. A clause sees the module, the memory that it begins from, the filler, the capacity and the
/// number of engines.
#[derive(Drop)]
pub struct Prepared<'p> {
    module: Verified,
    image: Image,
    count: u32,
    bus: Bus,
    walk: Walk<'p>,
    device: Device<'p>,
    engines: Vec<EngineSeat>,
    memrefs: Vec<Cells>,
    words: Vec<i64>,
}

impl<'p> Model for Prepared<'p> {
    ghost use Rattle.overlap_runner.specs.Preparation.{Run, IsPrepared};
    ghost use Rattle.std.specs.Coded.{codes};
    ghost use Rattle.affine_ast.specs.contracts.stmt.What as what;

    ghost Value = { Run };

    ghost coded = { Prim.hlevel (codes, what.the_row.coded) };

    ghost view = { λ p. record { module_ = p.module.inner; image = p.image; filler = p.device.filler; capacity = p.device.capacity; engines = p.count } };

    ghost invariant = { λ p. IsPrepared (record { module_ = p.module.inner; image = p.image; filler = p.device.filler; capacity = p.device.capacity; engines = p.count }) p.bus p.walk p.device p.engines.items p.memrefs.items p.words.items };
}

/// The bus of a program with these words, the memory of its compute thread, and the seats of all engines but the first.
fn memory_of(
    alloc: Global,
    program: &Program,
    words: &[i64],
    engines: u32,
) -> Result<(Bus, Memory, Vec<EngineSeat>), AllocError>
    requires { 1 ≤ engines }
    ensures bus { IfOk result (λ r. (r.0.words ≡ length words.now) × (r.0.tags ≡ program.now.inside.tags)) }
    ensures memory { IfOk result (λ r. (names : List Name) → Begun r.0 (rooms_in (nest_of names (tree program.now.body))) words.now r.1) }
    ensures engines { IfOk result (λ r. All (IsIdle r.0.id) r.2.items × (length r.2.items + 1 ≡ engines)) }
{
    if words.len() > u32::MAX as usize {
        return Err(AllocError);
    }
    let made = Bus::new(alloc, words, program.inside.tags, engines)?;
    let (bus, seat, mut seats) = made;
    let helper = seats.remove(0);
    let mut halves = Vec::new(alloc);
    add_memrefs(alloc, program.body.as_slice(), &mut halves)?;
    let memory = Memory::new(alloc, &bus, seat, helper, halves)?;
    Ok((bus, memory, seats))
}

/// Takes the memory of a run of a module from a memory: the halves of its fast memrefs, the words and tags of the bus with the
/// seats of its engines, the registers and the walk, and the final memory. Cells of fresh halves hold the filler, taken into the
/// range of their element; the capacity is in bytes. The program is the module's, as `walk_program::make` gives it: the walk
/// borrows it.
///
/// # Errors
///
/// `AllocError`, for want of memory alone.
pub fn prepare<'p>(
    alloc: Global,
    program: &'p Program,
    module: Verified,
    image: Image,
    filler: i64,
    capacity: u64,
    engines: u32,
) -> Result<Prepared<'p>, AllocError>
    requires program { IsProgramOf program.now «module».inner }
    requires fits { Fits «module».inner image }
    requires engines { 1 ≤ engines }
    ensures { IfOk result (λ prepared. prepared ≡ record { module_ = «module».inner; image = image; filler = filler; capacity = capacity; engines = engines }) }
{
    let words = flat(alloc, image.memrefs.as_slice())?;
    let memrefs = copies(alloc, image.memrefs.as_slice())?;
    let made = memory_of(alloc, program, words.as_slice(), engines)?;
    let (bus, memory, seats) = made;
    let registers = Registers::new(alloc, program.names.as_slice())?;
    let walk = Walk::new(alloc, program, image.symbols.as_slice())?;
    Ok(Prepared {
        module,
        image,
        count: engines,
        bus,
        walk,
        device: Device {
            registers,
            memory,
            filler,
            capacity,
        },
        engines: seats,
        memrefs,
        words,
    })
}

impl<'p> Prepared<'p> {
    /// Runs the module to its end or its first fault. Engine 0 is this thread while it waits, where the gate lets it help; the
    /// others are threads of their own. It takes no memory, and may wait.
    pub fn run<R: Threads + Wait + Sync, G: Gate + Sync>(self, rt: &R, gate: &G) -> (Verdict, Image)
        ensures { RunsPromptly self.entry result.0 result.1 }
    {
        let Prepared {
            module,
            image,
            count: _,
            bus,
            mut walk,
            mut device,
            mut engines,
            mut memrefs,
            mut words,
        } = self;
        drop(module);
        let closing = AtomicBool::new(false);
        let verdict = run_beside(
            rt,
            &bus,
            gate,
            &mut walk,
            &mut device,
            engines.as_mut_slice(),
            1,
            &closing,
        );
        let Device {
            registers,
            memory,
            filler: _,
            capacity: _,
        } = device;
        drop(registers);
        memory.close(bus, engines, words.as_mut_slice());
        refill(&mut memrefs, words.as_slice());
        let Image {
            memrefs: old,
            symbols,
        } = image;
        drop(old);
        let image = Image {
            memrefs: Items::from_vec(memrefs),
            symbols,
        };
        (verdict, image)
    }
}
