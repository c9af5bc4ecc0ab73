// The run of a module by its prompt meaning.
ghost use Rattle.std.specs.Prelude.{◌≡◌, ◌≤◌, ◌^◌, List, IfOk, OnOk, OnErr};
ghost use Rattle.direct_meaning.specs.Direct.{folded};
ghost use Rattle.direct_meaning.specs.Memory.{Fits};
ghost use Rattle.direct_meaning.specs.Work.{work};
ghost use Rattle.prompt_semantics.specs.Device as model;
ghost use Rattle.prompt_semantics.specs.Prompt.{prompt_step};
ghost use Rattle.prompt_laws.specs.Rooms.{Room};
ghost use Rattle.prompt_meaning.specs.Held.{device_at, Same};
ghost use Rattle.prompt_meaning.specs.Runs.{StandsAt, Stands};
ghost use Rattle.prompt_meaning.specs.Takes.{EndsWithin, RunsPrompt};

use crate::device::Device;
use crate::fast::add_fasts;
use affine_ast::{Image, Verified};
use bus_model::Verdict;
use nest_walk::Walk;
use run_parts::{Registers, copies, flat, refill};
use sqlite_items::Items;
use std::alloc::{AllocError, Global};
use walk_program::make;

/// How a run ended, and what it took.
#[derive(Drop)]
pub struct Prompt {
    pub verdict: Verdict,
    /// How many actions there were, a faulting one among them.
    pub actions: u64,
    /// The steps that engines take for the transfers that were started: the count and two for each.
    pub engine_steps: u64,
    /// The greatest number of bytes of fast memory that were live.
    pub peak: u64,
}

/// So many tags has a valid module at most, and so many transfers are outstanding at most.
const MOST_TAGS: usize = 65536;

/// Takes the actions that are left, up to the first fault.
fn run(walk: &mut Walk<'_>, device: &mut Device<'_>) -> Verdict
    requires names { device.old.registers.names ≡ walk.old.names }
    requires stands { Stands walk.old.left device.old }
    ensures ends { (rooms : List Room) (y : model.Device) → StandsAt rooms y walk.old.left device.old → EndsWithin rooms result (folded (prompt_step device.old.filler device.old.capacity) walk.old.left y) (device_at device.new) }
    ensures same { Same device.old device.new }
{
    while let Some(action) = walk.next() {
        let effect = device.registers.settle(action, walk.subscripts());
        if let Err(kind) = device.act(effect) {
            return Verdict::Fault(kind);
        }
    }
    Verdict::End
}

/// Runs a module on a memory by its prompt meaning: each transfer is complete at its start. Cells of fresh halves hold the filler, taken
/// into the range of their element; the capacity is in bytes. The memory is then the one after the last action, or as it is at the
/// fault. The index arguments stay.
///
/// # Errors
///
/// `AllocError`, for want of memory alone. All of it is taken before the run, and the memory is then as it was.
pub fn run_prompt(
    alloc: Global,
    module: &Verified,
    image: &mut Image,
    filler: i64,
    capacity: u64,
) -> Result<Prompt, AllocError>
    requires fits { Fits «module».now.inner image.old }
    requires work { work «module».now.inner ≤ 2 ^ 48 }
    ensures runs { IfOk result (λ run. RunsPrompt «module».now.inner image.old filler capacity run image.new) }
    ensures fits { OnOk result (Fits «module».now.inner image.new) }
    ensures unchanged { OnErr result (image.new ≡ image.old) }
{
    let module = module.module();
    let program = make(alloc, module)?;
    let slow = flat(alloc, image.memrefs.as_slice())?;
    let mut memrefs = copies(alloc, image.memrefs.as_slice())?;
    let mut fasts = Vec::new(alloc);
    add_fasts(alloc, program.body.as_slice(), &mut fasts)?;
    let registers = Registers::new(alloc, program.names.as_slice())?;
    let outstanding = Vec::with_capacity(alloc, MOST_TAGS)?;
    let mut device = Device {
        registers,
        slow,
        fasts,
        outstanding,
        filler,
        capacity,
        live: 0,
        actions: 0,
        engine_steps: 0,
        peak: 0,
    };
    let mut walk = Walk::new(alloc, &program, image.symbols.as_slice())?;
    let verdict = run(&mut walk, &mut device);
    refill(&mut memrefs, device.slow.as_slice());
    image.memrefs = Items::from_vec(memrefs);
    Ok(Prompt {
        verdict,
        actions: device.actions,
        engine_steps: device.engine_steps,
        peak: device.peak,
    })
}
