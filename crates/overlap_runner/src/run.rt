// The run: the compute thread's actions, and the engines beside it.
ghost use Rattle.std.specs.Prelude.{◌≡◌, ℕ, ◌+◌, ◌<◌, ◌^◌, List, length};
ghost use Rattle.std.specs.List.{All};
ghost use Rattle.std.specs.Thread.{IsSync};
ghost use Rattle.direct_meaning.specs.Direct.{folded};
ghost use Rattle.prompt_semantics.specs.Device as model;
ghost use Rattle.prompt_semantics.specs.Prompt.{prompt_step};
ghost use Rattle.prompt_laws.specs.Rooms.{Room};
ghost use Rattle.tag_table.specs.Shapes.{IsIdle};
ghost use Rattle.overlap_memory.specs.Tied.{FastShape};
ghost use Rattle.overlap_runner.specs.Follow.{Same};
ghost use Rattle.overlap_runner.specs.Runs.{StandsAt, Stands, Comes, EndsFrom};

use crate::device::Device;
use bus_model::Verdict;
use dma_engine::{Gate, serve_until};
use nest_walk::Walk;
use std::sync::Wait;
use std::sync::atomic::{AtomicBool, Ordering};
use std::thread::{Threads, join_mut};
use tag_table::{Bus, EngineSeat};

/// Takes the actions that are left, up to the first fault.
fn take_all<R: Wait, G: Gate>(
    rt: &R,
    bus: &Bus,
    gate: &G,
    walk: &mut Walk<'_>,
    device: &mut Device<'_>,
) -> Verdict
    requires names { device.old.registers.names ≡ walk.old.names }
    requires stands { Stands bus.now walk.old.left device.old }
    ensures comes { (rooms : List Room) (shape : FastShape) (y : model.Device) → StandsAt bus.now rooms shape y walk.old.left device.old → Comes bus.now result (folded (prompt_step device.old.filler device.old.capacity) walk.old.left y) device.new }
    ensures same { Same device.old device.new }
{
    while let Some(action) = walk.next() {
        let effect = device.registers.settle(action, walk.subscripts());
        if let Err(kind) = device.act(rt, bus, gate, effect) {
            return Verdict::Fault(kind);
        }
    }
    Verdict::End
}

/// Takes the actions that are left, up to the first fault, and then back what is outstanding.
pub(crate) fn run<R: Wait, G: Gate>(
    rt: &R,
    bus: &Bus,
    gate: &G,
    walk: &mut Walk<'_>,
    device: &mut Device<'_>,
) -> Verdict
    requires names { device.old.registers.names ≡ walk.old.names }
    requires stands { Stands bus.now walk.old.left device.old }
    ensures ends { EndsFrom bus.now walk.old.left device.old result device.new }
{
    let verdict = take_all(rt, bus, gate, walk, device);
    device.memory.drain(rt, bus, gate);
    verdict
}

/// The run with an engine for each of these seats beside it, each in a thread of its own, numbered from this number on. The
/// engines end once the run has ended.
pub(crate) fn run_beside<R: Threads + Wait + Sync, G: Gate + Sync>(
    rt: &R,
    bus: &Bus,
    gate: &G,
    walk: &mut Walk<'_>,
    device: &mut Device<'_>,
    engines: &mut [EngineSeat],
    number: u32,
    closing: &AtomicBool,
) -> Verdict
    requires names { device.old.registers.names ≡ walk.old.names }
    requires stands { Stands bus.now walk.old.left device.old }
    requires engines { All (IsIdle bus.now.id) engines.old }
    requires numbers { number + length engines.old < 2 ^ 32 }
    ensures ends { EndsFrom bus.now walk.old.left device.old result device.new }
    ensures engines { All (IsIdle bus.now.id) engines.new }
{
    let Some((first, others)) = engines.split_first_mut() else {
        let verdict = run(rt, bus, gate, walk, device);
        closing.store(true, Ordering::SeqCst);
        return verdict;
    };
    let (_, verdict) = join_mut(
        rt,
        &mut ||
            requires { IsIdle bus.now.id first.now }
            ensures { IsIdle bus.entry.now.id first.exit.now }
        { serve_until(rt, bus, first, number, gate, closing) },
        &mut || -> Verdict
            requires { IsSync R.row × IsSync G.row × (device.now.registers.names ≡ walk.now.names) × Stands bus.now walk.now.left device.now × All (IsIdle bus.now.id) others.now × (number + 1 + length others.now < 2 ^ 32) }
            ensures { EndsFrom bus.entry.now walk.entry.now.left device.entry.now result device.exit.now × All (IsIdle bus.entry.now.id) others.exit.now }
        { run_beside(rt, bus, gate, walk, device, others, number + 1, closing) },
    );
    verdict
}
