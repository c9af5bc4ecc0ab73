// The run of a module by its direct meaning.
ghost use Rattle.std.specs.Prelude.{◌≡◌, ◌≤◌, ◌^◌, None, IfOk, OnOk, OnErr};
ghost use Rattle.affine_ast.specs.PlainLimits.{plain_fault};
ghost use Rattle.direct_meaning.specs.Direct.{folded, direct_step};
ghost use Rattle.direct_meaning.specs.Memory.{Fits};
ghost use Rattle.direct_meaning.specs.Work.{work};
ghost use Rattle.run_laws.specs.CanRun.{CanRun};
ghost use Rattle.nest_meaning.specs.Held.{state_at, Same};
ghost use Rattle.nest_meaning.specs.Takes.{Ends, RunsPlain};

use crate::machine::Machine;
use affine_ast::{Image, Verified};
use bus_model::Verdict;
use nest_walk::Walk;
use run_parts::{Registers, copies, flat, refill};
use sqlite_items::Items;
use std::alloc::{AllocError, Global};
use walk_program::make;

/// Takes the actions that are left, up to the first fault.
fn run(walk: &mut Walk<'_>, machine: &mut Machine<'_>) -> Verdict
    requires names { machine.old.registers.names ≡ walk.old.names }
    requires runs { CanRun walk.old.left (state_at machine.old) }
    ensures ends { Ends result (folded direct_step walk.old.left (state_at machine.old)) (state_at machine.new) }
    ensures same { Same machine.old machine.new }
{
    while let Some(action) = walk.next() {
        let effect = machine.registers.settle(action, walk.subscripts());
        if let Err(kind) = machine.take(effect) {
            return Verdict::Fault(kind);
        }
    }
    Verdict::End
}

/// Runs a module on a memory by its direct meaning, and tells how the run ends. The memory is then the one after the last action, or
/// as it is at the fault. The index arguments stay.
///
/// # Errors
///
/// `AllocError`, for want of memory alone. All of it is taken before the run, and the memory is then as it was.
pub fn run_plain(alloc: Global, module: &Verified, image: &mut Image) -> Result<Verdict, AllocError>
    requires plain { plain_fault «module».now.inner ≡ None }
    requires fits { Fits «module».now.inner image.old }
    requires work { work «module».now.inner ≤ 2 ^ 48 }
    ensures runs { IfOk result (λ verdict. RunsPlain «module».now.inner image.old verdict image.new) }
    ensures fits { OnOk result (Fits «module».now.inner image.new) }
    ensures unchanged { OnErr result (image.new ≡ image.old) }
{
    let module = module.module();
    let program = make(alloc, module)?;
    let slow = flat(alloc, image.memrefs.as_slice())?;
    let mut memrefs = copies(alloc, image.memrefs.as_slice())?;
    let registers = Registers::new(alloc, program.names.as_slice())?;
    let mut machine = Machine { registers, slow };
    let mut walk = Walk::new(alloc, &program, image.symbols.as_slice())?;
    let verdict = run(&mut walk, &mut machine);
    refill(&mut memrefs, machine.slow.as_slice());
    image.memrefs = Items::from_vec(memrefs);
    Ok(verdict)
}
