// Runs of the machine of all orders that a tester chooses, by a policy or a step at a time.
ghost use Rattle.std.specs.Prelude.{◌≡◌, length, ◌<◌, true};
ghost use Rattle.order_machine.specs.Policies.{HoldsBelow};
ghost use Rattle.order_machine.specs.Standing.{IsSomewhere};

use affine_ast::Image;
use affine_text::parse;
use affine_verify::verify;
use bus_model::{Step, Verdict};
use mem_image::{image_texts_are_exact, parse_image};
use nest_meaning::work;
use order_machine::{Halted, Machine, Policy, run_policy};
use source_parts::split;
use std::alloc::Global;
use std::test::Fail;
use walk_program::make;

/// Sixteen elements at a time come in, are raised by 1 and go out.
const STAGED: &[u8] =
    b"func.func @h(%A: memref<64xi32>) {\n  affine.for %t = 0 to 64 step 16 {\n    %p = affine.apply affine_map<(d0) -> (d0)>(%t)\n    %n = arith.constant 16 : index\n    %F = memref.alloc() : memref<1x16xi32, 1>\n    %T = memref.alloc() : memref<1xi32, 2>\n    affine.dma_start %A[%p], %F[0, 0], %T[0], %n : memref<64xi32>, memref<1x16xi32, 1>, memref<1xi32, 2>\n    affine.dma_wait %T[0], %n : memref<1xi32, 2>\n    affine.for %i = affine_map<(d0) -> (d0)>(%t) to affine_map<(d0) -> (d0 + 16)>(%t) {\n      %0 = affine.load %F[0, %i - %p] : memref<1x16xi32, 1>\n      %1 = arith.constant 1 : i32\n      %2 = arith.addi %0, %1 : i32\n      affine.store %2, %F[0, %i - %p] : memref<1x16xi32, 1>\n    }\n    affine.dma_start %F[0, 0], %A[%p], %T[0], %n : memref<1x16xi32, 1>, memref<64xi32>, memref<1xi32, 2>\n    affine.dma_wait %T[0], %n : memref<1xi32, 2>\n    memref.dealloc %F : memref<1x16xi32, 1>\n    memref.dealloc %T : memref<1xi32, 2>\n  }\n  return\n}\n---\nA = 0 0 0 0 0 0 0 0 0 0 0 0 0 0 0 0 0 0 0 0 0 0 0 0 0 0 0 0 0 0 0 0 0 0 0 0 0 0 0 0 0 0 0 0 0 0 0 0 0 0 0 0 0 0 0 0 0 0 0 0 0 0 0 0\n";

/// The same in two halves: the next elements come in while those before them are raised.
const DOUBLED: &[u8] =
    b"func.func @h(%A: memref<64xi32>) {\n  %n = arith.constant 16 : index\n  %F = memref.alloc() : memref<2x16xi32, 1>\n  %T = memref.alloc() : memref<2xi32, 2>\n  affine.for %t0 = 0 to 1 step 16 {\n    %p0 = affine.apply affine_map<(d0) -> (d0)>(%t0)\n    affine.dma_start %A[%p0], %F[%t0 floordiv 16 mod 2, 0], %T[%t0 floordiv 16 mod 2], %n : memref<64xi32>, memref<2x16xi32, 1>, memref<2xi32, 2>\n  }\n  affine.for %t1 = 0 to 48 step 16 {\n    %q = affine.apply affine_map<(d0) -> (d0 + 16)>(%t1)\n    affine.dma_start %A[%q], %F[(%t1 + 16) floordiv 16 mod 2, 0], %T[(%t1 + 16) floordiv 16 mod 2], %n : memref<64xi32>, memref<2x16xi32, 1>, memref<2xi32, 2>\n    %p1 = affine.apply affine_map<(d0) -> (d0)>(%t1)\n    affine.dma_wait %T[%t1 floordiv 16 mod 2], %n : memref<2xi32, 2>\n    affine.for %i1 = affine_map<(d0) -> (d0)>(%t1) to affine_map<(d0) -> (d0 + 16)>(%t1) {\n      %x1 = affine.load %F[%t1 floordiv 16 mod 2, %i1 - %p1] : memref<2x16xi32, 1>\n      %o1 = arith.constant 1 : i32\n      %s1 = arith.addi %x1, %o1 : i32\n      affine.store %s1, %F[%t1 floordiv 16 mod 2, %i1 - %p1] : memref<2x16xi32, 1>\n    }\n    affine.dma_start %F[%t1 floordiv 16 mod 2, 0], %A[%p1], %T[%t1 floordiv 16 mod 2], %n : memref<2x16xi32, 1>, memref<64xi32>, memref<2xi32, 2>\n    affine.dma_wait %T[%t1 floordiv 16 mod 2], %n : memref<2xi32, 2>\n  }\n  affine.for %t2 = 48 to 64 step 16 {\n    %p2 = affine.apply affine_map<(d0) -> (d0)>(%t2)\n    affine.dma_wait %T[%t2 floordiv 16 mod 2], %n : memref<2xi32, 2>\n    affine.for %i2 = affine_map<(d0) -> (d0)>(%t2) to affine_map<(d0) -> (d0 + 16)>(%t2) {\n      %x2 = affine.load %F[%t2 floordiv 16 mod 2, %i2 - %p2] : memref<2x16xi32, 1>\n      %o2 = arith.constant 1 : i32\n      %s2 = arith.addi %x2, %o2 : i32\n      affine.store %s2, %F[%t2 floordiv 16 mod 2, %i2 - %p2] : memref<2x16xi32, 1>\n    }\n    affine.dma_start %F[%t2 floordiv 16 mod 2, 0], %A[%p2], %T[%t2 floordiv 16 mod 2], %n : memref<2x16xi32, 1>, memref<64xi32>, memref<2xi32, 2>\n    affine.dma_wait %T[%t2 floordiv 16 mod 2], %n : memref<2xi32, 2>\n  }\n  memref.dealloc %F : memref<2x16xi32, 1>\n  memref.dealloc %T : memref<2xi32, 2>\n  return\n}\n---\nA = 0 0 0 0 0 0 0 0 0 0 0 0 0 0 0 0 0 0 0 0 0 0 0 0 0 0 0 0 0 0 0 0 0 0 0 0 0 0 0 0 0 0 0 0 0 0 0 0 0 0 0 0 0 0 0 0 0 0 0 0 0 0 0 0\n";

/// Elements come in and are waited for.
const WAITED: &[u8] =
    b"func.func @t(%A: memref<4xi32>) {\n  %F = memref.alloc() : memref<1x4xi32, 1>\n  %T = memref.alloc() : memref<1xi32, 2>\n  %n = arith.constant 4 : index\n  affine.dma_start %A[0], %F[0, 0], %T[0], %n : memref<4xi32>, memref<1x4xi32, 1>, memref<1xi32, 2>\n  affine.dma_wait %T[0], %n : memref<1xi32, 2>\n  memref.dealloc %F : memref<1x4xi32, 1>\n  memref.dealloc %T : memref<1xi32, 2>\n  return\n}\n---\nA = 1 1 1 1\n";

/// Whether each cell of the one memref of an image has a value.
fn is_all(image: &Image, value: i64) -> bool {
    let [cells] = image.memrefs.as_slice() else {
        return false;
    };
    cells.values.as_slice().iter().all(|cell| *cell == value)
}

/// Whether the engine that a policy holds is one of two.
fn is_below(policy: Policy) -> bool
    ensures { result ≡ true → HoldsBelow 2 policy }
{
    match policy {
        Policy::Hold(engine) => engine < 2,
        Policy::Late => true,
        Policy::Early => true,
    }
}

/// The run that a policy names with two engines, of the module and the image of a source; none of a module with much work.
fn halted(alloc: Global, source: &[u8], policy: Policy) -> Result<Option<Halted>, Fail>
    requires { length source.now < 4294967295 }
{
    let parts = split(source);
    let module = verify(alloc, parse(alloc, parts.text)?)?;
    image_texts_are_exact();
    let image = parse_image(alloc, parts.image, &module)?;
    if work(alloc, &module)? > 10_000 {
        return Ok(None);
    }
    if !is_below(policy) {
        return Ok(None);
    }
    let ran = run_policy(alloc, &module, image, -1, 4_096, 2, policy)?;
    Ok(Some(ran))
}

#[test]
fn a_held_engine_holds_up_all(rt: HostRuntime) -> Result<(), Fail> {
    let alloc = rt.alloc();
    for (source, policy, steps, is_ended) in [
        (STAGED, Policy::Late, 441, true),
        (STAGED, Policy::Early, 441, true),
        (STAGED, Policy::Hold(1), 7, false),
        (DOUBLED, Policy::Late, 430, true),
        (DOUBLED, Policy::Early, 430, true),
        (DOUBLED, Policy::Hold(1), 28, false),
    ] {
        assert!(rt; source.len() < 10_000);
        let Some(run) = halted(alloc, source, policy)? else {
            panic!(rt; "not run");
        };
        assert_eq!(rt; run.steps, steps);
        assert!(rt; is_all(&run.image, if is_ended { 1 } else { 0 }));
        match run.verdict {
            Some(Verdict::End) => assert!(rt; is_ended),
            Some(Verdict::Fault(_)) => panic!(rt; "fault"),
            None => assert!(rt; !is_ended),
        }
    }
    Ok(())
}

/// Makes a step so many times, where it is enabled.
fn make_often(machine: &mut Machine<'_>, step: Step, times: u32)
    requires { IsSomewhere machine.old }
    ensures { IsSomewhere machine.new }
{
    for _turn in 0..times {
        let _ = machine.step(step);
    }
}

/// Makes steps so many times each, where they are enabled.
fn follow(machine: &mut Machine<'_>, plan: &[(Step, u32)])
    requires { IsSomewhere machine.old }
    ensures { IsSomewhere machine.new }
{
    for (step, times) in plan {
        make_often(machine, *step, *times);
    }
}

/// How a run stands after such steps.
#[derive(Drop)]
struct Standing {
    enabled: u64,
    verdict: Option<Verdict>,
    steps: u64,
    image: Image,
}

/// A run with two engines, of the module and the image of a source; none of a module with much work.
fn followed(alloc: Global, source: &[u8], plan: &[(Step, u32)]) -> Result<Option<Standing>, Fail>
    requires { length source.now < 4294967295 }
{
    let parts = split(source);
    let module = verify(alloc, parse(alloc, parts.text)?)?;
    image_texts_are_exact();
    let image = parse_image(alloc, parts.image, &module)?;
    if work(alloc, &module)? > 10_000 {
        return Ok(None);
    }
    let valid = module.module();
    let program = make(alloc, valid)?;
    let mut machine = Machine::new(alloc, &program, &module, image, -1, 4_096, 2)?;
    follow(&mut machine, plan);
    Ok(Some(Standing {
        enabled: machine.enabled(),
        verdict: machine.verdict(),
        steps: machine.steps(),
        image: machine.into_image(),
    }))
}

/// A wait is refused until its transfer is finished.
const WAITS: [(Step, u32); 6] = [
    (Step::Compute, 5),
    (Step::Compute, 1),
    (Step::Take { engine: 1, tag: 0 }, 1),
    (Step::Move { engine: 1 }, 4),
    (Step::Finish { engine: 1 }, 1),
    (Step::Compute, 4),
];

/// The held engine's transfer is left with one element moved.
const HELD: [(Step, u32); 8] = [
    (Step::Compute, 5),
    (Step::Take { engine: 1, tag: 0 }, 1),
    (Step::Move { engine: 1 }, 1),
    (Step::Compute, 3),
    (Step::Take { engine: 0, tag: 1 }, 1),
    (Step::Move { engine: 0 }, 16),
    (Step::Finish { engine: 0 }, 1),
    (Step::Move { engine: 1 }, 1),
];

#[test]
fn steps_are_made_where_they_are_enabled(rt: HostRuntime) -> Result<(), Fail> {
    let alloc = rt.alloc();
    for (source, plan, enabled, steps, value) in [
        (WAITED, WAITS.as_slice(), 0, 14, 1),
        (DOUBLED, HELD.as_slice(), 1, 29, 0),
    ] {
        assert!(rt; source.len() < 10_000);
        let Some(run) = followed(alloc, source, plan)? else {
            panic!(rt; "not run");
        };
        assert_eq!(rt; run.enabled, enabled);
        assert_eq!(rt; run.steps, steps);
        assert_eq!(rt; run.verdict.is_some(), enabled == 0);
        assert!(rt; is_all(&run.image, value));
    }
    Ok(())
}
