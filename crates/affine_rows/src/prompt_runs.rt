// Runs by the prompt meaning.
ghost use Rattle.std.specs.Prelude.{length, ◌<◌};

use affine_text::parse;
use affine_verify::verify;
use bus_model::{FaultKind, Verdict};
use mem_image::{image_texts_are_exact, parse_image, print_image};
use nest_meaning::work;
use prompt_meaning::{Prompt, run_prompt};
use source_parts::split;
use std::alloc::Global;
use std::test::Fail;

/// How a run ends, and the printed image that it leaves.
#[derive(Drop)]
struct Run {
    prompt: Prompt,
    printed: Vec<u8>,
}

/// The run of the module and the image of a source at a capacity, and none of a module with much work.
fn run_of(alloc: Global, source: &[u8], capacity: u64) -> Result<Option<Run>, Fail>
    requires { length source.now < 4294967295 }
{
    let parts = split(source);
    let module = verify(alloc, parse(alloc, parts.text)?)?;
    image_texts_are_exact();
    let mut image = parse_image(alloc, parts.image, &module)?;
    if work(alloc, &module)? > 1_000 {
        return Ok(None);
    }
    let prompt = run_prompt(alloc, &module, &mut image, -1, capacity)?;
    let printed = print_image(alloc, &image, &module)?;
    Ok(Some(Run { prompt, printed }))
}

const HEAD: &[u8] =
    b"func.func @t(%A: memref<4xi32>) {\n  %F = memref.alloc() : memref<1x4xi32, 1>\n  %T = memref.alloc() : memref<1xi32, 2>\n  %n = arith.constant ";

const START: &[u8] =
    b"  affine.dma_start %A[0], %F[0, 0], %T[0], %n : memref<4xi32>, memref<1x4xi32, 1>, memref<1xi32, 2>\n";

const LOAD: &[u8] = b"  %0 = affine.load %F[0, 0] : memref<1x4xi32, 1>\n";

const STORE: &[u8] = b"  %0 = arith.constant 5 : i32\n  affine.store %0, %A[0] : memref<4xi32>\n";

const WAIT: &[u8] = b"  affine.dma_wait %T[0], %n : memref<1xi32, 2>\n";

const END: &[u8] =
    b"  memref.dealloc %F : memref<1x4xi32, 1>\n  memref.dealloc %T : memref<1xi32, 2>\n  return\n}\n---\nA = 1 2 3 4\n";

fn is_kind(verdict: &Verdict, kind: FaultKind) -> bool {
    match (verdict, kind) {
        (Verdict::Fault(FaultKind::Touched), FaultKind::Touched) => true,
        (Verdict::Fault(FaultKind::Tag), FaultKind::Tag) => true,
        (Verdict::Fault(FaultKind::Race), FaultKind::Race) => true,
        (Verdict::Fault(FaultKind::Capacity), FaultKind::Capacity) => true,
        (Verdict::Fault(FaultKind::Bounds), FaultKind::Bounds) => true,
        _ => false,
    }
}

#[test]
fn transfers_fault_as_they_must(rt: HostRuntime) -> Result<(), Fail> {
    let alloc = rt.alloc();
    for (count, between, wait, capacity, kind) in [
        (b"4 : index\n", LOAD, WAIT, 16, FaultKind::Touched),
        (b"4 : index\n", START, WAIT, 16, FaultKind::Tag),
        (b"4 : index\n", STORE, WAIT, 16, FaultKind::Race),
        (
            b"4 : index\n",
            b"".as_slice(),
            WAIT,
            15,
            FaultKind::Capacity,
        ),
        (b"4 : index\n", b"", b"".as_slice(), 16, FaultKind::Touched),
        (b"5 : index\n", LOAD, WAIT, 16, FaultKind::Bounds),
    ] {
        let mut source = Vec::from_slice(alloc, HEAD)?;
        for part in [count.as_slice(), START, between, wait, END] {
            source.extend_from_slice(part)?;
        }
        assert!(rt; source.len() < 2_000);
        let Some(run) = run_of(alloc, source.as_slice(), capacity)? else {
            panic!(rt; "not run");
        };
        assert!(rt; is_kind(&run.prompt.verdict, kind));
        assert_eq!(rt; run.printed.as_slice(), b"A = 1 2 3 4\n".as_slice());
    }
    Ok(())
}

#[test]
fn a_transfer_that_is_waited_for_ends(rt: HostRuntime) -> Result<(), Fail> {
    let alloc = rt.alloc();
    let mut source = Vec::from_slice(alloc, HEAD)?;
    for part in [b"4 : index\n".as_slice(), START, WAIT, END] {
        source.extend_from_slice(part)?;
    }
    assert!(rt; source.len() < 2_000);
    let Some(run) = run_of(alloc, source.as_slice(), 16)? else {
        panic!(rt; "not run");
    };
    assert!(rt; matches!(run.prompt.verdict, Verdict::End));
    assert_eq!(rt; run.prompt.actions, 8);
    assert_eq!(rt; run.prompt.engine_steps, 6);
    assert_eq!(rt; run.prompt.peak, 16);
    assert_eq!(rt; run.printed.as_slice(), b"A = 1 2 3 4\n".as_slice());
    Ok(())
}
