// Sources of two parts, works, and runs by the direct meaning.
ghost use Rattle.std.specs.Prelude.{length, ◌<◌};

use affine_text::parse;
use affine_verify::verify;
use bus_model::{FaultKind, Verdict};
use mem_image::{image_texts_are_exact, parse_image, print_image};
use nest_meaning::{run_plain, work};
use source_parts::split;
use std::alloc::Global;
use std::test::Fail;

/// The work of a module, how its run ends, and the printed image that it leaves.
#[derive(Drop)]
struct Run {
    work: u128,
    verdict: Verdict,
    printed: Vec<u8>,
}

/// The run of the module and the image of a source, and none of a module with transfers or much work.
fn run_of(alloc: Global, source: &[u8]) -> Result<Option<Run>, Fail>
    requires { length source.now < 4294967295 }
{
    let parts = split(source);
    let module = verify(alloc, parse(alloc, parts.text)?)?;
    image_texts_are_exact();
    let mut image = parse_image(alloc, parts.image, &module)?;
    let work = work(alloc, &module)?;
    if work > 1_000 || module.plain_fault().is_some() {
        return Ok(None);
    }
    let verdict = run_plain(alloc, &module, &mut image)?;
    let printed = print_image(alloc, &image, &module)?;
    Ok(Some(Run {
        work,
        verdict,
        printed,
    }))
}

/// Each element up to the index argument is doubled: three elements, and a range with a number past them.
const DOUBLED: &[u8] =
    b"func.func @f(%A: memref<3xi8>, %n: index {copy.range = [0, 4]}) {\n  affine.for %i = 0 to %n {\n    %0 = affine.load %A[%i] : memref<3xi8>\n    %1 = arith.addi %0, %0 : i8\n    affine.store %1, %A[%i] : memref<3xi8>\n  }\n  return\n}\n---\n";

#[test]
fn modules_are_run(rt: HostRuntime) -> Result<(), Fail> {
    let alloc = rt.alloc();
    for (image, printed, is_outside) in [
        (
            b"A = 1 100 -7\nn = 3\n".as_slice(),
            b"A = 2 -56 -14\nn = 3\n".as_slice(),
            false,
        ),
        (b"A = 1 100 -7\nn = 0", b"A = 1 100 -7\nn = 0\n", false),
        (b"A = 1 2 3\nn = 4\n", b"A = 2 4 6\nn = 4\n", true),
    ] {
        let mut source = Vec::from_slice(alloc, DOUBLED)?;
        source.extend_from_slice(image)?;
        assert!(rt; source.len() < 1_000);
        let Some(run) = run_of(alloc, source.as_slice())? else {
            panic!(rt; "not run");
        };
        assert_eq!(rt; run.work, 13);
        assert_eq!(rt; run.printed.as_slice(), printed);
        match run.verdict {
            Verdict::End => assert!(rt; !is_outside),
            Verdict::Fault(kind) => assert!(rt; is_outside && matches!(kind, FaultKind::Bounds)),
        }
    }
    Ok(())
}
