// Validity, and the limits of modules that are staged or run directly.
use affine_text::parse;
use affine_verify::{VerifyFault, verify};
use std::test::Fail;

/// Modules that break a rule: the text, the line and the rule.
const BROKEN: [(&[u8], u32, u8); 14] = [
    (
        b"func.func @f(%A: memref<8xi32>) {\n  %0 = affine.load %A[%i] : memref<8xi32>\n  return\n}\n",
        2,
        1,
    ),
    (
        b"func.func @f(%A: memref<8xi32>, %A: memref<8xi32>) {\n  return\n}\n",
        1,
        2,
    ),
    (
        b"func.func @f(%n: index {copy.range = [2, 1]}) {\n  return\n}\n",
        1,
        3,
    ),
    (
        b"func.func @f(%A: memref<8xi32>) {\n  affine.for %i = 0 to 8 {\n    %0 = affine.load %A[symbol(%i)] : memref<8xi32>\n  }\n  return\n}\n",
        3,
        4,
    ),
    (
        b"func.func @f(%A: memref<8xi32>) {\n  %0 = affine.load %A[0] : memref<8xi64>\n  return\n}\n",
        2,
        5,
    ),
    (
        b"func.func @f() {\n  %c = arith.constant 128 : i8\n  return\n}\n",
        2,
        6,
    ),
    (
        b"func.func @f(%A: memref<8xi32>) {\n  %0 = affine.load %A[0, 0] : memref<8xi32>\n  return\n}\n",
        2,
        7,
    ),
    (
        b"func.func @f(%A: memref<8xi32>) {\n  affine.for %i = 0 to 8 {\n    %0 = affine.load %A[%i mod 0] : memref<8xi32>\n  }\n  return\n}\n",
        3,
        8,
    ),
    (
        b"func.func @f(%A: memref<8xi32>) {\n  affine.for %i = 0 to 4 {\n    %0 = affine.load %A[%i * 2305843009213693952] : memref<8xi32>\n  }\n  return\n}\n",
        3,
        9,
    ),
    (
        b"func.func @f(%A: memref<8xi32>) {\n  memref.dealloc %A : memref<8xi32>\n  return\n}\n",
        2,
        10,
    ),
    (
        b"func.func @f() {\n  %F = memref.alloc() : memref<1x4xi32, 1>\n  return\n}\n",
        2,
        10,
    ),
    (
        b"func.func @f() {\n  %F = memref.alloc() : memref<1x4xi32, 1>\n  memref.dealloc %F : memref<1x4xi32, 1>\n  %0 = affine.load %F[0, 0] : memref<1x4xi32, 1>\n  return\n}\n",
        4,
        10,
    ),
    (b"func.func @f(%A: memref<0xi32>) {\n  return\n}\n", 1, 11),
    // an interval that reaches 2^62 exactly is no fault; the type of the next line is one, and its name another
    (
        b"func.func @f(%A: memref<8xi32>) {\n  affine.for %i = 0 to 3 {\n    %0 = affine.load %A[%i * 2305843009213693952] : memref<8xi32>\n    affine.store %0, %B[%i] : memref<8xi64>\n  }\n  return\n}\n",
        4,
        1,
    ),
];

const TRANSFER: &[u8] =
    b"func.func @t(%A: memref<4xi32>) {\n  %F = memref.alloc() : memref<1x4xi32, 1>\n  %T = memref.alloc() : memref<1xi32, 2>\n  %n = arith.constant 4 : index\n  affine.dma_start %A[0], %F[0, 0], %T[0], %n : memref<4xi32>, memref<1x4xi32, 1>, memref<1xi32, 2>\n  affine.dma_wait %T[0], %n : memref<1xi32, 2>\n  memref.dealloc %F : memref<1x4xi32, 1>\n  memref.dealloc %T : memref<1xi32, 2>\n  return\n}\n";

#[test]
fn the_first_broken_rule_is_found(rt: HostRuntime) -> Result<(), Fail> {
    let alloc = rt.alloc();
    for (text, wanted_line, wanted_rule) in BROKEN {
        match verify(alloc, parse(alloc, text)?) {
            Err(VerifyFault::Invalid { line, rule }) => {
                assert_eq!(rt; (line, rule), (wanted_line, wanted_rule));
            }
            _ => assert!(rt; false, "at rule {wanted_rule}"),
        }
    }
    Ok(())
}

#[test]
fn a_valid_module_is_sealed(rt: HostRuntime) -> Result<(), Fail> {
    let alloc = rt.alloc();
    let verified = verify(alloc, parse(alloc, TRANSFER)?)?;
    assert_eq!(rt; verified.plain_fault(), Some(2));
    assert_eq!(rt; verified.module().args.len(), 1);
    let deep =
        b"func.func @f(%A: memref<8xi32>) {\n  affine.for %i = 0 to 8 {\n    %0 = affine.load %A[%i + 0 * -(5)] : memref<8xi32>\n  }\n  return\n}\n";
    let plain = verify(alloc, parse(alloc, deep)?)?;
    assert_eq!(rt; plain.plain_fault(), None);
    Ok(())
}
