// Tokens, modules and their copies.
use affine_lex::tokens;
use affine_print::print;
use affine_text::{ParseFault, parse};
use std::test::Fail;

const TEXT: &[u8] =
    b"func.func @inc(%A: memref<8xi32>) {\n  affine.for %i = -2 to 8 {\n    %0 = affine.load %A[%i] : memref<8xi32> // the old value\n    %c = arith.constant 1 : i32\n    %1 = arith.addi %0, %c : i32\n    affine.store %1, %A[%i] : memref<8xi32>\n  }\n  return\n}\n";

const PRINTED: &[u8] =
    b"module {\n  func.func @inc(%A: memref<8xi32>) {\n    affine.for %i = -2 to 8 {\n      %0 = affine.load %A[%i] : memref<8xi32>\n      %c = arith.constant 1 : i32\n      %1 = arith.addi %0, %c : i32\n      affine.store %1, %A[%i] : memref<8xi32>\n    }\n    return\n  }\n}\n";

#[test]
fn a_text_is_read_copied_and_printed(rt: HostRuntime) -> Result<(), Fail> {
    let alloc = rt.alloc();
    assert_eq!(rt; tokens(alloc, TEXT)?.len(), 64);
    let module = parse(alloc, TEXT)?;
    let copy = module.copy(alloc)?;
    assert_eq!(rt; print(alloc, &copy)?.as_slice(), PRINTED);
    Ok(())
}

#[test]
fn a_token_that_cannot_stand_is_refused(rt: HostRuntime) {
    let fault = parse(
        rt.alloc(),
        b"func.func @f() {\n  %0 = arith.constant 1 : f32\n",
    );
    assert!(rt;
        matches!(
            fault,
            Err(ParseFault::Text {
                line: 2,
                column: 27
            })
        )
    );
}
