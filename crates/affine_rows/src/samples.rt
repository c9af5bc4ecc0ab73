// Large inputs made from a number.
use affine_ast::Stmt;
use affine_print::print;
use affine_text::parse;
use case_gen::sample;
use std::test::Fail;

/// The module of number 1, as it is written with aliases.
const SECOND: &[u8] = b"#id = affine_map<(d0) -> (d0)>
#up = affine_map<(d0) -> (d0 + 8)>
func.func @mm(%A: memref<32x32xi32>, %B: memref<32x32xi32>, %C: memref<32x32xi32>) {
  affine.for %it = 0 to 32 step 8 {
    affine.for %jt = 0 to 32 step 8 {
      affine.for %kt = 0 to 32 step 8 {
        affine.for %i = #id(%it) to #up(%it) {
          affine.for %j = #id(%jt) to #up(%jt) {
            affine.for %k = #id(%kt) to #up(%kt) {
              %a = affine.load %A[%i, %k] : memref<32x32xi32>
              %b = affine.load %B[%k, %j] : memref<32x32xi32>
              %c = affine.load %C[%i, %j] : memref<32x32xi32>
              %p = arith.muli %a, %b : i32
              %s = arith.addi %c, %p : i32
              affine.store %s, %C[%i, %j] : memref<32x32xi32>
            }
          }
        }
      }
    }
  }
  return
}
";

fn first_line(stmts: &[Stmt]) -> u32 {
    match stmts {
        [first, ..] => first.line,
        [] => 0,
    }
}

#[test]
fn a_sample_is_the_product_in_tiles(rt: HostRuntime) -> Result<(), Fail> {
    let alloc = rt.alloc();
    assert!(rt; SECOND.len() < 2_000);
    let (verified, _) = sample(alloc, 1)?;
    let written = parse(alloc, SECOND)?;
    let printed = print(alloc, verified.module())?;
    let expected = print(alloc, &written)?;
    assert_eq!(rt; printed.as_slice(), expected.as_slice());
    let line = first_line(verified.module().body.as_slice());
    assert_eq!(rt; line, first_line(written.body.as_slice()));
    assert!(rt; verified.plain_fault().is_none());
    Ok(())
}

#[test]
fn a_sample_has_its_memory(rt: HostRuntime) -> Result<(), Fail> {
    let (_, image) = sample(rt.alloc(), 1)?;
    let memrefs = image.memrefs.as_slice();
    assert!(rt; memrefs.len() == 3);
    let (a, b, c) = (&memrefs[0], &memrefs[1], &memrefs[2]);
    assert_eq!(rt; a.values.get(33), Some(&6));
    assert_eq!(rt; a.values.get(34), Some(&0));
    assert_eq!(rt; b.values.get(31), Some(&2));
    assert_eq!(rt; b.values.get(1023), Some(&0));
    assert_eq!(rt; c.values.get(1023), Some(&0));
    assert_eq!(rt; c.values.get(1024), None);
    Ok(())
}
