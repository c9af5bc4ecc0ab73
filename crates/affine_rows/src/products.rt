// The staged product of two matrices by threads.
use crate::calls::written;
use dma_engine::OpenGate;
use std::alloc::{AllocError, Global};
use std::test::Fail;

/// 100 x 100 matrices in tiles of 32 x 32; those of two of them are doubled in fast memory, the tiles of the product stay for all
/// steps of a sum.
const PRODUCT: &[u8] = b"module {
  func.func @mm(%A: memref<100x100xi32>, %B: memref<100x100xi32>, %C: memref<100x100xi32>) {
    affine.for %it = 0 to 100 step 32 {
      affine.for %jt = 0 to 100 step 32 {
        %copy0 = affine.min affine_map<(d0) -> (d0, 68)>(%it)
        %copy1 = affine.max affine_map<(d0) -> (d0, 0)>(%copy0)
        %copy2 = affine.min affine_map<(d0) -> (d0, 68)>(%jt)
        %copy3 = affine.max affine_map<(d0) -> (d0, 0)>(%copy2)
        %copy4 = arith.constant 1024 : index
        %copy5 = arith.constant 100 : index
        %copy6 = arith.constant 32 : index
        %copy7 = memref.alloc() : memref<1x32x32xi32, 1>
        %copy8 = memref.alloc() : memref<1xi32, 2>
        affine.dma_start %C[%copy1, %copy3], %copy7[0, 0, 0], %copy8[0], %copy4, %copy5, %copy6 : memref<100x100xi32>, memref<1x32x32xi32, 1>, memref<1xi32, 2>
        affine.dma_wait %copy8[0], %copy4 : memref<1xi32, 2>
        %copy9 = arith.constant 1024 : index
        %copy10 = arith.constant 100 : index
        %copy11 = arith.constant 32 : index
        %copy12 = memref.alloc() : memref<2x32x32xi32, 1>
        %copy13 = memref.alloc() : memref<2xi32, 2>
        %copy14 = arith.constant 1024 : index
        %copy15 = arith.constant 100 : index
        %copy16 = arith.constant 32 : index
        %copy17 = memref.alloc() : memref<2x32x32xi32, 1>
        %copy18 = memref.alloc() : memref<2xi32, 2>
        affine.for %kt = 0 to 1 step 32 {
          %copy19 = affine.min affine_map<(d0) -> (d0, 68)>(%it)
          %copy20 = affine.max affine_map<(d0) -> (d0, 0)>(%copy19)
          %copy21 = affine.min affine_map<(d0) -> (d0, 68)>(%kt)
          %copy22 = affine.max affine_map<(d0) -> (d0, 0)>(%copy21)
          affine.dma_start %A[%copy20, %copy22], %copy12[%kt floordiv 32 mod 2, 0, 0], %copy13[%kt floordiv 32 mod 2], %copy9, %copy10, %copy11 : memref<100x100xi32>, memref<2x32x32xi32, 1>, memref<2xi32, 2>
          %copy23 = affine.min affine_map<(d0) -> (d0, 68)>(%kt)
          %copy24 = affine.max affine_map<(d0) -> (d0, 0)>(%copy23)
          %copy25 = affine.min affine_map<(d0) -> (d0, 68)>(%jt)
          %copy26 = affine.max affine_map<(d0) -> (d0, 0)>(%copy25)
          affine.dma_start %B[%copy24, %copy26], %copy17[%kt floordiv 32 mod 2, 0, 0], %copy18[%kt floordiv 32 mod 2], %copy14, %copy15, %copy16 : memref<100x100xi32>, memref<2x32x32xi32, 1>, memref<2xi32, 2>
        }
        affine.for %kt = 0 to 68 step 32 {
          %copy27 = affine.min affine_map<(d0) -> (d0, 68)>(%it)
          %copy28 = affine.max affine_map<(d0) -> (d0, 0)>(%copy27)
          %copy29 = affine.min affine_map<(d0) -> (d0 + 32, 68)>(%kt)
          %copy30 = affine.max affine_map<(d0) -> (d0, 0)>(%copy29)
          affine.dma_start %A[%copy28, %copy30], %copy12[(%kt + 32) floordiv 32 mod 2, 0, 0], %copy13[(%kt + 32) floordiv 32 mod 2], %copy9, %copy10, %copy11 : memref<100x100xi32>, memref<2x32x32xi32, 1>, memref<2xi32, 2>
          %copy31 = affine.min affine_map<(d0) -> (d0 + 32, 68)>(%kt)
          %copy32 = affine.max affine_map<(d0) -> (d0, 0)>(%copy31)
          %copy33 = affine.min affine_map<(d0) -> (d0, 68)>(%jt)
          %copy34 = affine.max affine_map<(d0) -> (d0, 0)>(%copy33)
          affine.dma_start %B[%copy32, %copy34], %copy17[(%kt + 32) floordiv 32 mod 2, 0, 0], %copy18[(%kt + 32) floordiv 32 mod 2], %copy14, %copy15, %copy16 : memref<100x100xi32>, memref<2x32x32xi32, 1>, memref<2xi32, 2>
          %copy35 = affine.min affine_map<(d0) -> (d0, 68)>(%it)
          %copy36 = affine.max affine_map<(d0) -> (d0, 0)>(%copy35)
          %copy37 = affine.min affine_map<(d0) -> (d0, 68)>(%kt)
          %copy38 = affine.max affine_map<(d0) -> (d0, 0)>(%copy37)
          affine.dma_wait %copy13[%kt floordiv 32 mod 2], %copy9 : memref<2xi32, 2>
          %copy39 = affine.min affine_map<(d0) -> (d0, 68)>(%kt)
          %copy40 = affine.max affine_map<(d0) -> (d0, 0)>(%copy39)
          %copy41 = affine.min affine_map<(d0) -> (d0, 68)>(%jt)
          %copy42 = affine.max affine_map<(d0) -> (d0, 0)>(%copy41)
          affine.dma_wait %copy18[%kt floordiv 32 mod 2], %copy14 : memref<2xi32, 2>
          affine.for %i = affine_map<(d0) -> (d0)>(%it) to min affine_map<(d0) -> (d0 + 32, 100)>(%it) {
            affine.for %j = affine_map<(d0) -> (d0)>(%jt) to min affine_map<(d0) -> (d0 + 32, 100)>(%jt) {
              affine.for %k = affine_map<(d0) -> (d0)>(%kt) to min affine_map<(d0) -> (d0 + 32, 100)>(%kt) {
                %0 = affine.load %copy12[%kt floordiv 32 mod 2, %i - %copy36, %k - %copy38] : memref<2x32x32xi32, 1>
                %1 = affine.load %copy17[%kt floordiv 32 mod 2, %k - %copy40, %j - %copy42] : memref<2x32x32xi32, 1>
                %2 = affine.load %copy7[0, %i - %copy1, %j - %copy3] : memref<1x32x32xi32, 1>
                %3 = arith.muli %0, %1 : i32
                %4 = arith.addi %2, %3 : i32
                affine.store %4, %copy7[0, %i - %copy1, %j - %copy3] : memref<1x32x32xi32, 1>
              }
            }
          }
        }
        affine.for %kt = 96 to 100 step 32 {
          %copy43 = affine.min affine_map<(d0) -> (d0, 68)>(%it)
          %copy44 = affine.max affine_map<(d0) -> (d0, 0)>(%copy43)
          %copy45 = affine.min affine_map<(d0) -> (d0, 68)>(%kt)
          %copy46 = affine.max affine_map<(d0) -> (d0, 0)>(%copy45)
          affine.dma_wait %copy13[%kt floordiv 32 mod 2], %copy9 : memref<2xi32, 2>
          %copy47 = affine.min affine_map<(d0) -> (d0, 68)>(%kt)
          %copy48 = affine.max affine_map<(d0) -> (d0, 0)>(%copy47)
          %copy49 = affine.min affine_map<(d0) -> (d0, 68)>(%jt)
          %copy50 = affine.max affine_map<(d0) -> (d0, 0)>(%copy49)
          affine.dma_wait %copy18[%kt floordiv 32 mod 2], %copy14 : memref<2xi32, 2>
          affine.for %i = affine_map<(d0) -> (d0)>(%it) to min affine_map<(d0) -> (d0 + 32, 100)>(%it) {
            affine.for %j = affine_map<(d0) -> (d0)>(%jt) to min affine_map<(d0) -> (d0 + 32, 100)>(%jt) {
              affine.for %k = affine_map<(d0) -> (d0)>(%kt) to min affine_map<(d0) -> (d0 + 32, 100)>(%kt) {
                %0 = affine.load %copy12[%kt floordiv 32 mod 2, %i - %copy44, %k - %copy46] : memref<2x32x32xi32, 1>
                %1 = affine.load %copy17[%kt floordiv 32 mod 2, %k - %copy48, %j - %copy50] : memref<2x32x32xi32, 1>
                %2 = affine.load %copy7[0, %i - %copy1, %j - %copy3] : memref<1x32x32xi32, 1>
                %3 = arith.muli %0, %1 : i32
                %4 = arith.addi %2, %3 : i32
                affine.store %4, %copy7[0, %i - %copy1, %j - %copy3] : memref<1x32x32xi32, 1>
              }
            }
          }
        }
        memref.dealloc %copy17 : memref<2x32x32xi32, 1>
        memref.dealloc %copy18 : memref<2xi32, 2>
        memref.dealloc %copy12 : memref<2x32x32xi32, 1>
        memref.dealloc %copy13 : memref<2xi32, 2>
        affine.dma_start %copy7[0, 0, 0], %C[%copy1, %copy3], %copy8[0], %copy4, %copy5, %copy6 : memref<1x32x32xi32, 1>, memref<100x100xi32>, memref<1xi32, 2>
        affine.dma_wait %copy8[0], %copy4 : memref<1xi32, 2>
        memref.dealloc %copy7 : memref<1x32x32xi32, 1>
        memref.dealloc %copy8 : memref<1xi32, 2>
      }
    }
    return
  }
}
---
";

/// A line of an image: the name, and 10,000 times the same number.
fn put_row(out: &mut Vec<u8>, name: &[u8], number: &[u8]) -> Result<(), AllocError> {
    out.extend_from_slice(name)?;
    for _element in 0..10_000 {
        out.extend_from_slice(number)?;
    }
    out.extend_from_slice(b"\n")
}

/// The image of three matrices, all of the third with this number.
fn put_image(out: &mut Vec<u8>, number: &[u8]) -> Result<(), AllocError> {
    put_row(out, b"A =", b" 1")?;
    put_row(out, b"B =", b" 2")?;
    put_row(out, b"C =", number)
}

#[test]
fn a_product_of_matrices_is_run_by_threads(rt: HostRuntime) -> Result<(), Fail> {
    let alloc: Global = rt.alloc();
    let mut source = Vec::from_slice(alloc, PRODUCT)?;
    put_image(&mut source, b" 0")?;
    let mut image = Vec::new(alloc);
    put_image(&mut image, b" 200")?;
    for engines in ["--engines=1", "--engines=2", "--engines=4"] {
        let words = ["run", "--capacity=20480", engines];
        let Some(output) = written(alloc, &rt, &words, source.as_slice(), &OpenGate)? else {
            panic!(rt; "not run");
        };
        assert_eq!(rt; output.as_slice(), image.as_slice());
    }
    Ok(())
}
