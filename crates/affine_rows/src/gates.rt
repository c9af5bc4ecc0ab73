// That engine threads run beside the compute thread: the gate's holds end only where they do.
use crate::calls::written;
use dma_engine::Gate;
use std::sync::atomic::{AtomicBool, Ordering};
use std::test::Fail;
use std::thread;

/// The turns of a hold before it gives up.
const TURNS: u32 = 1_073_741_824;

/// Holds the first finish of tag 1 until a word was stored, and the first store until that finish was entered. In one thread
/// whichever comes first waits for the other.
#[derive(Drop)]
struct Hold {
    finishing: AtomicBool,
    storing: AtomicBool,
    stored: AtomicBool,
    gave_up: AtomicBool,
}

impl Hold {
    fn new() -> Hold {
        Hold {
            finishing: AtomicBool::new(false),
            storing: AtomicBool::new(false),
            stored: AtomicBool::new(false),
            gave_up: AtomicBool::new(false),
        }
    }

    /// Waits until the flag is set, or gives up.
    fn until(&self, flag: &AtomicBool) {
        for turn in 0..TURNS {
            if flag.load(Ordering::SeqCst) {
                return;
            }
            if turn % 4096 == 0 {
                thread::yield_now();
            }
        }
        self.gave_up.store(true, Ordering::SeqCst);
    }

    /// Whether both calls were entered and no hold gave up.
    fn was_kept(&self) -> bool {
        self.finishing.load(Ordering::SeqCst)
            && self.storing.load(Ordering::SeqCst)
            && !self.gave_up.load(Ordering::SeqCst)
    }
}

impl Gate for Hold {
    fn before_take(&self, _engine: u32, _tag: u32) {}

    fn after_take(&self, _engine: u32, _tag: u32) {}

    fn before_finish(&self, _engine: u32, tag: u32) {
        if tag == 1 && !self.finishing.swap(true, Ordering::SeqCst) {
            self.until(&self.stored);
        }
    }

    fn before_store(&self) {
        if !self.storing.swap(true, Ordering::SeqCst) {
            self.until(&self.finishing);
        }
    }

    fn after_store(&self) {
        self.stored.store(true, Ordering::SeqCst);
    }

    fn before_collect(&self, _tag: u32) {}

    fn may_help(&self) -> bool {
        false
    }
}

// The elements of a memref are raised by one, in a ring of two halves: the next half is under way meanwhile.
const RING: &[u8] = b"module {
  func.func @raise(%A: memref<64xi32>) {
    %copy0 = arith.constant 16 : index
    %copy1 = memref.alloc() : memref<2x16xi32, 1>
    %copy2 = memref.alloc() : memref<2xi32, 2>
    affine.for %it = 0 to 1 step 16 {
      %copy3 = affine.apply affine_map<(d0) -> (d0)>(%it)
      affine.dma_start %A[%copy3], %copy1[%it floordiv 16 mod 2, 0], %copy2[%it floordiv 16 mod 2], %copy0 : memref<64xi32>, memref<2x16xi32, 1>, memref<2xi32, 2>
    }
    affine.for %it = 0 to 48 step 16 {
      %copy4 = affine.apply affine_map<(d0) -> (d0 + 16)>(%it)
      affine.dma_start %A[%copy4], %copy1[(%it + 16) floordiv 16 mod 2, 0], %copy2[(%it + 16) floordiv 16 mod 2], %copy0 : memref<64xi32>, memref<2x16xi32, 1>, memref<2xi32, 2>
      %copy5 = affine.apply affine_map<(d0) -> (d0)>(%it)
      affine.dma_wait %copy2[%it floordiv 16 mod 2], %copy0 : memref<2xi32, 2>
      affine.for %i = affine_map<(d0) -> (d0)>(%it) to affine_map<(d0) -> (d0 + 16)>(%it) {
        %0 = affine.load %copy1[%it floordiv 16 mod 2, %i - %copy5] : memref<2x16xi32, 1>
        %c = arith.constant 1 : i32
        %1 = arith.addi %0, %c : i32
        affine.store %1, %copy1[%it floordiv 16 mod 2, %i - %copy5] : memref<2x16xi32, 1>
      }
      affine.dma_start %copy1[%it floordiv 16 mod 2, 0], %A[%copy5], %copy2[%it floordiv 16 mod 2], %copy0 : memref<2x16xi32, 1>, memref<64xi32>, memref<2xi32, 2>
      affine.dma_wait %copy2[%it floordiv 16 mod 2], %copy0 : memref<2xi32, 2>
    }
    affine.for %it = 48 to 64 step 16 {
      %copy6 = affine.apply affine_map<(d0) -> (d0)>(%it)
      affine.dma_wait %copy2[%it floordiv 16 mod 2], %copy0 : memref<2xi32, 2>
      affine.for %i = affine_map<(d0) -> (d0)>(%it) to affine_map<(d0) -> (d0 + 16)>(%it) {
        %0 = affine.load %copy1[%it floordiv 16 mod 2, %i - %copy6] : memref<2x16xi32, 1>
        %c = arith.constant 1 : i32
        %1 = arith.addi %0, %c : i32
        affine.store %1, %copy1[%it floordiv 16 mod 2, %i - %copy6] : memref<2x16xi32, 1>
      }
      affine.dma_start %copy1[%it floordiv 16 mod 2, 0], %A[%copy6], %copy2[%it floordiv 16 mod 2], %copy0 : memref<2x16xi32, 1>, memref<64xi32>, memref<2xi32, 2>
      affine.dma_wait %copy2[%it floordiv 16 mod 2], %copy0 : memref<2xi32, 2>
    }
    memref.dealloc %copy1 : memref<2x16xi32, 1>
    memref.dealloc %copy2 : memref<2xi32, 2>
    return
  }
}
---
A = 0 0 0 0 0 0 0 0 0 0 0 0 0 0 0 0 0 0 0 0 0 0 0 0 0 0 0 0 0 0 0 0 0 0 0 0 0 0 0 0 0 0 0 0 0 0 0 0 0 0 0 0 0 0 0 0 0 0 0 0 0 0 0 0
";

const RAISED: &[u8] =
    b"A = 1 1 1 1 1 1 1 1 1 1 1 1 1 1 1 1 1 1 1 1 1 1 1 1 1 1 1 1 1 1 1 1 1 1 1 1 1 1 1 1 1 1 1 1 1 1 1 1 1 1 1 1 1 1 1 1 1 1 1 1 1 1 1 1
";

#[test]
fn engines_run_beside_the_compute_thread(rt: HostRuntime) -> Result<(), Fail> {
    let alloc = rt.alloc();
    for engines in ["--engines=3", "--engines=4", "--engines=8"] {
        let hold = Hold::new();
        let Some(image) = written(alloc, &rt, &["run", engines], RING, &hold)? else {
            panic!(rt; "not run");
        };
        assert_eq!(rt; image.as_slice(), RAISED);
        assert!(rt; hold.was_kept());
    }
    Ok(())
}
