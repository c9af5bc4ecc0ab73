// The peak of a module, from its text alone.
ghost use Rattle.std.specs.Prelude.{◌≡◌, ℕ, ◌+◌, ◌-◌, ◌^◌, ◌≤◌, ◌<◌, min, max};
ghost use Rattle.affine_ast.specs.Nest.{Nest, Nothing, nest, put_what};
ghost use Rattle.affine_ast.specs.Sizes.{product};
ghost use Rattle.peak_laws.specs.Peak.{fast_bytes, peak_of, bytes_in, peak};
ghost use Rattle.copy_place.specs.Moves.{Moves};

use affine_ast::{MemrefType, Stmt, Verified, What};
use plan_tests::element_bytes;

/// The bytes of fast memory that are live at a place of a text, and the most that were on the way there.
#[derive(Clone, Copy)]
pub struct Live {
    pub now: u64,
    pub most: u64,
}

/// The elements of a memref of these sizes, and the greatest number where they are more.
fn elements(sizes: &[u32]) -> u64
    ensures { result ≡ min (product sizes.now) (2 ^ 64 - 1) }
{
    let mut count: u64 = 1;
    for size in sizes {
        count = count.saturating_mul(*size as u64);
    }
    count
}

/// The bytes of fast memory that a memref of this type takes, and the greatest number where they are more.
fn bytes(ty: &MemrefType) -> u64
    ensures { result ≡ min (fast_bytes ty.now) (2 ^ 64 - 1) }
{
    if ty.space == 1 {
        elements(ty.sizes.as_slice()).saturating_mul(element_bytes(ty.element))
    } else {
        0
    }
}

impl Live {
    fn allocate(&mut self, ty: &MemrefType)
        requires room { self.old.now + fast_bytes ty.now < 2 ^ 64 }
        ensures now { self.new.now ≡ self.old.now + fast_bytes ty.now }
        ensures most { self.new.most ≡ max self.old.most (self.old.now + fast_bytes ty.now) }
    {
        self.now += bytes(ty);
        self.most = self.most.max(self.now);
    }

    fn release(&mut self, ty: &MemrefType)
        ensures now { self.new.now ≡ self.old.now - fast_bytes ty.now }
        ensures most { self.new.most ≡ self.old.most }
    {
        self.now = self.now.saturating_sub(bytes(ty));
    }
}

#[cycle(walk)]
fn statement(stmt: &Stmt, live: &mut Live)
    requires room { live.old.now + bytes_in (put_what stmt.now.what stmt.now.line Nothing) < 2 ^ 64 }
    requires most { live.old.now ≤ live.old.most }
    ensures { Moves stmt.now live.old live.new }
{
    match &stmt.what {
        What::For { body, .. } => region(body.as_slice(), live),
        What::If { first, other, .. } => {
            region(first.as_slice(), live);
            match other {
                None => {}
                Some(other) => region(other.as_slice(), live),
            }
        }
        What::Alloc { ty, .. } => live.allocate(ty),
        What::Dealloc { ty, .. } => live.release(ty),
        _ => {}
    }
}

/// What is live behind a region is what was live before it.
#[cycle(walk)]
fn region(stmts: &[Stmt], live: &mut Live)
    requires room { live.old.now + bytes_in (nest stmts.now) < 2 ^ 64 }
    requires most { live.old.now ≤ live.old.most }
    ensures now { live.new.now ≡ live.old.now }
    ensures most { live.new.most ≡ max live.old.most (peak_of (nest stmts.now) live.old.now) }
{
    let outside = live.now;
    for stmt in stmts {
        statement(stmt, live);
    }
    live.now = outside;
}

/// The most bytes of fast memory that are live at once, on a walk of the text that enters every region once.
pub fn peak(module: &Verified) -> u64
    ensures { result ≡ peak «module».now.inner }
{
    let mut live = Live { now: 0, most: 0 };
    region(module.module().body.as_slice(), &mut live);
    live.most
}
