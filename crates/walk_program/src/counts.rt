// What is allocated in the text of a region.
ghost use Rattle.std.specs.Prelude.{◌≡◌, ◌+◌, IfOk, nat_eq, if◌then◌else◌};
ghost use Rattle.affine_ast.specs.Sizes.{product};
ghost use Rattle.walk_program.specs.Numbering.{AreCounts, ArePlainCounts};

use crate::plain::Plain;
use crate::statement::{Counts, Form, Statement};
use affine_ast::MemrefType;
use std::alloc::AllocError;

/// The memory space of allocations that are fast memrefs.
const FAST: u8 = 1;

/// The elements of a memref of these sizes. A product of more than 32 bits is want of memory.
fn elements(sizes: &[u32]) -> Result<u32, AllocError>
    ensures { IfOk result (λ n. n ≡ product sizes.now) }
{
    let mut elements: u32 = 1;
    for size in sizes {
        match elements.checked_mul(*size) {
            Some(product) => elements = product,
            None => return Err(AllocError),
        }
    }
    Ok(elements)
}

/// A sum of more than 32 bits is want of memory.
fn sum(left: u32, right: u32) -> Result<u32, AllocError>
    ensures { IfOk result (λ n. n ≡ left + right) }
{
    match left.checked_add(right) {
        Some(sum) => Ok(sum),
        None => Err(AllocError),
    }
}

impl Counts {
    /// Nothing is allocated.
    pub(crate) fn none() -> Counts
        ensures fasts { result.fasts ≡ 0 }
        ensures tags { result.tags ≡ 0 }
    {
        Counts { fasts: 0, tags: 0 }
    }

    /// What is allocated in two texts. A number of more than 32 bits is want of memory.
    pub(crate) fn and(self, other: Counts) -> Result<Counts, AllocError>
        ensures fasts { IfOk result (λ c. c.fasts ≡ self.fasts + other.fasts) }
        ensures tags { IfOk result (λ c. c.tags ≡ self.tags + other.tags) }
    {
        Ok(Counts {
            fasts: sum(self.fasts, other.fasts)?,
            tags: sum(self.tags, other.tags)?,
        })
    }
}

/// What one allocation of this type counts for.
fn counts_of_type(ty: &MemrefType) -> Result<Counts, AllocError>
    ensures fasts { IfOk result (λ c. c.fasts ≡ (if nat_eq ty.now.space 1 then 1 else 0)) }
    ensures tags { IfOk result (λ c. c.tags ≡ (if nat_eq ty.now.space 1 then 0 else product ty.now.sizes)) }
{
    if ty.space == FAST {
        Ok(Counts { fasts: 1, tags: 0 })
    } else {
        Ok(Counts {
            fasts: 0,
            tags: elements(ty.sizes.as_slice())?,
        })
    }
}

fn counts_of_plain(plain: &Plain) -> Result<Counts, AllocError>
    ensures { IfOk result (λ c. ArePlainCounts plain.now c) }
{
    match plain {
        Plain::Alloc { result: _, ty } => counts_of_type(ty),
        _ => Ok(Counts::none()),
    }
}

impl Statement {
    /// What is allocated in the text of the statement. A number of more than 32 bits is want of memory.
    pub(crate) fn counts(&self) -> Result<Counts, AllocError>
        ensures { IfOk result (λ c. AreCounts self.now c) }
    {
        match &self.form {
            Form::For { inside, .. } => Ok(*inside),
            Form::If {
                first_inside,
                other_inside,
                ..
            } => first_inside.and(*other_inside),
            Form::Plain(plain) => counts_of_plain(plain),
        }
    }
}
