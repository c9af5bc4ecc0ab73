// Types of values, and what stands where an affine map is used.
ghost use Rattle.std.specs.Prelude.{◌≡◌, IfOk};

use crate::name::{Name, copy_names};
use affine_expr::Map;
use sqlite_items::Items;
use std::alloc::{AllocError, Global};

/// The element type of a memref: a signless integer of 8, 16, 32 or 64 bits.
#[derive(Clone, Copy)]
pub enum Element {
    I8,
    I16,
    I32,
    I64,
}

/// The type of a value that is no memref. `index` has 64 bits.
#[derive(Clone, Copy)]
pub enum Scalar {
    Int(Element),
    Index,
}

/// A memref's sizes from the outermost dimension in, its element type and its memory space: 0 is slow, 1 fast, 2 holds
/// tags.
#[derive(Drop)]
pub struct MemrefType {
    pub sizes: Items<u32>,
    pub element: Element,
    pub space: u8,
}

/// A use of an affine map: the operands of its dimensions and then of its symbols.
#[derive(Drop)]
pub struct Access {
    pub map: Map,
    pub operands: Items<Name>,
}

/// A bound of a loop: an integer, one value, or the results of a map.
#[derive(Drop)]
pub enum Bound {
    Int(i64),
    Value(Name),
    Map(Access),
}

/// Which result of a map a value takes: its only one, the least or the greatest.
#[derive(Clone, Copy)]
pub enum Pick {
    Apply,
    Min,
    Max,
}

impl MemrefType {
    /// An equal type.
    pub fn copy(&self, alloc: Global) -> Result<MemrefType, AllocError>
        ensures { IfOk result (λ ty. ty ≡ self.now) }
    {
        Ok(MemrefType {
            sizes: Items::from_slice(alloc, self.sizes.as_slice())?,
            element: self.element,
            space: self.space,
        })
    }
}

impl Access {
    /// An equal use.
    pub fn copy(&self, alloc: Global) -> Result<Access, AllocError>
        ensures { IfOk result (λ at. at ≡ self.now) }
    {
        Ok(Access {
            map: self.map.copy(alloc)?,
            operands: copy_names(alloc, self.operands.as_slice())?,
        })
    }
}

impl Bound {
    /// An equal bound.
    pub fn copy(&self, alloc: Global) -> Result<Bound, AllocError>
        ensures { IfOk result (λ bound. bound ≡ self.now) }
    {
        match self {
            Bound::Int(value) => Ok(Bound::Int(*value)),
            Bound::Value(name) => Ok(Bound::Value(name.copy(alloc)?)),
            Bound::Map(at) => Ok(Bound::Map(at.copy(alloc)?)),
        }
    }
}
