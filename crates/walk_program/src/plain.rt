// Statements with no region inside them.

use affine_ast::{MemrefType, Pick, Scalar};
use affine_expr::Map;
use int_ops::{CastKind, Op};
use sqlite_items::Items;

/// A use of an affine map: the numbers of the operands of its dimensions and then of its symbols.
#[derive(Drop)]
pub struct Subscripts {
    pub map: Map,
    pub operands: Items<u32>,
}

/// A bound of a loop: an integer, the number of one value, or the results of a map.
#[derive(Drop)]
pub enum Limit {
    Int(i64),
    Value(u32),
    Map(Subscripts),
}

/// A statement with no region inside it. Each name is a number, all else stands as in the module.
#[derive(Drop)]
pub enum Plain {
    /// `affine.apply`, `affine.min` or `affine.max`.
    Value {
        result: u32,
        pick: Pick,
        at: Subscripts,
    },
    /// `affine.load`.
    Load {
        result: u32,
        memref: u32,
        at: Subscripts,
        ty: MemrefType,
    },
    /// `affine.store`.
    Store {
        value: u32,
        memref: u32,
        at: Subscripts,
        ty: MemrefType,
    },
    /// `memref.load`, whose subscripts are values.
    RawLoad {
        result: u32,
        memref: u32,
        at: Items<u32>,
        ty: MemrefType,
    },
    /// `memref.store`, whose subscripts are values.
    RawStore {
        value: u32,
        memref: u32,
        at: Items<u32>,
        ty: MemrefType,
    },
    /// `arith.constant`.
    Constant {
        result: u32,
        value: i64,
        ty: Scalar,
    },
    /// An integer operation of `arith`.
    Binary {
        result: u32,
        op: Op,
        left: u32,
        right: u32,
        ty: Scalar,
    },
    /// A cast of `arith`.
    Cast {
        result: u32,
        kind: CastKind,
        value: u32,
        from: Scalar,
        to: Scalar,
    },
    /// `memref.alloc`.
    Alloc {
        result: u32,
        ty: MemrefType,
    },
    /// `memref.dealloc`.
    Dealloc {
        memref: u32,
        ty: MemrefType,
    },
    /// `affine.dma_start`: of `count` elements, with a stride and then the elements of a chunk where both are given.
    /// The types are those of the source, the destination and the tags.
    Start {
        from: u32,
        from_at: Subscripts,
        to: u32,
        to_at: Subscripts,
        tag: u32,
        tag_at: Subscripts,
        count: u32,
        stride: Option<(u32, u32)>,
        types: [MemrefType; 3],
    },
    /// `affine.dma_wait`.
    Wait {
        tag: u32,
        tag_at: Subscripts,
        count: u32,
        ty: MemrefType,
    },
    /// `return`.
    Return,
}
