//! What the words and signs of a text mean.

use affine_ast::{Bound, Pick, Text};
use affine_expr::{Map, Set};
use int_ops::{CastKind, Op};
use name_table::{Named, NamedItems, Names};

/// The leaves of an expression: the parameters of a map or set, or the values in subscripts.
#[derive(Clone, Copy)]
pub enum Leaves {
    Parameters,
    Values,
}

/// An operator between two expressions.
#[derive(Clone, Copy)]
pub enum Operator {
    Add,
    Sub,
    Mul,
    FloorDiv,
    CeilDiv,
    Mod,
}

/// A statement that begins with its own word, since it has no result.
#[derive(Clone, Copy)]
pub enum Action {
    /// `affine.for`
    For,
    /// `affine.if`
    If,
    /// `affine.store`
    Store,
    /// `memref.store`
    RawStore,
    /// `memref.dealloc`
    Dealloc,
    /// `affine.dma_start`
    Start,
    /// `affine.dma_wait`
    Wait,
}

/// The word behind a result and its `=`.
#[derive(Clone, Copy)]
pub enum Definition {
    /// `affine.apply`, `affine.min` or `affine.max`
    Value(Pick),
    /// `affine.load`
    Load,
    /// `memref.load`
    RawLoad,
    /// `arith.constant`
    Constant,
    /// an integer operation of `arith`
    Binary(Op),
    /// a cast of `arith`
    Cast(CastKind),
    /// `memref.alloc`
    Alloc,
}

/// What an alias stands for.
#[derive(Drop)]
pub enum Body {
    Map(Map),
    Set(Set),
}

/// An alias with what it stands for, and the number of operands in it.
#[derive(Drop)]
pub struct Alias {
    pub name: Text,
    pub body: Body,
    pub operands: u32,
}

impl Named for Alias {
    ghost name = { λ a. a.name };

    fn name(&self) -> &[u8] {
        self.name.as_str().as_bytes()
    }
}

/// The aliases of a text in order, each found by its name.
pub type Aliases = NamedItems<Alias>;

/// What an expression is read with: its operands so far, those of the module so far, and the names of the
/// dimensions and of the symbols. In subscripts these are the values that have stood so far.
#[derive(Drop)]
pub struct State {
    pub operands: u32,
    pub total: u32,
    pub dims: Names,
    pub syms: Names,
}

/// The parameters of a map or set.
#[derive(Drop)]
pub struct Scope {
    pub dims: Names,
    pub syms: Names,
}

/// The bounds and the step of a loop, and the operands of the module up to their end.
#[derive(Drop)]
pub struct Turns {
    pub lower: Bound,
    pub upper: Bound,
    pub step: i64,
    pub total: u32,
}
