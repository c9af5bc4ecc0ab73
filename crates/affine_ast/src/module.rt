// A module: one function, its arguments and its body.
ghost use Rattle.std.specs.Prelude.{◌≡◌, IfOk};

use crate::name::{Name, Text};
use crate::stmt::{Stmt, copy_stmts};
use crate::types::MemrefType;
use affine_expr::Interval;
use sqlite_items::Items;
use std::alloc::{AllocError, Global};

/// An argument: a memref in slow memory, or an index with the range that `copy.range` gives it.
#[derive(Drop)]
pub enum ArgKind {
    Memref(MemrefType),
    Index(Option<Interval>),
}

/// An argument of the function, with the line of its first token.
#[derive(Drop)]
pub struct Arg {
    pub name: Name,
    pub kind: ArgKind,
    pub line: u32,
}

/// A module of one function. The body ends with its `return`.
#[derive(Drop)]
pub struct Module {
    pub name: Text,
    pub args: Items<Arg>,
    pub body: Items<Stmt>,
}

impl ArgKind {
    /// An equal kind.
    pub fn copy(&self, alloc: Global) -> Result<ArgKind, AllocError>
        ensures { IfOk result (λ kind. kind ≡ self.now) }
    {
        match self {
            ArgKind::Memref(ty) => Ok(ArgKind::Memref(ty.copy(alloc)?)),
            ArgKind::Index(range) => Ok(ArgKind::Index(*range)),
        }
    }
}

impl Arg {
    /// An equal argument.
    pub fn copy(&self, alloc: Global) -> Result<Arg, AllocError>
        ensures { IfOk result (λ arg. arg ≡ self.now) }
    {
        Ok(Arg {
            name: self.name.copy(alloc)?,
            kind: self.kind.copy(alloc)?,
            line: self.line,
        })
    }
}

fn copy_args(alloc: Global, args: &[Arg]) -> Result<Items<Arg>, AllocError>
    ensures { IfOk result (λ copies. copies ≡ args.now) }
{
    let mut copies = Items::new(alloc);
    for arg in args {
        copies.push(arg.copy(alloc)?)?;
    }
    Ok(copies)
}

impl Module {
    /// An equal module, with the same lines.
    pub fn copy(&self, alloc: Global) -> Result<Module, AllocError>
        ensures { IfOk result (λ copied. copied ≡ self.now) }
    {
        Ok(Module {
            name: self.name.copy(alloc)?,
            args: copy_args(alloc, self.args.as_slice())?,
            body: copy_stmts(alloc, self.body.as_slice())?,
        })
    }
}
