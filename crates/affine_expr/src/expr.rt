// The tree of an affine expression.
ghost use Rattle.std.specs.Prelude.{◌≡◌, IfOk};

use sqlite_items::Boxed;
use std::alloc::{AllocError, Global};

/// An affine expression over the dimensions and symbols of its map or set, both numbered from 0.
///
/// `floordiv` rounds toward negative infinity, `ceildiv` toward positive infinity, and `mod` by a positive number c gives
/// a result from 0 up to c - 1.
#[derive(Drop)]
pub enum Expr {
    Dim(u32),
    Sym(u32),
    Const(i64),
    Neg(Boxed<Expr>),
    Add(Boxed<Expr>, Boxed<Expr>),
    Sub(Boxed<Expr>, Boxed<Expr>),
    Mul(Boxed<Expr>, Boxed<Expr>),
    FloorDiv(Boxed<Expr>, Boxed<Expr>),
    CeilDiv(Boxed<Expr>, Boxed<Expr>),
    Mod(Boxed<Expr>, Boxed<Expr>),
}

impl Expr {
    /// An equal expression.
    #[cycle(copies)]
    pub fn copy(&self, alloc: Global) -> Result<Expr, AllocError>
        ensures { IfOk result (λ e. e ≡ self.now) }
    {
        match self {
            Expr::Dim(number) => Ok(Expr::Dim(*number)),
            Expr::Sym(number) => Ok(Expr::Sym(*number)),
            Expr::Const(value) => Ok(Expr::Const(*value)),
            Expr::Neg(part) => Ok(Expr::Neg(copy_part(alloc, part.get())?)),
            Expr::Add(left, right) => {
                let left = copy_part(alloc, left.get())?;
                Ok(Expr::Add(left, copy_part(alloc, right.get())?))
            }
            Expr::Sub(left, right) => {
                let left = copy_part(alloc, left.get())?;
                Ok(Expr::Sub(left, copy_part(alloc, right.get())?))
            }
            Expr::Mul(left, right) => {
                let left = copy_part(alloc, left.get())?;
                Ok(Expr::Mul(left, copy_part(alloc, right.get())?))
            }
            Expr::FloorDiv(left, right) => {
                let left = copy_part(alloc, left.get())?;
                Ok(Expr::FloorDiv(left, copy_part(alloc, right.get())?))
            }
            Expr::CeilDiv(left, right) => {
                let left = copy_part(alloc, left.get())?;
                Ok(Expr::CeilDiv(left, copy_part(alloc, right.get())?))
            }
            Expr::Mod(left, right) => {
                let left = copy_part(alloc, left.get())?;
                Ok(Expr::Mod(left, copy_part(alloc, right.get())?))
            }
        }
    }
}

#[cycle(copies)]
fn copy_part(alloc: Global, part: &Expr) -> Result<Boxed<Expr>, AllocError>
    ensures { IfOk result (λ e. e ≡ part.now) }
{
    let part = part.copy(alloc)?;
    Boxed::new(alloc, part)
}
