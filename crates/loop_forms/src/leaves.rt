// Expressions over the values of two maps.
ghost use Rattle.std.specs.Prelude.{◌≡◌, ◌+◌, IfOk};
ghost use Rattle.loop_forms.specs.Split.{behind};

use affine_expr::Expr;
use sqlite_items::Boxed;
use std::alloc::{AllocError, Global};

/// The number of a dimension or symbol behind so many others.
pub(crate) fn leaf_behind(others: u32, number: u32) -> Result<u32, AllocError>
    ensures { IfOk result (λ leaf. leaf ≡ others + number) }
{
    others.checked_add(number).ok_or(AllocError)
}

/// An expression whose dimensions and symbols stand behind so many others.
#[cycle(moves)]
pub(crate) fn behind(alloc: Global, dims: u32, syms: u32, expr: &Expr) -> Result<Expr, AllocError>
    ensures { IfOk result (λ moved. moved ≡ behind dims syms expr.now) }
{
    match expr {
        Expr::Dim(number) => Ok(Expr::Dim(leaf_behind(dims, *number)?)),
        Expr::Sym(number) => Ok(Expr::Sym(leaf_behind(syms, *number)?)),
        Expr::Const(_) => expr.copy(alloc),
        Expr::Neg(part) => Ok(Expr::Neg(part_behind(alloc, dims, syms, part.get())?)),
        Expr::Add(left, right) => {
            let left = part_behind(alloc, dims, syms, left.get())?;
            Ok(Expr::Add(left, part_behind(alloc, dims, syms, right.get())?))
        }
        Expr::Sub(left, right) => {
            let left = part_behind(alloc, dims, syms, left.get())?;
            Ok(Expr::Sub(left, part_behind(alloc, dims, syms, right.get())?))
        }
        Expr::Mul(left, right) => {
            let left = part_behind(alloc, dims, syms, left.get())?;
            Ok(Expr::Mul(left, part_behind(alloc, dims, syms, right.get())?))
        }
        Expr::FloorDiv(left, right) => {
            let left = part_behind(alloc, dims, syms, left.get())?;
            Ok(Expr::FloorDiv(left, part_behind(alloc, dims, syms, right.get())?))
        }
        Expr::CeilDiv(left, right) => {
            let left = part_behind(alloc, dims, syms, left.get())?;
            Ok(Expr::CeilDiv(left, part_behind(alloc, dims, syms, right.get())?))
        }
        Expr::Mod(left, right) => {
            let left = part_behind(alloc, dims, syms, left.get())?;
            Ok(Expr::Mod(left, part_behind(alloc, dims, syms, right.get())?))
        }
    }
}

#[cycle(moves)]
fn part_behind(alloc: Global, dims: u32, syms: u32, part: &Expr) -> Result<Boxed<Expr>, AllocError>
    ensures { IfOk result (λ moved. moved ≡ behind dims syms part.now) }
{
    let moved = behind(alloc, dims, syms, part)?;
    Boxed::new(alloc, moved)
}
