// Affine maps, integer sets and intervals.
ghost use Rattle.std.specs.Prelude.{◌≡◌, IfOk};

use crate::Expr;
use sqlite_items::Items;
use std::alloc::{AllocError, Global};

/// An affine map: the results over its dimensions and symbols, each leaf numbered below `dims` or `syms`.
#[derive(Drop)]
pub struct Map {
    pub dims: u32,
    pub syms: u32,
    pub results: Items<Expr>,
}

/// How the two sides of a constraint compare: `>=`, `<=` or `==`.
#[derive(Clone, Copy)]
pub enum Rel {
    Ge,
    Le,
    Eq,
}

/// One constraint of an integer set.
#[derive(Drop)]
pub struct Constraint {
    pub left: Expr,
    pub rel: Rel,
    pub right: Expr,
}

/// An integer set: the conjunction of its constraints over its dimensions and symbols.
#[derive(Drop)]
pub struct Set {
    pub dims: u32,
    pub syms: u32,
    pub rows: Items<Constraint>,
}

/// The whole numbers from the least to the greatest, both among them.
#[derive(Clone, Copy)]
pub struct Interval {
    pub least: i64,
    pub greatest: i64,
}

fn copy_results(alloc: Global, results: &[Expr]) -> Result<Items<Expr>, AllocError>
    ensures { IfOk result (λ copies. copies ≡ results.now) }
{
    let mut copies = Items::new(alloc);
    for expr in results {
        copies.push(expr.copy(alloc)?)?;
    }
    Ok(copies)
}

fn copy_rows(alloc: Global, rows: &[Constraint]) -> Result<Items<Constraint>, AllocError>
    ensures { IfOk result (λ copies. copies ≡ rows.now) }
{
    let mut copies = Items::new(alloc);
    for row in rows {
        copies.push(row.copy(alloc)?)?;
    }
    Ok(copies)
}

impl Map {
    /// An equal map.
    pub fn copy(&self, alloc: Global) -> Result<Map, AllocError>
        ensures { IfOk result (λ map. map ≡ self.now) }
    {
        Ok(Map {
            dims: self.dims,
            syms: self.syms,
            results: copy_results(alloc, self.results.as_slice())?,
        })
    }
}

impl Constraint {
    /// An equal constraint.
    pub fn copy(&self, alloc: Global) -> Result<Constraint, AllocError>
        ensures { IfOk result (λ row. row ≡ self.now) }
    {
        Ok(Constraint {
            left: self.left.copy(alloc)?,
            rel: self.rel,
            right: self.right.copy(alloc)?,
        })
    }
}

impl Set {
    /// An equal set.
    pub fn copy(&self, alloc: Global) -> Result<Set, AllocError>
        ensures { IfOk result (λ set. set ≡ self.now) }
    {
        Ok(Set {
            dims: self.dims,
            syms: self.syms,
            rows: copy_rows(alloc, self.rows.as_slice())?,
        })
    }
}
