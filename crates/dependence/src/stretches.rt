//! The rows that put one number into a dimension of a box.

ghost use Rattle.std.specs.Prelude.{◌≡◌, ◌<◌, ◌≤◌, ◌+◌, length, IfOk, pos, neg_ℤ};
ghost use Rattle.num_row.specs.Ints.{narrowed};
ghost use Rattle.constraint_set.specs.Reach.{negated};
ghost use Rattle.constraint_set.specs.Lists.{Each};
ghost use Rattle.projection.specs.Answers.{Meets, Appends};
ghost use Rattle.dependence.specs.Clashes.{stretch_of, with_variable, stretch_rows, dimension_rows, common_rows};

use crate::turns::LaterTurn;
use constraint_set::Row;
use nest_domain::RegionDim;
use num_row::exact_add;
use projection::ReachFault;
use std::alloc::{AllocError, Global};

fn opposite(number: i128) -> Option<i128>
    ensures { result ≡ narrowed (neg_ℤ number) }
{
    number.checked_neg()
}

/// The negated numbers.
fn negated(alloc: Global, numbers: &[i128]) -> Result<Vec<i128>, ReachFault>
    ensures { Meets (negated numbers.now) (λ out. out.items) result }
{
    let mut out = Vec::new(alloc);
    for number in numbers {
        let Some(opposite) = opposite(*number) else {
            return Err(ReachFault::Wide);
        };
        out.push(opposite)?;
    }
    Ok(out)
}

/// The coefficients with that of variable `place` behind them.
fn with_variable(
    alloc: Global,
    place: usize,
    coef: i128,
    coefs: &[i128],
) -> Result<Vec<i128>, AllocError>
    ensures { IfOk result (λ out. out.items ≡ with_variable place coef coefs.now) }
{
    let mut out = Vec::from_slice(alloc, coefs)?;
    let zeros: Vec<i128> = vec![in alloc; 0; place.saturating_sub(coefs.len())]?;
    out.extend_from_slice(&zeros)?;
    out.push(coef)?;
    Ok(out)
}

/// Appends the rows that put variable `place` into so many numbers from a form on.
fn push_stretch(
    alloc: Global,
    place: usize,
    begin: &Row,
    extent: u32,
    out: &mut Vec<Row>,
) -> Result<(), ReachFault>
    ensures { Appends (stretch_rows place begin.now (pos extent)) out.old.items out.new.items result }
{
    let low = negated(alloc, &begin.coefs)?;
    let Some(below) = opposite(begin.constant) else {
        return Err(ReachFault::Wide);
    };
    let Some(top) = exact_add(begin.constant, extent as i128 - 1) else {
        return Err(ReachFault::Wide);
    };
    let from = with_variable(alloc, place, 1, &low)?;
    let up_to = with_variable(alloc, place, -1, &begin.coefs)?;
    out.push(Row {
        coefs: from,
        constant: below,
    })?;
    out.push(Row {
        coefs: up_to,
        constant: top,
    })?;
    Ok(())
}

/// Where a dimension of a box begins: at 0, where it is clamped.
fn begin_of(alloc: Global, dim: &RegionDim, size: u32) -> Result<Row, AllocError>
    ensures { IfOk result (λ row. row ≡ (stretch_of dim.now size).begin) }
{
    if dim.clamped {
        let coefs = vec![in alloc; 0; dim.coefs.len()]?;
        return Ok(Row { coefs, constant: 0 });
    }
    let coefs = Vec::from_slice(alloc, &dim.coefs)?;
    Ok(Row {
        coefs,
        constant: dim.offset,
    })
}

/// How many numbers it has: all of the memref, where it is clamped.
fn extent_of(dim: &RegionDim, size: u32) -> u32
    ensures { pos result ≡ (stretch_of dim.now size).extent }
{
    if dim.clamped { size } else { dim.extent }
}

impl LaterTurn {
    #[tactic(auto, using(crate::proofs::Appending::dimension_made, crate::proofs::Appending::no_first, crate::proofs::Appending::no_later, crate::proofs::Appending::no_second))]
    /// Appends the rows that put variable `place` into both boxes in one dimension.
    fn push_dimension(
        self,
        alloc: Global,
        place: usize,
        first: &RegionDim,
        second: &RegionDim,
        size: u32,
        out: &mut Vec<Row>,
    ) -> Result<(), ReachFault>
        requires outer { self.outer ≤ length second.now.coefs }
        requires var { self.var < self.outer }
        ensures { Appends (dimension_rows self.outer self.locals self.var self.distance place first.now second.now size) out.old.items out.new.items result }
    {
        let begin = begin_of(alloc, first, size)?;
        push_stretch(alloc, place, &begin, extent_of(first, size), out)?;
        let begin = begin_of(alloc, second, size)?;
        let moved = self.row(alloc, &begin)?;
        push_stretch(alloc, place, &moved, extent_of(second, size), out)?;
        Ok(())
    }

    /// Appends the rows that put one number a dimension, from variable `place` on, into both boxes.
    pub(crate) fn push_common(
        self,
        alloc: Global,
        place: usize,
        first: &[RegionDim],
        second: &[RegionDim],
        sizes: &[u32],
        out: &mut Vec<Row>,
    ) -> Result<(), ReachFault>
        requires first { length first.now ≡ length sizes.now }
        requires second { length second.now ≡ length sizes.now }
        requires few { place + length sizes.now ≤ 64 }
        requires outer { Each (λ d. self.outer ≤ length d.coefs) second.now }
        requires var { self.var < self.outer }
        ensures { Appends (common_rows self.outer self.locals self.var self.distance place first.now second.now sizes.now) out.old.items out.new.items result }
    {
        for (number, size) in sizes.iter().enumerate() {
            self.push_dimension(
                alloc,
                place + number,
                &first[number],
                &second[number],
                *size,
                out,
            )?;
        }
        Ok(())
    }
}
