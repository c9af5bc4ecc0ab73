//! What a region asks of the accesses of a memref, and of the outside of its loop.

ghost use Rattle.std.specs.Prelude.{◌≡◌, IfOk};
ghost use Rattle.access_region.specs.Candidates.{subscript, filled};

use affine_expr::{Combination, Interval};
use constraint_set::System;
use nest_domain::LoopForms;
use std::alloc::{AllocError, Global};
use std::marker::Model;

/// An affine access: the loops round it, its rows, the forms of its subscripts and their intervals.
#[derive(Drop)]
pub struct Reaching {
    pub goings: Vec<LoopForms>,
    pub system: System,
    pub forms: Vec<Combination>,
    pub ranges: Vec<Interval>,
}

impl Model for Reaching {
    ghost use Rattle.affine_expr.specs.Bounded as bounded;
    ghost use Rattle.access_region.specs.Candidates as candidates;

    ghost Value = { candidates.Reaching };

    ghost view = { λ a. record { goings = a.goings.items; system = a.system; forms = a.forms.items; ranges = bounded.ranges a.ranges.items } };
}

impl Reaching {
    /// The subscript in a dimension; 0 where there is no such subscript.
    #[tactic(auto, unfolding(affine_expr::specs::Linear::number_form))]
    pub(crate) fn subscript(&self, alloc: Global, dim: usize) -> Result<Combination, AllocError>
        ensures { IfOk result (λ form. form ≡ subscript dim self.now) }
    {
        if dim >= self.forms.len() {
            return Ok(Combination {
                coefs: Vec::new(alloc),
                constant: 0,
            });
        }
        let form = &self.forms[dim];
        let coefs = Vec::from_slice(alloc, &form.coefs)?;
        Ok(Combination {
            coefs,
            constant: form.constant,
        })
    }
}

/// The outside of a loop: how many symbols and loops there are, its rows, and the intervals of symbols and loop variables.
#[derive(Drop)]
pub struct Outside {
    pub outer: u32,
    pub system: System,
    pub ranges: Vec<Interval>,
}

impl Model for Outside {
    ghost use Rattle.affine_expr.specs.Bounded as bounded;
    ghost use Rattle.access_region.specs.Regions as regions;

    ghost Value = { regions.Outside };

    ghost view = { λ o. record { outer = o.outer; system = o.system; ranges = bounded.ranges o.ranges.items } };
}

/// Exactly so many coefficients.
pub(crate) fn filled(alloc: Global, vars: usize, coefs: &[i128]) -> Result<Vec<i128>, AllocError>
    ensures { IfOk result (λ out. out.items ≡ filled vars coefs.now) }
{
    let mut out = Vec::from_slice(alloc, coefs)?;
    let zeros: Vec<i128> = vec![in alloc; 0; vars]?;
    out.extend_from_slice(&zeros)?;
    out.truncate(vars);
    Ok(out)
}
