//! How far the accesses of a memref lie from a candidate, and which candidate is the best.

ghost use Rattle.std.specs.Prelude.{◌≡◌, ℕ, pos, ◌+ℤ◌, ◌-ℤ◌, ◌≤ℤ◌, length, drop, None, IfOk, [], Ok, List, ℤ};
ghost use Rattle.constraint_set.specs.Points.{LinearSystem};
ghost use Rattle.projection.specs.Reaches.{shape_of};
ghost use Rattle.access_region.specs.Faults.{Meets};
ghost use Rattle.access_region.specs.Spans.{reach_at, combination, distance, spans_of, joined, all_joined, tried_by, tried_from, tried, lesser, best};

use crate::candidate::Candidate;
use crate::fault::RegionFault;
use crate::reaching::{Reaching, filled};
use affine_expr::{Combination, LinearFault};
use constraint_set::System;
use projection::{Reached, reach};
use std::alloc::{AllocError, Global};
use std::marker::Model;

/// A least and a greatest number.
#[derive(Clone, Copy)]
pub(crate) struct Span {
    pub least: i128,
    pub greatest: i128,
}

impl Span {
    /// From the least of both to the greatest.
    fn joined(self, other: Span) -> Span
        ensures { result ≡ joined self other }
    {
        Span {
            least: self.least.min(other.least),
            greatest: self.greatest.max(other.greatest),
        }
    }
}

/// The reach of a form over rows.
#[tactic(auto, using(crate::proofs::Reaches::no_reach, crate::proofs::Reaches::reached))]
pub(crate) fn reach_at(
    alloc: Global,
    system: &System,
    form: &Combination,
) -> Result<Reached, RegionFault>
    ensures { Meets (reach_at system.now form.now) shape_of result }
{
    let coefs = filled(alloc, system.vars() as usize, &form.coefs)?;
    let reached = reach(alloc, system, &coefs, form.constant)?;
    Ok(reached)
}

/// How far the subscript of an access lies from a candidate.
fn distance(
    alloc: Global,
    dim: usize,
    candidate: &Candidate,
    access: &Reaching,
) -> Result<Reached, RegionFault>
    ensures { Meets (distance dim candidate.now access.now) shape_of result }
{
    let coefs = Vec::from_slice(alloc, &candidate.coefs)?;
    let combination = Combination { coefs, constant: 0 };
    let difference = access.subscript(alloc, dim)?.minus(alloc, &combination)?;
    reach_at(alloc, &access.system, &difference)
}

/// How far each access lies from a candidate, but for those that no point reaches.
fn spans_of(
    alloc: Global,
    dim: usize,
    candidate: &Candidate,
    accesses: &[Reaching],
) -> Result<Vec<Span>, RegionFault>
    ensures { Meets (spans_of dim candidate.now accesses.now) (λ spans. spans.items) result }
{
    let mut spans = Vec::new(alloc);
    for access in accesses {
        if let Reached::Between { least, greatest } = distance(alloc, dim, candidate, access)? {
            spans.push(Span { least, greatest })?;
        }
    }
    Ok(spans)
}

/// A candidate with the offset and the extent, less 1, that hold all accesses.
#[derive(Drop)]
pub(crate) struct Tried {
    pub coefs: Vec<i128>,
    pub offset: i128,
    pub last: u128,
}

impl Model for Tried {
    ghost use Rattle.std.specs.Prelude.{pos, ◌+ℤ◌};
    ghost use Rattle.access_region.specs.Spans as spans;

    ghost Value = { spans.Tried };

    ghost view = { λ t. record { coefs = t.coefs.items; offset = t.offset; extent = pos t.last +ℤ pos 1 } };
}

/// From the least of all spans to the greatest.
fn all_joined(first: Span, others: &[Span]) -> Span
    ensures { result ≡ all_joined first others.now }
{
    let mut all = first;
    for other in others {
        all = all.joined(*other);
    }
    all
}

fn tried_by(alloc: Global, candidate: &Candidate, span: Span) -> Result<Tried, RegionFault>
    ensures { Meets (tried_by candidate.now span) (λ t. t) result }
{
    if span.greatest < span.least {
        return Err(RegionFault::Region);
    }
    let coefs = Vec::from_slice(alloc, &candidate.coefs)?;
    Ok(Tried {
        coefs,
        offset: span.least,
        last: span.greatest.abs_diff(span.least),
    })
}

fn tried_from(alloc: Global, candidate: &Candidate, spans: &[Span]) -> Result<Tried, RegionFault>
    ensures { Meets (tried_from candidate.now spans.now) (λ t. t) result }
{
    match spans {
        [] => Err(RegionFault::Region),
        [first, others @ ..] => tried_by(alloc, candidate, all_joined(*first, others)),
    }
}

/// A candidate over all accesses.
fn tried_over(
    alloc: Global,
    dim: usize,
    accesses: &[Reaching],
    candidate: &Candidate,
) -> Result<Tried, RegionFault>
    ensures { Meets (tried dim accesses.now candidate.now) (λ t. t) result }
{
    let spans = spans_of(alloc, dim, candidate, accesses)?;
    tried_from(alloc, candidate, &spans)
}

/// The one of the least extent, the first at a tie.
fn lesser(kept: Option<Tried>, tried: Tried) -> Tried
    ensures { result ≡ lesser kept tried }
{
    match kept {
        None => tried,
        Some(kept) => { if tried.last < kept.last { tried } else { kept } }
    }
}

/// The best of the candidates.
pub(crate) fn best(
    alloc: Global,
    dim: usize,
    accesses: &[Reaching],
    candidates: &[Candidate],
) -> Result<Tried, RegionFault>
    ensures { Meets (best dim accesses.now candidates.now None) (λ t. t) result }
{
    let mut kept = None;
    for candidate in candidates {
        let tried = tried_over(alloc, dim, accesses, candidate)?;
        kept = Some(lesser(kept, tried));
    }
    kept.ok_or(RegionFault::Region)
}
