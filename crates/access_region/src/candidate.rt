//! The combinations of outer variables from which a place may be taken.

ghost use Rattle.std.specs.Prelude.{◌≡◌, ℕ, ◌+◌, ◌≤◌, ◌<◌, pos, replicate, length, drop, slice_index_or, IfOk, [], Ok, List, ℤ};
ghost use Rattle.constraint_set.specs.Tidy.{same_coefs};
ghost use Rattle.affine_expr.specs.Linear.{number_form};
ghost use Rattle.access_region.specs.Faults.{Meets, Leaves, by_elimination};
ghost use Rattle.access_region.specs.Candidates.{subscript, first_at, replaced_one, replaced, candidate, has_coefs, with_candidate, with_candidates, candidates};

use crate::fault::RegionFault;
use crate::multiple::plus_multiple;
use crate::reaching::{Reaching, filled};
use nest_domain::LoopForms;
use std::alloc::{AllocError, Global};
use std::marker::Model;

/// An end of a loop: its first lower or its first upper result.
#[derive(Clone, Copy)]
pub(crate) enum End {
    Lower,
    Upper,
}

/// A coefficient for each outer variable.
#[derive(Drop)]
pub(crate) struct Candidate {
    pub coefs: Vec<i128>,
}

impl Model for Candidate {
    ghost use Rattle.std.specs.Prelude.{List, ℤ};

    ghost Value = { List ℤ };

    ghost view = { λ c. c.coefs.items };
}

/// The coefficients of the first lower, or upper, result of a loop.
fn first_at(end: End, going: &LoopForms) -> &[i128]
    ensures { result.now ≡ first_at end going.now }
{
    let forms = match end {
        End::Lower => going.lowers.as_slice(),
        End::Upper => going.uppers.as_slice(),
    };
    match forms.first() {
        Some(form) => form.coefs.as_slice(),
        None => &[],
    }
}

/// The coefficients of the subscript in a dimension; none where there is no such subscript.
#[tactic(auto, unfolding(affine_expr::specs::Linear::number_form))]
fn subscript_coefs(access: &Reaching, dim: usize) -> &[i128]
    ensures { result.now ≡ (subscript dim access.now).coefs }
{
    if dim < access.forms.len() {
        access.forms[dim].coefs.as_slice()
    } else {
        &[]
    }
}

fn coef(coefs: &[i128], place: usize) -> i128
    ensures { result ≡ slice_index_or coefs.now place (pos 0) }
{
    if place < coefs.len() { coefs[place] } else { 0 }
}

/// The coefficients without variable `place`, for which a form over the variables before it stands.
fn replaced_one(
    alloc: Global,
    place: usize,
    bound: &[i128],
    coefs: &[i128],
) -> Result<Vec<i128>, RegionFault>
    ensures { Meets (by_elimination (replaced_one place bound.now coefs.now)) (λ out. out.items) result }
{
    let before = filled(alloc, place, coefs)?;
    let bound = filled(alloc, place, bound)?;
    let out = plus_multiple(alloc, &before, coef(coefs, place), &bound)?;
    Ok(out)
}

/// The coefficients without the variables of these loops, which stand behind so many outer ones.
fn replaced(
    alloc: Global,
    end: End,
    outer: u32,
    goings: &[LoopForms],
    coefs: &[i128],
) -> Result<Vec<i128>, RegionFault>
    ensures { Meets (by_elimination (replaced end outer goings.now (length goings.now) coefs.now)) (λ out. out.items) result }
{
    let mut coefs = Vec::from_slice(alloc, coefs)?;
    let mut left = goings.len();
    while left > 0 {
        left -= 1;
        coefs = replaced_one(
            alloc,
            outer as usize + left,
            first_at(end, &goings[left]),
            &coefs,
        )?;
    }
    Ok(coefs)
}

/// The loops behind the first ones.
fn behind(goings: &[LoopForms], outside: usize) -> &[LoopForms]
    ensures { result.now ≡ drop outside goings.now }
{
    if outside < goings.len() {
        &goings[outside..]
    } else {
        &[]
    }
}

/// The candidate of an access.
fn candidate_of(
    alloc: Global,
    end: End,
    outer: u32,
    outside: usize,
    dim: usize,
    access: &Reaching,
) -> Result<Candidate, RegionFault>
    ensures { Meets (candidate end outer outside dim access.now) (λ c. c) result }
{
    let inner = behind(&access.goings, outside);
    let coefs = replaced(alloc, end, outer, inner, subscript_coefs(access, dim))?;
    let coefs = filled(alloc, outer as usize, &coefs)?;
    Ok(Candidate { coefs })
}

fn same(left: &[i128], right: &[i128]) -> bool
    ensures { result ≡ same_coefs left.now right.now }
{
    left == right
}

/// Whether a candidate is among others.
fn has_coefs(coefs: &[i128], kept: &[Candidate]) -> bool
    ensures { result ≡ has_coefs coefs.now kept.now }
{
    for other in kept {
        if same(coefs, &other.coefs) {
            return true;
        }
    }
    false
}

/// Adds a candidate, where it isn't there yet.
fn add_candidate(kept: &mut Vec<Candidate>, candidate: Candidate) -> Result<(), AllocError>
    ensures { IfOk result (λ _. kept.new.items ≡ with_candidate kept.old.items candidate) }
{
    if !has_coefs(&candidate.coefs, kept) {
        kept.push(candidate)?;
    }
    Ok(())
}

/// Adds the candidates of all accesses at an end of their loops.
fn add_candidates(
    alloc: Global,
    end: End,
    outer: u32,
    outside: usize,
    dim: usize,
    accesses: &[Reaching],
    kept: &mut Vec<Candidate>,
) -> Result<(), RegionFault>
    ensures { Leaves (with_candidates end outer outside dim accesses.now kept.old.items) kept.new.items result }
{
    for access in accesses {
        let made = candidate_of(alloc, end, outer, outside, dim, access)?;
        add_candidate(kept, made)?;
    }
    Ok(())
}

/// The candidates of all accesses in a dimension: those of their loops' lower results, of the upper ones, and zero.
pub(crate) fn candidates(
    alloc: Global,
    outer: u32,
    outside: usize,
    dim: usize,
    accesses: &[Reaching],
) -> Result<Vec<Candidate>, RegionFault>
    ensures { Meets (candidates outer outside dim accesses.now) (λ cs. cs.items) result }
{
    let mut kept = Vec::new(alloc);
    add_candidates(alloc, End::Lower, outer, outside, dim, accesses, &mut kept)?;
    add_candidates(alloc, End::Upper, outer, outside, dim, accesses, &mut kept)?;
    let coefs = vec![in alloc; 0; outer as usize]?;
    add_candidate(&mut kept, Candidate { coefs })?;
    Ok(kept)
}
