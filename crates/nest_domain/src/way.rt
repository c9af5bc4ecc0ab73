// The way to the statement that a path names.
ghost use Rattle.std.specs.Prelude.{◌≡◌, ◌<◌, [], ◌∷◌, ◌++◌, if◌then◌else◌, length, map, IfOk, OnOk};
ghost use Rattle.std.specs.Option.{option_copied, option_map};
ghost use Rattle.affine_ast.specs.Nest.{nest};
ghost use Rattle.nest_domain.specs.Ways.{Given, Except, at_path};
ghost use Rattle.nest_domain.specs.Steps.{header_of, spot_of, past_what, past_all, or_none, Enters, Comes, Descends, Arrives};

use crate::step::{Found, Step};
use affine_ast::{Name, Path, Stmt, What};
use affine_expr::Set;
use sqlite_items::Items;
use std::alloc::{AllocError, Global};

/// The statements of an `else` region, and none where there isn't one.
fn or_none(other: &Option<Items<Stmt>>) -> &[Stmt]
    ensures { result.now ≡ or_none other.now }
{
    match other {
        None => &[],
        Some(other) => other.as_slice(),
    }
}

/// Goes past a statement.
fn pass_one<'a>(stmt: &'a Stmt, way: &mut Vec<Step<'a>>) -> Result<(), AllocError>
    ensures { OnOk result (map header_of way.new.items ≡ map header_of way.old.items ++ past_what stmt.now.what) }
{
    match &stmt.what {
        What::For { body, .. } => way.push(Step::Past {
            body: body.as_slice(),
        })?,
        What::If { first, other, .. } => {
            way.push(Step::Past {
                body: first.as_slice(),
            })?;
            way.push(Step::Past {
                body: or_none(other),
            })?;
        }
        _ => way.push(Step::Behind { what: &stmt.what })?,
    }
    Ok(())
}

/// Goes past statements.
#[tactic(auto, using(crate::proofs::Passing::pass_more, crate::proofs::Passing::pass_end))]
fn pass<'a>(stmts: &'a [Stmt], way: &mut Vec<Step<'a>>) -> Result<(), AllocError>
    ensures { OnOk result (map header_of way.new.items ≡ map header_of way.old.items ++ past_all stmts.now) }
{
    for stmt in stmts {
        pass_one(stmt, way)?;
    }
    Ok(())
}

/// Goes to the statement at a position of a list.
fn come<'a>(
    list: &'a [Stmt],
    position: u32,
    way: &mut Vec<Step<'a>>,
) -> Result<Option<&'a [Stmt]>, AllocError>
    ensures { IfOk result (λ here. Comes list.now position (map header_of way.old.items) (map header_of way.new.items) (option_copied here)) }
{
    let position = position as usize;
    if list.len() <= position {
        return Ok(None);
    }
    let (before, here) = list.split_at(position);
    pass(before, way)?;
    Ok(Some(here))
}

/// Goes into a region of a condition: with `other` into the `else` region.
fn enter_region<'a>(
    set: &'a Set,
    operands: &'a [Name],
    first: &'a [Stmt],
    rest: &'a [Stmt],
    other: bool,
    way: &mut Vec<Step<'a>>,
) -> Result<&'a [Stmt], AllocError>
    ensures way { OnOk result (map header_of way.new.items ≡ map header_of way.old.items ++ (if other then Except set.now operands.now (nest first.now) else Given set.now operands.now) ∷ []) }
    ensures inner { IfOk result (λ inner. inner.now ≡ (if other then rest.now else first.now)) }
{
    if other {
        way.push(Step::Except {
            set,
            operands,
            first,
        })?;
        Ok(rest)
    } else {
        way.push(Step::Given { set, operands })?;
        Ok(first)
    }
}

/// Goes into a region of a statement: with `other` into the `else` region of a condition.
fn enter<'a>(
    stmt: &'a Stmt,
    other: bool,
    way: &mut Vec<Step<'a>>,
) -> Result<Option<&'a [Stmt]>, AllocError>
    ensures { IfOk result (λ inner. Enters stmt.now other (map header_of way.old.items) (map header_of way.new.items) (option_copied inner)) }
{
    match &stmt.what {
        What::For {
            var,
            lower,
            upper,
            step,
            body,
        } => {
            if other {
                return Ok(None);
            }
            way.push(Step::Round {
                var,
                lower,
                upper,
                step: *step,
            })?;
            Ok(Some(body.as_slice()))
        }
        What::If {
            set,
            operands,
            first,
            other: rest,
        } => {
            let rest = or_none(rest);
            let inner = enter_region(set, operands.as_slice(), first.as_slice(), rest, other, way)?;
            Ok(Some(inner))
        }
        _ => Ok(None),
    }
}

/// Goes a step of a path further in, from the statement at the head of a list.
fn descend<'a>(
    here: &'a [Stmt],
    step: (u32, bool),
    way: &mut Vec<Step<'a>>,
) -> Result<Option<&'a [Stmt]>, AllocError>
    ensures { IfOk result (λ next. Descends here.now step (map header_of way.old.items) (map header_of way.new.items) (option_copied next)) }
{
    let Some(first) = here.first() else {
        return Ok(None);
    };
    let (position, other) = step;
    let Some(list) = enter(first, other, way)? else {
        return Ok(None);
    };
    let next = come(list, position, way)?;
    Ok(next)
}

/// Goes the steps of a path further in.
fn descend_all<'a>(
    start: &'a [Stmt],
    steps: &[(u32, bool)],
    way: &mut Vec<Step<'a>>,
) -> Result<Option<&'a [Stmt]>, AllocError>
    requires { 0 < length start.now }
    ensures { IfOk result (λ here. Arrives start.now steps.now (map header_of way.old.items) (map header_of way.new.items) (option_copied here)) }
{
    let mut here = start;
    for step in steps {
        let Some(next) = descend(here, *step, way)? else {
            return Ok(None);
        };
        here = next;
    }
    Ok(Some(here))
}

/// The way to the statement that a path names in a body, and nothing where it names none.
///
/// # Errors
///
/// `AllocError`, for want of memory alone.
pub fn way_to<'a>(
    alloc: Global,
    body: &'a [Stmt],
    at: &Path,
) -> Result<Option<Found<'a>>, AllocError>
    ensures { IfOk result (λ found. option_map spot_of found ≡ at_path (nest body.now) at.now.steps) }
{
    let Some((first, more)) = at.steps.as_slice().split_first() else {
        return Ok(None);
    };
    let (position, other) = *first;
    if other {
        return Ok(None);
    }
    let mut way = Vec::new(alloc);
    let Some(start) = come(body, position, &mut way)? else {
        return Ok(None);
    };
    let Some(here) = descend_all(start, more, &mut way)? else {
        return Ok(None);
    };
    Ok(Some(Found { way, here }))
}
