// The module with one placement more.
ghost use Rattle.std.specs.Prelude.{◌≡◌, IfOk, [], ◌∷◌, false, if◌then◌else◌, nat_eq};
ghost use Rattle.affine_ast.specs.declared.stmt.What as what;
ghost use Rattle.affine_ast.specs.Nest.{nest};
ghost use Rattle.placement_texts.specs.Spots.{Here, found, staged_at, stage_one};
ghost use Rattle.placement_code.specs.Placed.{placement_of, MayBeWritten};
ghost use Rattle.placement_stage.specs.Places.{behind_all, inward, spot_of};
ghost use Rattle.placement_stage.specs.Stages.{IsSmallText, IsSmallWhat, IsStagedInside, IsStagedAs, IsStagedModule, into, region_staged};

use crate::parts::{place_of, tail};
use crate::redirect::redirected_all;
use affine_ast::{Module, Path, Stmt, What};
use placement_code::{Placement, before, behind};
use placement_lists::lists_are_the_template;
use sqlite_items::Items;
use std::alloc::{AllocError, Global};

/// One statement in a list.
fn alone(alloc: Global, line: u32, what: What) -> Result<Items<Stmt>, AllocError>
    ensures { IfOk result (λ stmts. stmts ≡ (record { line = line; what = what }) ∷ []) }
{
    let mut stmts = Items::new(alloc);
    stmts.push(Stmt { line, what })?;
    Ok(stmts)
}

/// A loop with its accesses redirected.
fn redirected_loop(
    alloc: Global,
    placed: &Placement,
    line: u32,
    what: What,
) -> Result<Items<Stmt>, AllocError>
    requires placed { MayBeWritten placed.now }
    requires constants { IsSmallWhat what }
    requires line { nat_eq line 0 ≡ false }
    ensures { IfOk result (λ stmts. IsStagedAs (placement_of placed.now) Here (record { line = line; what = what }) stmts) }
{
    match what {
        What::For {
            var,
            lower,
            upper,
            step,
            body,
        } => {
            let body = redirected_all(alloc, placed, body.as_slice())?;
            let mut stmts = before(alloc, placed)?;
            stmts.push(Stmt {
                line,
                what: What::For {
                    var,
                    lower,
                    upper,
                    step,
                    body,
                },
            })?;
            stmts.append(behind(alloc, placed)?)?;
            lists_are_the_template();
            Ok(stmts)
        }
        other => alone(alloc, line, other),
    }
}

/// A region that is staged at a place where it is entered, and stays elsewhere.
#[cycle(staging)]
fn staged_region(
    alloc: Global,
    placed: &Placement,
    stmts: Items<Stmt>,
    enters: bool,
    position: u32,
    inside: &[(u32, bool)],
) -> Result<Items<Stmt>, AllocError>
    requires placed { MayBeWritten placed.now }
    requires constants { IsSmallText (nest stmts) }
    ensures { IfOk result (λ made. nest made ≡ region_staged (placement_of placed.now) enters (behind_all position (inward inside.now)) stmts) }
{
    if enters {
        staged_list(alloc, placed, stmts, position, inside)
    } else {
        Ok(stmts)
    }
}

/// A statement that is staged at a place inside it.
#[cycle(staging)]
fn staged_what(
    alloc: Global,
    placed: &Placement,
    what: What,
    position: u32,
    other: bool,
    inside: &[(u32, bool)],
) -> Result<What, AllocError>
    requires placed { MayBeWritten placed.now }
    requires constants { IsSmallWhat what }
    ensures { IfOk result (λ made. IsStagedInside (placement_of placed.now) (into other (behind_all position (inward inside.now))) what made) }
{
    match what {
        What::For {
            var,
            lower,
            upper,
            step,
            body,
        } => Ok(What::For {
            var,
            lower,
            upper,
            step,
            body: staged_region(alloc, placed, body, !other, position, inside)?,
        }),
        What::If {
            set,
            operands,
            first,
            other: second,
        } => {
            let first = staged_region(alloc, placed, first, !other, position, inside)?;
            match second {
                None => Ok(What::If {
                    set,
                    operands,
                    first,
                    other: None,
                }),
                Some(second) => {
                    let second = staged_region(alloc, placed, second, other, position, inside)?;
                    Ok(What::If {
                        set,
                        operands,
                        first,
                        other: Some(second),
                    })
                }
            }
        }
        plain => Ok(plain),
    }
}

/// The statements that one becomes: with the template round it where it is the loop itself.
#[cycle(staging)]
fn staged_stmt(
    alloc: Global,
    placed: &Placement,
    stmt: Stmt,
    inside: &[(u32, bool)],
) -> Result<Items<Stmt>, AllocError>
    requires placed { MayBeWritten placed.now }
    requires constants { IsSmallWhat stmt.what }
    requires line { nat_eq stmt.line 0 ≡ false }
    ensures { IfOk result (λ made. IsStagedAs (placement_of placed.now) (inward inside.now) stmt made) }
{
    let Stmt { line, what } = stmt;
    let Some((step, deeper)) = inside.split_first() else {
        return redirected_loop(alloc, placed, line, what);
    };
    let (position, other) = *step;
    let made = staged_what(alloc, placed, what, position, other, deeper)?;
    alone(alloc, line, made)
}

/// A list of statements that is staged at a place: at the statement of a position, or inside it.
#[cycle(staging)]
fn staged_list(
    alloc: Global,
    placed: &Placement,
    stmts: Items<Stmt>,
    position: u32,
    inside: &[(u32, bool)],
) -> Result<Items<Stmt>, AllocError>
    requires placed { MayBeWritten placed.now }
    requires constants { IsSmallText (nest stmts) }
    ensures { IfOk result (λ made. nest made ≡ staged_at (placement_of placed.now) (found (behind_all position (inward inside.now)) (nest stmts)) (nest stmts)) }
{
    let Some(place) = place_of(stmts.as_slice(), position) else {
        return Ok(stmts);
    };
    let mut made = stmts;
    let back = tail(alloc, &mut made, place + 1)?;
    let Some(stmt) = made.pop() else {
        return Ok(back);
    };
    made.append(staged_stmt(alloc, placed, stmt, inside)?)?;
    made.append(back)?;
    Ok(made)
}

/// A text with one placement more, at the loop that a path names; where it names no loop the text stays. Positions are counted over the
/// statements that have a line, as those of an input do, and those of templates don't.
///
/// # Errors
///
/// `AllocError`, for want of memory, and where a redirected access would have more than 2^32 - 1 operands.
pub fn stage_text(
    alloc: Global,
    placed: &Placement,
    at: &Path,
    text: Items<Stmt>,
) -> Result<Items<Stmt>, AllocError>
    requires placed { MayBeWritten placed.now }
    requires constants { IsSmallText (nest text) }
    ensures { IfOk result (λ made. nest made ≡ stage_one (placement_of placed.now) (spot_of at.now.steps) (nest text)) }
{
    let steps = at.steps.as_slice();
    let Some((first, inside)) = steps.split_first() else {
        return staged_list(alloc, placed, text, 0, steps);
    };
    staged_list(alloc, placed, text, first.0, inside)
}

/// A module with one placement more.
///
/// # Errors
///
/// As `stage_text`.
pub fn stage_one(
    alloc: Global,
    placed: &Placement,
    at: &Path,
    module: Module,
) -> Result<Module, AllocError>
    requires placed { MayBeWritten placed.now }
    requires constants { IsSmallText (nest «module».body) }
    ensures { IfOk result (λ made. IsStagedModule (placement_of placed.now) (spot_of at.now.steps) «module» made) }
{
    let Module { name, args, body } = module;
    Ok(Module {
        name,
        args,
        body: stage_text(alloc, placed, at, body)?,
    })
}
