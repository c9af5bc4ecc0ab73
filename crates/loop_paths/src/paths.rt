// The loops at a depth, by their paths.
ghost use Rattle.std.specs.Prelude.{◌≡◌, ◌+◌, ◌∷◌, ◌++◌, [], map, take, length, OnOk, IfOk, false};
ghost use Rattle.affine_ast.specs.Nest.{Nothing, nest, put_what};
ghost use Rattle.plan_laws.specs.Sites.{loops_at};
ghost use Rattle.loop_paths.specs.Found.{found_of, found_at};
ghost use Rattle.loop_paths.specs.Walk.{found_in};

use affine_ast::{Path, Stmt, What};
use sqlite_items::Items;
use std::alloc::{AllocError, Global};

/// A loop's path, and how many of its steps name each loop round it, from the outside in.
#[derive(Drop)]
pub struct LoopPath {
    pub at: Path,
    pub round: Vec<usize>,
}

/// The steps that lead to the statement whose region a walk is in, and how many of them name each loop round it.
#[derive(Drop)]
struct Trail {
    steps: Items<(u32, bool)>,
    round: Items<usize>,
}

/// The beginning of a path.
pub fn shortened(alloc: Global, at: &Path, keep: usize) -> Result<Path, AllocError>
    ensures { IfOk result (λ shorter. shorter.steps ≡ take keep at.now.steps) }
{
    let steps = at.steps.as_slice();
    let keep = keep.min(steps.len());
    Ok(Path {
        steps: Items::from_slice(alloc, &steps[..keep])?,
    })
}

/// A position as a path has it.
fn as_step(position: usize) -> Result<u32, AllocError>
    ensures { IfOk result (λ step. step ≡ position) }
{
    match u32::try_from(position) {
        Ok(step) => Ok(step),
        Err(_) => Err(AllocError),
    }
}

/// Adds the loop that a step names.
fn add_here(
    alloc: Global,
    step: (u32, bool),
    trail: &Trail,
    out: &mut Vec<LoopPath>,
) -> Result<(), AllocError>
    ensures { OnOk result (map found_of out.new.items ≡ map found_of out.old.items ++ (record { steps = trail.now.steps ++ step ∷ []; round = trail.now.round }) ∷ []) }
{
    let mut steps = Items::from_slice(alloc, trail.steps.as_slice())?;
    steps.push(step)?;
    let round = Vec::from_slice(alloc, trail.round.as_slice())?;
    out.push(LoopPath {
        at: Path { steps },
        round,
    })?;
    Ok(())
}

/// Adds those of a region of the statement that a step names. The trail is then as before.
#[cycle(paths)]
fn add_region(
    alloc: Global,
    depth: u32,
    step: (u32, bool),
    other: bool,
    body: &[Stmt],
    trail: &mut Trail,
    out: &mut Vec<LoopPath>,
) -> Result<(), AllocError>
    ensures found { OnOk result (map found_of out.new.items ≡ map found_of out.old.items ++ found_in depth (trail.old.steps ++ step ∷ []) trail.old.round other 0 (nest body.now)) }
    ensures trail { OnOk result (trail.new ≡ trail.old) }
{
    trail.steps.push(step)?;
    add_all(alloc, depth, other, body, trail, out)?;
    trail.steps.pop();
    Ok(())
}

/// Adds those in the body of the loop that a step names. The trail is then as before.
#[cycle(paths)]
fn add_body(
    alloc: Global,
    depth: u32,
    step: (u32, bool),
    body: &[Stmt],
    trail: &mut Trail,
    out: &mut Vec<LoopPath>,
) -> Result<(), AllocError>
    ensures found { OnOk result (map found_of out.new.items ≡ map found_of out.old.items ++ found_in depth (trail.old.steps ++ step ∷ []) (trail.old.round ++ (length trail.old.steps + 1) ∷ []) false 0 (nest body.now)) }
    ensures trail { OnOk result (trail.new ≡ trail.old) }
{
    trail.steps.push(step)?;
    trail.round.push(trail.steps.len())?;
    add_all(alloc, depth, false, body, trail, out)?;
    trail.round.pop();
    trail.steps.pop();
    Ok(())
}

/// Adds those of a statement, which a step names. The trail is then as before.
#[cycle(paths)]
fn add_one(
    alloc: Global,
    depth: u32,
    step: (u32, bool),
    stmt: &Stmt,
    trail: &mut Trail,
    out: &mut Vec<LoopPath>,
) -> Result<(), AllocError>
    ensures found { OnOk result (map found_of out.new.items ≡ map found_of out.old.items ++ found_in depth trail.old.steps trail.old.round step.1 step.0 (put_what stmt.now.what stmt.now.line Nothing)) }
    ensures trail { OnOk result (trail.new ≡ trail.old) }
{
    match &stmt.what {
        What::For { body, .. } => {
            if depth == 0 {
                return add_here(alloc, step, trail, out);
            }
            add_body(alloc, depth - 1, step, body.as_slice(), trail, out)
        }
        What::If { first, other, .. } => {
            add_region(alloc, depth, step, false, first.as_slice(), trail, out)?;
            match other {
                None => Ok(()),
                Some(other) => add_region(alloc, depth, step, true, other.as_slice(), trail, out),
            }
        }
        _ => Ok(()),
    }
}

/// Adds those of a region. The trail is then as before.
#[cycle(paths)]
fn add_all(
    alloc: Global,
    depth: u32,
    other: bool,
    stmts: &[Stmt],
    trail: &mut Trail,
    out: &mut Vec<LoopPath>,
) -> Result<(), AllocError>
    ensures found { OnOk result (map found_of out.new.items ≡ map found_of out.old.items ++ found_in depth trail.old.steps trail.old.round other 0 (nest stmts.now)) }
    ensures trail { OnOk result (trail.new ≡ trail.old) }
{
    for (position, stmt) in stmts.iter().enumerate() {
        let step = (as_step(position)?, other);
        add_one(alloc, depth, step, stmt, trail, out)?;
    }
    Ok(())
}

/// The loops with exactly so many loops round them, in text order.
///
/// # Errors
///
/// `AllocError`, for want of memory, and where a region has more than 2^32 statements.
pub fn loops_at(alloc: Global, depth: u32, body: &[Stmt]) -> Result<Vec<LoopPath>, AllocError>
    ensures { IfOk result (λ found. map found_of found.items ≡ map (found_at (nest body.now)) (loops_at depth (nest body.now))) }
{
    let mut out = Vec::new(alloc);
    let mut trail = Trail {
        steps: Items::new(alloc),
        round: Items::new(alloc),
    };
    add_all(alloc, depth, false, body, &mut trail, &mut out)?;
    Ok(out)
}
