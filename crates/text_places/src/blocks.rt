// The loops with so many loops round them.
ghost use Rattle.std.specs.Prelude.{◌≡◌, [], ◌∷◌, ◌++◌, map, OnOk, IfOk};
ghost use Rattle.affine_ast.specs.Nest.{Nothing, Loop, nest, put_what};
ghost use Rattle.nest_domain.specs.Ways.{Given, Except, Past};
ghost use Rattle.nest_domain.specs.Steps.{header_of};
ghost use Rattle.text_places.specs.Blocks.{blocks};
ghost use Rattle.text_places.specs.Finding.{block_of, past_what, Grown};

use crate::way::copied_way;
use crate::within::or_none;
use affine_ast::{Bound, Name, Stmt, What};
use affine_expr::Set;
use nest_domain::Step;
use std::alloc::{AllocError, Global};

/// A loop, with the way to it.
#[derive(Drop)]
pub struct FoundBlock<'a> {
    pub way: Vec<Step<'a>>,
    pub line: u32,
    pub var: &'a Name,
    pub lower: &'a Bound,
    pub upper: &'a Bound,
    pub step: i64,
    pub body: &'a [Stmt],
}

/// Adds those in a region, which a step leads into. The way is then as before.
#[cycle(blocks)]
#[tactic(auto, using(crate::proofs::Lists::map_push))]
fn add_region<'a>(
    alloc: Global,
    depth: u32,
    step: Step<'a>,
    body: &'a [Stmt],
    way: &mut Vec<Step<'a>>,
    out: &mut Vec<FoundBlock<'a>>,
) -> Result<(), AllocError>
    ensures blocks { OnOk result (map block_of out.new.items ≡ map block_of out.old.items ++ blocks depth (nest body.now) (map header_of way.old.items ++ header_of step.entry ∷ [])) }
    ensures way { OnOk result (way.new.items ≡ way.old.items) }
{
    way.push(step)?;
    add_all(alloc, depth, body, way, out)?;
    way.pop();
    Ok(())
}

/// Adds a loop.
#[tactic(auto, using(crate::proofs::Blocked::block_added))]
fn add_block<'a>(
    alloc: Global,
    line: u32,
    var: &'a Name,
    lower: &'a Bound,
    upper: &'a Bound,
    step: i64,
    body: &'a [Stmt],
    way: &[Step<'a>],
    out: &mut Vec<FoundBlock<'a>>,
) -> Result<(), AllocError>
    ensures { OnOk result (map block_of out.new.items ≡ map block_of out.old.items ++ blocks 0 (Loop line var.now lower.now upper.now step (nest body.now) Nothing) (map header_of way.now)) }
{
    let way = copied_way(alloc, way)?;
    out.push(FoundBlock {
        way,
        line,
        var,
        lower,
        upper,
        step,
        body,
    })?;
    Ok(())
}

/// Adds a loop, or those in it. The way is then as before.
#[cycle(blocks)]
#[tactic(auto, using(crate::proofs::Blocked::deeper_blocks))]
fn add_loop<'a>(
    alloc: Global,
    depth: u32,
    line: u32,
    var: &'a Name,
    lower: &'a Bound,
    upper: &'a Bound,
    step: i64,
    body: &'a [Stmt],
    way: &mut Vec<Step<'a>>,
    out: &mut Vec<FoundBlock<'a>>,
) -> Result<(), AllocError>
    ensures blocks { OnOk result (map block_of out.new.items ≡ map block_of out.old.items ++ blocks depth (Loop line var.now lower.now upper.now step (nest body.now) Nothing) (map header_of way.old.items)) }
    ensures way { OnOk result (way.new.items ≡ way.old.items) }
{
    if depth == 0 {
        return add_block(
            alloc,
            line,
            var,
            lower,
            upper,
            step,
            body,
            way.as_slice(),
            out,
        );
    }
    let round = Step::Round {
        var,
        lower,
        upper,
        step,
    };
    add_region(alloc, depth - 1, round, body, way, out)
}

/// Adds those of a condition's regions. The way is then as before.
#[cycle(blocks)]
#[tactic(auto, using(crate::proofs::Lists::two_more))]
fn add_condition<'a>(
    alloc: Global,
    depth: u32,
    set: &'a Set,
    operands: &'a [Name],
    first: &'a [Stmt],
    other: &'a [Stmt],
    way: &mut Vec<Step<'a>>,
    out: &mut Vec<FoundBlock<'a>>,
) -> Result<(), AllocError>
    ensures blocks { let w = map header_of way.old.items in OnOk result (map block_of out.new.items ≡ map block_of out.old.items ++ (blocks depth (nest first.now) (w ++ Given set.now operands.now ∷ []) ++ blocks depth (nest other.now) (w ++ Except set.now operands.now (nest first.now) ∷ []))) }
    ensures way { OnOk result (way.new.items ≡ way.old.items) }
{
    let given = Step::Given { set, operands };
    add_region(alloc, depth, given, first, way, out)?;
    let except = Step::Except {
        set,
        operands,
        first,
    };
    add_region(alloc, depth, except, other, way, out)
}

/// Adds those of a statement, and goes past it.
#[cycle(blocks)]
#[tactic(auto, using(crate::proofs::Blocked::loop_blocks, crate::proofs::Blocked::condition_blocks, crate::proofs::Blocked::nothing_of_plain, crate::proofs::Statements::past_loop, crate::proofs::Statements::past_condition, crate::proofs::Statements::past_plain))]
fn add_one<'a>(
    alloc: Global,
    depth: u32,
    stmt: &'a Stmt,
    way: &mut Vec<Step<'a>>,
    out: &mut Vec<FoundBlock<'a>>,
) -> Result<(), AllocError>
    ensures blocks { OnOk result (map block_of out.new.items ≡ map block_of out.old.items ++ blocks depth (put_what stmt.now.what stmt.now.line Nothing) (map header_of way.old.items)) }
    ensures way { OnOk result (Grown way.old.items way.new.items (past_what stmt.now.what)) }
{
    match &stmt.what {
        What::For {
            var,
            lower,
            upper,
            step,
            body,
        } => {
            let body = body.as_slice();
            add_loop(
                alloc, depth, stmt.line, var, lower, upper, *step, body, way, out,
            )?;
            way.push(Step::Past { body })?;
            Ok(())
        }
        What::If {
            set,
            operands,
            first,
            other,
        } => {
            let first = first.as_slice();
            let other = or_none(other);
            add_condition(
                alloc,
                depth,
                set,
                operands.as_slice(),
                first,
                other,
                way,
                out,
            )?;
            way.push(Step::Past { body: first })?;
            way.push(Step::Past { body: other })?;
            Ok(())
        }
        _ => {
            way.push(Step::Behind { what: &stmt.what })?;
            Ok(())
        }
    }
}

/// Adds those of statements. The way is then as before.
#[cycle(blocks)]
#[tactic(auto, using(crate::proofs::Blocked::adding_begins, crate::proofs::Blocked::adding_goes_on, crate::proofs::Blocked::adding_ends, crate::proofs::Blocked::adding_kept))]
fn add_all<'a>(
    alloc: Global,
    depth: u32,
    stmts: &'a [Stmt],
    way: &mut Vec<Step<'a>>,
    out: &mut Vec<FoundBlock<'a>>,
) -> Result<(), AllocError>
    ensures blocks { OnOk result (map block_of out.new.items ≡ map block_of out.old.items ++ blocks depth (nest stmts.now) (map header_of way.old.items)) }
    ensures way { OnOk result (way.new.items ≡ way.old.items) }
{
    let length = way.len();
    for stmt in stmts {
        add_one(alloc, depth, stmt, way, out)?;
    }
    way.truncate(length);
    Ok(())
}

/// The loops with exactly so many loops round them in a body, in text order.
pub fn blocks_at<'a>(
    alloc: Global,
    depth: u32,
    body: &'a [Stmt],
) -> Result<Vec<FoundBlock<'a>>, AllocError>
    ensures { IfOk result (λ found. map block_of found.items ≡ blocks depth (nest body.now) []) }
{
    let mut out = Vec::new(alloc);
    let mut way = Vec::new(alloc);
    add_all(alloc, depth, body, &mut way, &mut out)?;
    Ok(out)
}
