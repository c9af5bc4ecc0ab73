// The accesses of a memref by statements.
ghost use Rattle.std.specs.Prelude.{◌≡◌, [], ◌∷◌, ◌++◌, map, OnOk, IfOk};
ghost use Rattle.affine_ast.specs.Nest.{Nothing, nest, put_what};
ghost use Rattle.nest_domain.specs.Ways.{Given, Except, Past, uses};
ghost use Rattle.nest_domain.specs.Steps.{header_of};
ghost use Rattle.text_places.specs.Finding.{seen, or_none, past_what, Grown};

use crate::plain::{FoundUse, add_plain};
use affine_ast::{Name, Stmt, What};
use affine_expr::Set;
use nest_domain::Step;
use sqlite_items::Items;
use std::alloc::{AllocError, Global};

/// The statements of an `else` region, and none where there isn't one.
pub fn or_none(other: &Option<Items<Stmt>>) -> &[Stmt]
    ensures { result.now ≡ or_none other.now }
{
    match other {
        None => &[],
        Some(other) => other.as_slice(),
    }
}

/// Adds those in a region, which a step leads into. The way is then as before.
#[cycle(uses)]
#[tactic(auto, using(crate::proofs::Lists::map_push))]
fn add_region<'a>(
    alloc: Global,
    memref: &Name,
    step: Step<'a>,
    body: &'a [Stmt],
    way: &mut Vec<Step<'a>>,
    out: &mut Vec<FoundUse<'a>>,
) -> Result<(), AllocError>
    ensures uses { OnOk result (map seen out.new.items ≡ map seen out.old.items ++ uses memref.now (nest body.now) (map header_of way.old.items ++ header_of step.entry ∷ [])) }
    ensures way { OnOk result (way.new.items ≡ way.old.items) }
{
    way.push(step)?;
    add_all(alloc, memref, body, way, out)?;
    way.pop();
    Ok(())
}

/// Adds those of a loop's body, and goes past it.
#[cycle(uses)]
#[tactic(auto, using(crate::proofs::Statements::grown_past))]
fn add_loop<'a>(
    alloc: Global,
    memref: &Name,
    step: Step<'a>,
    body: &'a [Stmt],
    way: &mut Vec<Step<'a>>,
    out: &mut Vec<FoundUse<'a>>,
) -> Result<(), AllocError>
    ensures uses { OnOk result (map seen out.new.items ≡ map seen out.old.items ++ uses memref.now (nest body.now) (map header_of way.old.items ++ header_of step.entry ∷ [])) }
    ensures way { OnOk result (Grown way.old.items way.new.items (Past (nest body.now) ∷ [])) }
{
    add_region(alloc, memref, step, body, way, out)?;
    way.push(Step::Past { body })?;
    Ok(())
}

/// Adds those of a condition's regions, and goes past them.
#[cycle(uses)]
#[tactic(auto, using(crate::proofs::Lists::two_more, crate::proofs::Statements::grown_past_both))]
fn add_condition<'a>(
    alloc: Global,
    memref: &Name,
    set: &'a Set,
    operands: &'a [Name],
    first: &'a [Stmt],
    other: &'a [Stmt],
    way: &mut Vec<Step<'a>>,
    out: &mut Vec<FoundUse<'a>>,
) -> Result<(), AllocError>
    ensures uses { let w = map header_of way.old.items in OnOk result (map seen out.new.items ≡ map seen out.old.items ++ (uses memref.now (nest first.now) (w ++ Given set.now operands.now ∷ []) ++ uses memref.now (nest other.now) (w ++ Except set.now operands.now (nest first.now) ∷ []))) }
    ensures way { OnOk result (Grown way.old.items way.new.items (Past (nest first.now) ∷ Past (nest other.now) ∷ [])) }
{
    let given = Step::Given { set, operands };
    add_region(alloc, memref, given, first, way, out)?;
    let except = Step::Except {
        set,
        operands,
        first,
    };
    add_region(alloc, memref, except, other, way, out)?;
    way.push(Step::Past { body: first })?;
    way.push(Step::Past { body: other })?;
    Ok(())
}

/// Adds those of a statement, and goes past it.
#[cycle(uses)]
#[tactic(auto, using(crate::proofs::Accesses::loop_uses, crate::proofs::Statements::loop_past, crate::proofs::Accesses::condition_uses, crate::proofs::Statements::condition_past, crate::proofs::Accesses::plain_uses, crate::proofs::Statements::past_plain))]
fn add_one<'a>(
    alloc: Global,
    memref: &Name,
    stmt: &'a Stmt,
    way: &mut Vec<Step<'a>>,
    out: &mut Vec<FoundUse<'a>>,
) -> Result<(), AllocError>
    ensures uses { OnOk result (map seen out.new.items ≡ map seen out.old.items ++ uses memref.now (put_what stmt.now.what stmt.now.line Nothing) (map header_of way.old.items)) }
    ensures way { OnOk result (Grown way.old.items way.new.items (past_what stmt.now.what)) }
{
    match &stmt.what {
        What::For {
            var,
            lower,
            upper,
            step,
            body,
        } => {
            let round = Step::Round {
                var,
                lower,
                upper,
                step: *step,
            };
            add_loop(alloc, memref, round, body.as_slice(), way, out)
        }
        What::If {
            set,
            operands,
            first,
            other,
        } => {
            let operands = operands.as_slice();
            let first = first.as_slice();
            add_condition(
                alloc,
                memref,
                set,
                operands,
                first,
                or_none(other),
                way,
                out,
            )
        }
        _ => {
            add_plain(alloc, memref, &stmt.what, way.as_slice(), out)?;
            way.push(Step::Behind { what: &stmt.what })?;
            Ok(())
        }
    }
}

/// Adds those of statements. The way is then as before.
#[cycle(uses)]
#[tactic(auto, using(crate::proofs::Accesses::adding_begins, crate::proofs::Accesses::adding_goes_on, crate::proofs::Accesses::adding_ends, crate::proofs::Accesses::adding_kept))]
fn add_all<'a>(
    alloc: Global,
    memref: &Name,
    stmts: &'a [Stmt],
    way: &mut Vec<Step<'a>>,
    out: &mut Vec<FoundUse<'a>>,
) -> Result<(), AllocError>
    ensures uses { OnOk result (map seen out.new.items ≡ map seen out.old.items ++ uses memref.now (nest stmts.now) (map header_of way.old.items)) }
    ensures way { OnOk result (way.new.items ≡ way.old.items) }
{
    let length = way.len();
    for stmt in stmts {
        add_one(alloc, memref, stmt, way, out)?;
    }
    way.truncate(length);
    Ok(())
}

/// The accesses of a memref by statements behind a way, in text order. The way is then as before.
pub fn uses_within<'a>(
    alloc: Global,
    memref: &Name,
    stmts: &'a [Stmt],
    way: &mut Vec<Step<'a>>,
) -> Result<Vec<FoundUse<'a>>, AllocError>
    ensures uses { IfOk result (λ found. map seen found.items ≡ uses memref.now (nest stmts.now) (map header_of way.old.items)) }
    ensures way { OnOk result (way.new.items ≡ way.old.items) }
{
    let mut out = Vec::new(alloc);
    add_all(alloc, memref, stmts, way, &mut out)?;
    Ok(out)
}
