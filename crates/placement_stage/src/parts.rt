// A list of statements, parted at one.
ghost use Rattle.std.specs.Prelude.{◌≡◌, ◌≤◌, ◌<◌, ◌++◌, length, reverse, MatchOption, IfOk};
ghost use Rattle.placement_stage.specs.Places.{line_count, IsPlaceOf};

use affine_ast::Stmt;
use sqlite_items::Items;
use std::alloc::{AllocError, Global};

/// Where the statement stands that has so many statements with a line before it, and a line of its own.
#[tactic(auto, using(crate::proofs::Parting::count_same, crate::proofs::Parting::count_more, crate::proofs::Parting::count_end, crate::proofs::Parting::is_place))]
pub(crate) fn place_of(stmts: &[Stmt], position: u32) -> Option<usize>
    ensures { MatchOption result (line_count stmts.now ≤ position) (λ place. IsPlaceOf stmts.now position place) }
{
    let mut left = position;
    for (place, stmt) in stmts.iter().enumerate() {
        if stmt.line == 0 {
            continue;
        }
        if left == 0 {
            return Some(place);
        }
        left -= 1;
    }
    None
}

/// Statements from the last to the first.
fn turned(alloc: Global, stmts: Items<Stmt>) -> Result<Items<Stmt>, AllocError>
    ensures { IfOk result (λ turned. turned ≡ reverse stmts) }
{
    let mut left = stmts;
    let mut turned = Items::new(alloc);
    while let Some(last) = left.pop() {
        turned.push(last)?;
    }
    Ok(turned)
}

/// Takes the statements off that stand behind the first so many, and gives them from the last to the first.
fn taken_off(alloc: Global, stmts: &mut Items<Stmt>, keep: usize) -> Result<Items<Stmt>, AllocError>
    requires { keep ≤ length stmts.old }
    ensures { IfOk result (λ taken. (stmts.old ≡ stmts.new ++ reverse taken) × (length stmts.new ≡ keep)) }
{
    let mut taken = Items::new(alloc);
    for _turn in keep..stmts.len() {
        let Some(last) = stmts.pop() else {
            break;
        };
        taken.push(last)?;
    }
    Ok(taken)
}

/// Takes the statements off that stand behind the first so many.
pub(crate) fn tail(
    alloc: Global,
    stmts: &mut Items<Stmt>,
    keep: usize,
) -> Result<Items<Stmt>, AllocError>
    requires { keep ≤ length stmts.old }
    ensures { IfOk result (λ tail. (stmts.old ≡ stmts.new ++ tail) × (length stmts.new ≡ keep)) }
{
    let taken = taken_off(alloc, stmts, keep)?;
    turned(alloc, taken)
}
