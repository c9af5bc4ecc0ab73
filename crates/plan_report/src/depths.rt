// How many loops stand round a statement.
ghost use Rattle.std.specs.Prelude.{◌≡◌, ◌≤◌, ◌<◌, ◌+◌, ◌^◌, ◌∷◌, ℕ, IfSome, length};
ghost use Rattle.affine_ast.specs.Nest.{Nest, nest, put_what};
ghost use Rattle.nest_domain.specs.Ways.{spot};
ghost use Rattle.plan_report.specs.Report.{loops_of, one_more, depth_at};

use affine_ast::{Module, Path, Stmt, What};

/// One loop more.
fn deeper(depth: Option<u64>) -> Option<u64>
    requires { IfSome depth (λ depth. depth < 2 ^ 63) }
    ensures depth { result ≡ one_more depth }
    ensures within { (most : ℕ) → IfSome depth (λ depth. depth ≤ most) → IfSome result (λ depth. depth ≤ most + 1) }
{
    match depth {
        None => None,
        Some(depth) => Some(depth + 1),
    }
}

/// The loops round the statement at a position of a list and, from there on inward, at the positions of a path.
#[cycle(depths)]
fn depth_from(stmts: &[Stmt], position: u32, steps: &[(u32, bool)]) -> Option<u64>
    ensures depth { result ≡ loops_of (spot (nest stmts.now) position steps.now) }
    ensures within { IfSome result (λ depth. depth ≤ length steps.now) }
{
    match stmts.get(position as usize) {
        None => None,
        Some(stmt) => depth_in(stmt, steps),
    }
}

/// The loops round it within a statement.
#[cycle(depths)]
fn depth_in(stmt: &Stmt, steps: &[(u32, bool)]) -> Option<u64>
    ensures depth { (rest : Nest) → result ≡ loops_of (spot (put_what stmt.now.what stmt.now.line rest) 0 steps.now) }
    ensures within { IfSome result (λ depth. depth ≤ length steps.now) }
{
    match steps.split_first() {
        None => Some(0),
        Some((step, inner)) => depth_below(stmt, step.0, step.1, inner),
    }
}

/// The loops round it within one of a statement's regions: the other one of a condition, or its first, or a loop's body.
#[cycle(depths)]
fn depth_below(stmt: &Stmt, position: u32, is_other: bool, steps: &[(u32, bool)]) -> Option<u64>
    ensures depth { (rest : Nest) → result ≡ loops_of (spot (put_what stmt.now.what stmt.now.line rest) 0 ((position, is_other) ∷ steps.now)) }
    ensures within { IfSome result (λ depth. depth ≤ length steps.now + 1) }
{
    match &stmt.what {
        What::For { body, .. } => {
            if is_other {
                None
            } else {
                deeper(depth_from(body.as_slice(), position, steps))
            }
        }
        What::If { first, other, .. } => {
            if !is_other {
                return depth_from(first.as_slice(), position, steps);
            }
            match other {
                None => None,
                Some(other) => depth_from(other.as_slice(), position, steps),
            }
        }
        _ => None,
    }
}

/// The loops round the statement that a path names; 0 where it names none.
pub(crate) fn depth_at(module: &Module, at: &Path) -> u64
    ensures { result ≡ depth_at (nest «module».now.body) at.now }
{
    let Some(((position, false), rest)) = at.steps.as_slice().split_first() else {
        return 0;
    };
    depth_from(module.body.as_slice(), *position, rest).unwrap_or(0)
}
