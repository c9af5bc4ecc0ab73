// Statements with a line each.
ghost use Rattle.std.specs.Prelude.{◌≡◌, IfOk};
ghost use Rattle.affine_ast.specs.declared.stmt.What as what;
ghost use Rattle.affine_ast.specs.Nest.{nest};
ghost use Rattle.plan_laws.specs.Sites.{line_or_one, lined};
ghost use Rattle.lined_texts.specs.Lined.{IsLinedWhat};

use affine_ast::{Bound, Name, Stmt, What};
use affine_expr::Set;
use sqlite_items::Items;
use std::alloc::{AllocError, Global};

fn line_or_one(line: u32) -> u32
    ensures { result ≡ line_or_one line }
{
    if line == 0 { 1 } else { line }
}

fn loop_over(
    alloc: Global,
    var: &Name,
    lower: &Bound,
    upper: &Bound,
    step: i64,
    body: Items<Stmt>,
) -> Result<What, AllocError>
    ensures { IfOk result (λ made. made ≡ what.For var.now lower.now upper.now step body) }
{
    Ok(What::For {
        var: var.copy(alloc)?,
        lower: lower.copy(alloc)?,
        upper: upper.copy(alloc)?,
        step,
        body,
    })
}

fn copies(alloc: Global, names: &[Name]) -> Result<Items<Name>, AllocError>
    ensures { IfOk result (λ copies. copies ≡ names.now) }
{
    let mut copies = Items::new(alloc);
    for name in names {
        copies.push(name.copy(alloc)?)?;
    }
    Ok(copies)
}

fn condition_over(
    alloc: Global,
    set: &Set,
    operands: &[Name],
    first: Items<Stmt>,
    other: Option<Items<Stmt>>,
) -> Result<What, AllocError>
    ensures { IfOk result (λ made. made ≡ what.If set.now operands.now first other) }
{
    Ok(What::If {
        set: set.copy(alloc)?,
        operands: copies(alloc, operands)?,
        first,
        other,
    })
}

fn with_line(line: u32, what: What) -> Stmt
    ensures line { result.line ≡ line_or_one line }
    ensures what { result.what ≡ what }
{
    Stmt {
        line: line_or_one(line),
        what,
    }
}

/// What a statement is, with a line for each statement in it.
#[cycle(texts)]
fn lined_what(alloc: Global, stmt: &Stmt) -> Result<What, AllocError>
    ensures { IfOk result (λ made. IsLinedWhat stmt.now.what made) }
{
    match &stmt.what {
        What::For {
            var,
            lower,
            upper,
            step,
            body,
        } => {
            let body = lined_text(alloc, body.as_slice())?;
            loop_over(alloc, var, lower, upper, *step, body)
        }
        What::If {
            set,
            operands,
            first,
            other,
        } => {
            let first = lined_text(alloc, first.as_slice())?;
            match other {
                None => condition_over(alloc, set, operands.as_slice(), first, None),
                Some(other) => {
                    let other = lined_text(alloc, other.as_slice())?;
                    condition_over(alloc, set, operands.as_slice(), first, Some(other))
                }
            }
        }
        _ => stmt.what.copy(alloc),
    }
}

/// The same statements, with line 1 where they have none.
///
/// # Errors
///
/// `AllocError`, for want of memory alone.
#[cycle(texts)]
pub fn lined_text(alloc: Global, stmts: &[Stmt]) -> Result<Items<Stmt>, AllocError>
    ensures { IfOk result (λ made. nest made ≡ lined (nest stmts.now)) }
{
    let mut made = Items::new(alloc);
    for stmt in stmts {
        let what = lined_what(alloc, stmt)?;
        made.push(with_line(stmt.line, what))?;
    }
    Ok(made)
}
