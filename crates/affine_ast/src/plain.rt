// The limits of modules that are staged or run directly.
ghost use Rattle.std.specs.Prelude.{◌≡◌, ℕ, ◌+◌, ◌≤◌, suc, min, max, true, ◌&&◌, IfNone, IfSome};
ghost use Rattle.affine_ast.specs.Nest.{Nest, nest, put_what, plain_of};
ghost use Rattle.affine_ast.specs.PlainCode.{depth_at, plain_outcome, judged_outcome};
ghost use Rattle.affine_ast.specs.PlainLimits.{operand_count, depths, sum_depths, product_depths, literal_depths, is_short, access_short, set_short, bound_short, row_short, plain_judged, plain_stands, then_plain, plain_told, PlainTold};

use crate::stmt::{Stmt, What};
use crate::types::{Access, Bound};
use affine_expr::{Constraint, Expr, Set};

/// Where an expression stands: alone or as the left side of a sum, where a product may stand, where only what binds more
/// strongly may, and behind a `-`.
#[derive(Clone, Copy)]
enum Place {
    Sum,
    Product,
    Unary,
    Negated,
}

/// The most operands of one expression.
const MOST_OPERANDS: u32 = 64;

/// The most parentheses and negations inside one another.
const MOST_DEPTH: u32 = 32;

/// The most statements of a module.
const MOST_STATEMENTS: u32 = 4_096;

/// The most loops round a statement.
const MOST_LOOPS: u32 = 8;

/// A sum that counts no further than one past the limit.
fn counted_sum(left: u32, right: u32) -> u32
    requires left { left ≤ 65 }
    requires right { right ≤ 65 }
    ensures { result ≡ min (left + right) 65 }
{
    (left + right).min(MOST_OPERANDS + 1)
}

/// The operands of an expression, or one past the limit where they are more.
#[tactic(auto, using(crate::proofs::PlainLaws::counts))]
fn operands(expr: &Expr) -> u32
    ensures { result ≡ min (operand_count expr.now) 65 }
{
    match expr {
        Expr::Dim(_) => 1,
        Expr::Sym(_) => 1,
        Expr::Const(_) => 1,
        Expr::Neg(part) => operands(part.get()),
        Expr::Add(left, right) => counted_sum(operands(left.get()), operands(right.get())),
        Expr::Sub(left, right) => counted_sum(operands(left.get()), operands(right.get())),
        Expr::Mul(left, right) => counted_sum(operands(left.get()), operands(right.get())),
        Expr::FloorDiv(left, right) => counted_sum(operands(left.get()), operands(right.get())),
        Expr::CeilDiv(left, right) => counted_sum(operands(left.get()), operands(right.get())),
        Expr::Mod(left, right) => counted_sum(operands(left.get()), operands(right.get())),
    }
}

/// One level more, which counts no further than one past the limit.
fn deeper(depth: u32) -> u32
    requires { depth ≤ 33 }
    ensures { result ≡ min (suc depth) 33 }
{
    (depth + 1).min(MOST_DEPTH + 1)
}

/// The depth of a literal: behind a `-` one that isn't negative has parentheses.
fn literal_depth(value: i64, place: Place) -> u32
    ensures { result ≡ depth_at place (literal_depths value) }
{
    match place {
        Place::Negated => { if value < 0 { 0 } else { 1 } }
        Place::Sum => 0,
        Place::Product => 0,
        Place::Unary => 0,
    }
}

/// The depth of a sum over those of its sides, which has parentheses wherever a product may stand.
fn depth_of_sum(left: u32, right: u32, place: Place) -> u32
    requires left { left ≤ 33 }
    requires right { right ≤ 33 }
    ensures { result ≡ min (depth_at place (sum_depths (max left right))) 33 }
{
    let depth = left.max(right);
    match place {
        Place::Sum => depth,
        Place::Product => deeper(depth),
        Place::Unary => deeper(depth),
        Place::Negated => deeper(depth),
    }
}

/// The depth of a product or a division over those of its sides.
fn depth_of_product(left: u32, right: u32, place: Place) -> u32
    requires left { left ≤ 33 }
    requires right { right ≤ 33 }
    ensures { result ≡ min (depth_at place (product_depths (max left right))) 33 }
{
    let depth = left.max(right);
    match place {
        Place::Sum => depth,
        Place::Product => depth,
        Place::Unary => deeper(depth),
        Place::Negated => deeper(depth),
    }
}

/// The parentheses and negations inside one another in the printed spelling of an expression at this place, or one past the
/// limit where they are more.
#[tactic(auto, using(crate::proofs::PlainLaws::depth_laws))]
fn depth(expr: &Expr, place: Place) -> u32
    ensures { result ≡ min (depth_at place (depths expr.now)) 33 }
{
    match expr {
        Expr::Dim(_) => 0,
        Expr::Sym(_) => 0,
        Expr::Const(value) => literal_depth(*value, place),
        Expr::Neg(part) => deeper(depth(part.get(), Place::Negated)),
        Expr::Add(left, right) => depth_of_sum(
            depth(left.get(), Place::Sum),
            depth(right.get(), Place::Product),
            place,
        ),
        Expr::Sub(left, right) => depth_of_sum(
            depth(left.get(), Place::Sum),
            depth(right.get(), Place::Product),
            place,
        ),
        Expr::Mul(left, right) => depth_of_product(
            depth(left.get(), Place::Product),
            depth(right.get(), Place::Unary),
            place,
        ),
        Expr::FloorDiv(left, right) => depth_of_product(
            depth(left.get(), Place::Product),
            depth(right.get(), Place::Unary),
            place,
        ),
        Expr::CeilDiv(left, right) => depth_of_product(
            depth(left.get(), Place::Product),
            depth(right.get(), Place::Unary),
            place,
        ),
        Expr::Mod(left, right) => depth_of_product(
            depth(left.get(), Place::Product),
            depth(right.get(), Place::Unary),
            place,
        ),
    }
}

#[tactic(auto, unfolding(crate::specs::PlainLimits::is_short))]
fn is_short(expr: &Expr) -> bool
    ensures { result ≡ is_short expr.now }
{
    operands(expr) <= MOST_OPERANDS && depth(expr, Place::Sum) <= MOST_DEPTH
}

#[tactic(auto, unfolding(crate::specs::PlainLimits::access_short))]
fn access_short(at: &Access) -> bool
    ensures { result ≡ access_short at.now }
{
    for expr in at.map.results.as_slice() {
        if !is_short(expr) {
            return false;
        }
    }
    true
}

fn row_short(row: &Constraint) -> bool
    ensures { result ≡ row_short row.now }
{
    is_short(&row.left) && is_short(&row.right)
}

#[tactic(auto, unfolding(crate::specs::PlainLimits::set_short))]
fn set_short(set: &Set) -> bool
    ensures { result ≡ set_short set.now }
{
    for row in set.rows.as_slice() {
        if !row_short(row) {
            return false;
        }
    }
    true
}

fn bound_short(bound: &Bound) -> bool
    ensures { result ≡ bound_short bound.now }
{
    match bound {
        Bound::Int(_) => true,
        Bound::Value(_) => true,
        Bound::Map(at) => access_short(at),
    }
}

/// Whether a statement without a region may stand: no allocation, dealloc, start or wait, and short expressions.
#[tactic(auto, using(crate::proofs::Nests::plains))]
fn stands(what: &What) -> bool
    ensures { result ≡ plain_stands (plain_of what.now) }
{
    match what {
        What::Value { at, .. } => access_short(at),
        What::Load { at, .. } => access_short(at),
        What::Store { at, .. } => access_short(at),
        What::Alloc { .. } => false,
        What::Dealloc { .. } => false,
        What::Start { .. } => false,
        What::Wait { .. } => false,
        _ => true,
    }
}

/// Counts a statement, and answers its line where it breaks the limits or doesn't stand by itself.
fn judged(line: u32, stands: bool, loops: u32, counted: &mut u32) -> Option<u32>
    requires { counted.old ≤ 4096 }
    ensures told { (more : PlainTold) → plain_judged line loops (suc counted.old) stands more ≡ judged_outcome result line more }
    ensures line { IfSome result (λ at. at ≡ line) }
    ensures count { IfNone result (counted.new ≡ suc counted.old) }
    ensures within { IfNone result (counted.new ≤ 4096) }
    ensures loops { IfNone result (loops ≤ 8) }
{
    *counted += 1;
    if stands && *counted <= MOST_STATEMENTS && loops <= MOST_LOOPS {
        None
    } else {
        Some(line)
    }
}

fn bounds_short(lower: &Bound, upper: &Bound) -> bool
    ensures { result ≡ (bound_short lower.now && bound_short upper.now) }
{
    bound_short(lower) && bound_short(upper)
}

#[cycle(faults)]
fn loop_fault(line: u32, stands: bool, body: &[Stmt], loops: u32, counted: &mut u32) -> Option<u32>
    requires loops { loops ≤ 9 }
    requires counted { counted.old ≤ 4096 }
    ensures told { (more : ℕ → PlainTold) → plain_judged line loops (suc counted.old) stands (then_plain (plain_told (nest body.now) (suc loops) (suc counted.old)) more) ≡ then_plain (plain_outcome result counted.new) more }
    ensures within { IfNone result (counted.new ≤ 4096) }
{
    let fault = judged(line, stands, loops, counted);
    if fault.is_some() {
        return fault;
    }
    list_fault(body, loops + 1, counted)
}

#[cycle(faults)]
fn condition_fault(
    line: u32,
    stands: bool,
    first: &[Stmt],
    loops: u32,
    counted: &mut u32,
) -> Option<u32>
    requires loops { loops ≤ 9 }
    requires counted { counted.old ≤ 4096 }
    ensures told { (more : ℕ → PlainTold) → plain_judged line loops (suc counted.old) stands (then_plain (plain_told (nest first.now) loops (suc counted.old)) more) ≡ then_plain (plain_outcome result counted.new) more }
    ensures within { IfNone result (counted.new ≤ 4096) }
{
    let fault = judged(line, stands, loops, counted);
    if fault.is_some() {
        return fault;
    }
    list_fault(first, loops, counted)
}

fn plain_fault(line: u32, stands: bool, loops: u32, counted: &mut u32) -> Option<u32>
    requires loops { loops ≤ 9 }
    requires counted { counted.old ≤ 4096 }
    ensures told { (more : ℕ → PlainTold) → plain_judged line loops (suc counted.old) stands (more (suc counted.old)) ≡ then_plain (plain_outcome result counted.new) more }
    ensures within { IfNone result (counted.new ≤ 4096) }
{
    judged(line, stands, loops, counted)
}

#[cycle(faults)]
fn stmt_fault(stmt: &Stmt, loops: u32, counted: &mut u32) -> Option<u32>
    requires loops { loops ≤ 9 }
    requires counted { counted.old ≤ 4096 }
    ensures told { (rest : Nest) → plain_told (put_what stmt.now.what stmt.now.line rest) loops counted.old ≡ then_plain (plain_outcome result counted.new) (plain_told rest loops) }
    ensures within { IfNone result (counted.new ≤ 4096) }
{
    let line = stmt.line;
    match &stmt.what {
        What::For {
            var: _,
            lower,
            upper,
            step: _,
            body,
        } => loop_fault(
            line,
            bounds_short(lower, upper),
            body.as_slice(),
            loops,
            counted,
        ),
        What::If {
            set,
            operands: _,
            first,
            other,
        } => {
            let fault = condition_fault(line, set_short(set), first.as_slice(), loops, counted);
            if fault.is_some() {
                return fault;
            }
            match other {
                None => None,
                Some(other) => list_fault(other.as_slice(), loops, counted),
            }
        }
        _ => plain_fault(line, stands(&stmt.what), loops, counted),
    }
}

/// The line of the first of the statements that breaks the limits, with so many loops round them; what is counted goes on.
#[cycle(faults)]
pub(crate) fn list_fault(stmts: &[Stmt], loops: u32, counted: &mut u32) -> Option<u32>
    requires loops { loops ≤ 9 }
    requires counted { counted.old ≤ 4096 }
    ensures told { plain_told (nest stmts.now) loops counted.old ≡ plain_outcome result counted.new }
    ensures within { IfNone result (counted.new ≤ 4096) }
{
    for stmt in stmts {
        let fault = stmt_fault(stmt, loops, counted);
        if fault.is_some() {
            return fault;
        }
    }
    None
}
