// The statements in text order.
ghost use Rattle.std.specs.Prelude.{◌≡◌, ◌≤◌, take, length, OnOk, false};
ghost use Rattle.affine_ast.specs.Nest.{Nest, nest, put_what, plain_of, is_region};
ghost use Rattle.affine_ast.specs.Scope.{counted, in_loop, in_condition};
ghost use Rattle.affine_ast.specs.Validity.{told, rule_of_loop, rule_of_condition};
ghost use Rattle.affine_rules.specs.Scoped.{around_of, totals_of};
ghost use Rattle.affine_verify.specs.Comes.{Comes, Steps, Extends, Plainly, Enters};
ghost use Rattle.affine_verify.specs.Deallocs.{once_of};

use crate::fault::{VerifyFault, judged};
use crate::plain::{
    alloc_stmt, binary_stmt, cast_stmt, constant_stmt, dealloc_stmt, defined, load_stmt,
    raw_load_stmt, value_stmt,
};
use crate::release::released_once;
use crate::values::turn_interval;
use affine_ast::{Bound, Name, Stmt, What};
use affine_expr::Set;
use affine_rules::{
    Binding, Scoped, rule_of_condition, rule_of_loop, rule_of_raw_store, rule_of_return,
    rule_of_start, rule_of_store, rule_of_wait,
};
use std::alloc::Global;

/// One statement more.
fn count(scoped: &mut Scoped<'_>)
    requires { scoped.old.totals.statements ≤ 65536 }
    ensures around { around_of scoped.new ≡ counted (around_of scoped.old) }
    ensures kept { Extends scoped.old scoped.new }
{
    scoped.totals.statements += 1;
}

/// Puts a loop's variable in scope for its body.
fn enter_loop<'a>(
    alloc: Global,
    line: u32,
    var: &'a Name,
    lower: &'a Bound,
    upper: &'a Bound,
    step: i64,
    scoped: &mut Scoped<'a>,
) -> Result<(), VerifyFault>
    requires small { scoped.old.loops ≤ 17 }
    ensures entered { Enters result line (rule_of_loop (around_of scoped.old) var.now lower.now upper.now step) (in_loop var.now lower.now upper.now (around_of scoped.old)) scoped.old scoped.new }
    ensures statements { OnOk result (scoped.new.totals.statements ≤ 65536) }
    ensures loops { OnOk result (scoped.new.loops ≤ 17) }
    ensures ifs { OnOk result (scoped.new.ifs ≤ 17) }
{
    let rule = rule_of_loop(alloc, scoped, var, lower, upper, step)?;
    judged(line, rule)?;
    let turns = turn_interval(alloc, &scoped.names, lower, upper)?;
    defined(line, rule, var, Binding::Variable(turns), scoped)?;
    scoped.loops += 1;
    Ok(())
}

/// Enters the regions of a condition.
fn enter_condition<'a>(
    alloc: Global,
    line: u32,
    set: &'a Set,
    operands: &'a [Name],
    scoped: &mut Scoped<'a>,
) -> Result<(), VerifyFault>
    requires small { scoped.old.ifs ≤ 17 }
    ensures entered { Enters result line (rule_of_condition (around_of scoped.old) set.now operands.now) (in_condition (around_of scoped.old)) scoped.old scoped.new }
    ensures statements { OnOk result (scoped.new.totals.statements ≤ 65536) }
    ensures loops { OnOk result (scoped.new.loops ≤ 17) }
    ensures ifs { OnOk result (scoped.new.ifs ≤ 17) }
{
    let rule = rule_of_condition(alloc, scoped, set, operands)?;
    judged(line, rule)?;
    scoped.ifs += 1;
    Ok(())
}

/// Where the names in scope end, and how many loops and conditions stand round.
#[derive(Clone, Copy)]
pub(crate) struct Mark {
    names: usize,
    released: usize,
    loops: u32,
    ifs: u32,
}

fn mark_of(scoped: &Scoped<'_>) -> Mark
    ensures names { result.names ≡ length scoped.now.names.entries }
    ensures released { result.released ≡ length scoped.now.released.keys }
    ensures loops { result.loops ≡ scoped.now.loops }
    ensures ifs { result.ifs ≡ scoped.now.ifs }
{
    Mark {
        names: scoped.names.len(),
        released: scoped.released.len(),
        loops: scoped.loops,
        ifs: scoped.ifs,
    }
}

/// Leaves a region: what it put in scope is out of it again.
fn leave(mark: Mark, scoped: &mut Scoped<'_>)
    ensures names { scoped.new.names.entries ≡ take mark.names scoped.old.names.entries }
    ensures released { scoped.new.released.keys ≡ take mark.released scoped.old.released.keys }
    ensures loops { scoped.new.loops ≡ mark.loops }
    ensures ifs { scoped.new.ifs ≡ mark.ifs }
    ensures totals { scoped.new.totals ≡ scoped.old.totals }
{
    scoped.names.truncate(mark.names);
    scoped.released.truncate(mark.released);
    scoped.loops = mark.loops;
    scoped.ifs = mark.ifs;
}

/// A statement without a region.
fn plain_stmt<'a>(
    alloc: Global,
    line: u32,
    what: &'a What,
    once: bool,
    scoped: &mut Scoped<'a>,
) -> Result<(), VerifyFault>
    requires { is_region what.now ≡ false }
    ensures { (rest : Nest) → once ≡ once_of (plain_of what.now) rest → Plainly result line (plain_of what.now) rest scoped.old scoped.new }
{
    match what {
        What::Value { result, pick, at } => value_stmt(alloc, line, result, *pick, at, scoped),
        What::Load {
            result,
            memref,
            at,
            ty,
        } => load_stmt(alloc, line, result, memref, at, ty, scoped),
        What::Store {
            value,
            memref,
            at,
            ty,
        } => {
            let rule = rule_of_store(alloc, scoped, value, memref, at, ty)?;
            judged(line, rule)
        }
        What::RawLoad {
            result,
            memref,
            at,
            ty,
        } => raw_load_stmt(line, result, memref, at.as_slice(), ty, scoped),
        What::RawStore {
            value,
            memref,
            at,
            ty,
        } => judged(
            line,
            rule_of_raw_store(scoped, value, memref, at.as_slice(), ty),
        ),
        What::Constant { result, value, ty } => constant_stmt(line, result, *value, *ty, scoped),
        What::Binary {
            result,
            op,
            left,
            right,
            ty,
        } => binary_stmt(line, result, *op, left, right, *ty, scoped),
        What::Cast {
            result,
            kind,
            value,
            from,
            to,
        } => cast_stmt(line, result, *kind, value, *from, *to, scoped),
        What::Alloc { result, ty } => alloc_stmt(alloc, line, result, ty, once, scoped),
        What::Dealloc { memref, ty } => dealloc_stmt(line, memref, ty, scoped),
        What::Start {
            from,
            from_at,
            to,
            to_at,
            tag,
            tag_at,
            count,
            stride,
            types,
        } => {
            let rule = rule_of_start(
                alloc, scoped, from, from_at, to, to_at, tag, tag_at, count, stride, types,
            )?;
            judged(line, rule)
        }
        What::Wait {
            tag,
            tag_at,
            count,
            ty,
        } => {
            let rule = rule_of_wait(alloc, scoped, tag, tag_at, count, ty)?;
            judged(line, rule)
        }
        What::Return => judged(line, rule_of_return(scoped)),
        What::For { .. } => Ok(()),
        What::If { .. } => Ok(()),
    }
}

/// A statement without a region, as a step of the walk.
fn simple_stmt<'a>(
    alloc: Global,
    stmt: &'a Stmt,
    once: bool,
    scoped: &mut Scoped<'a>,
) -> Result<(), VerifyFault>
    requires region { is_region stmt.now.what ≡ false }
    requires small { scoped.old.totals.statements ≤ 65536 }
    ensures told { (rest : Nest) → once ≡ once_of (plain_of stmt.now.what) rest → Steps result (told (put_what stmt.now.what stmt.now.line rest) (around_of scoped.old)) (told rest (around_of scoped.new)) }
    ensures kept { (rest : Nest) → once ≡ once_of (plain_of stmt.now.what) rest → OnOk result (Extends scoped.old scoped.new) }
    ensures small { (rest : Nest) → once ≡ once_of (plain_of stmt.now.what) rest → OnOk result (scoped.new.totals.statements ≤ 65536) }
{
    count(scoped);
    plain_stmt(alloc, stmt.line, &stmt.what, once, scoped)
}

#[cycle(walk)]
#[tactic(auto, using(affine_ast::proofs::Nests::plains))]
fn step<'a>(
    alloc: Global,
    stmt: &'a Stmt,
    once: bool,
    scoped: &mut Scoped<'a>,
) -> Result<(), VerifyFault>
    requires statements { scoped.old.totals.statements ≤ 65536 }
    requires loops { scoped.old.loops ≤ 17 }
    requires ifs { scoped.old.ifs ≤ 17 }
    ensures told { (rest : Nest) → once ≡ once_of (plain_of stmt.now.what) rest → Steps result (told (put_what stmt.now.what stmt.now.line rest) (around_of scoped.old)) (told rest (around_of scoped.new)) }
    ensures kept { (rest : Nest) → once ≡ once_of (plain_of stmt.now.what) rest → OnOk result (Extends scoped.old scoped.new) }
    ensures small { (rest : Nest) → once ≡ once_of (plain_of stmt.now.what) rest → OnOk result (scoped.new.totals.statements ≤ 65536) }
{
    match &stmt.what {
        What::For {
            var,
            lower,
            upper,
            step,
            body,
        } => {
            let outside = mark_of(scoped);
            count(scoped);
            let entered = enter_loop(alloc, stmt.line, var, lower, upper, *step, scoped);
            if entered.is_err() {
                return entered;
            }
            let walked = list(alloc, body.as_slice(), scoped);
            if walked.is_err() {
                return walked;
            }
            leave(outside, scoped);
            Ok(())
        }
        What::If {
            set,
            operands,
            first,
            other,
        } => {
            let around = mark_of(scoped);
            count(scoped);
            let met = enter_condition(alloc, stmt.line, set, operands.as_slice(), scoped);
            if met.is_err() {
                return met;
            }
            let inside = mark_of(scoped);
            let first_walked = list(alloc, first.as_slice(), scoped);
            if first_walked.is_err() {
                return first_walked;
            }
            leave(inside, scoped);
            match other {
                None => {
                    leave(around, scoped);
                    Ok(())
                }
                Some(other) => {
                    let other_walked = list(alloc, other.as_slice(), scoped);
                    if other_walked.is_err() {
                        return other_walked;
                    }
                    leave(around, scoped);
                    Ok(())
                }
            }
        }
        What::Value { .. } => simple_stmt(alloc, stmt, once, scoped),
        What::Load { .. } => simple_stmt(alloc, stmt, once, scoped),
        What::Store { .. } => simple_stmt(alloc, stmt, once, scoped),
        What::RawLoad { .. } => simple_stmt(alloc, stmt, once, scoped),
        What::RawStore { .. } => simple_stmt(alloc, stmt, once, scoped),
        What::Constant { .. } => simple_stmt(alloc, stmt, once, scoped),
        What::Binary { .. } => simple_stmt(alloc, stmt, once, scoped),
        What::Cast { .. } => simple_stmt(alloc, stmt, once, scoped),
        What::Alloc { .. } => simple_stmt(alloc, stmt, once, scoped),
        What::Dealloc { .. } => simple_stmt(alloc, stmt, once, scoped),
        What::Start { .. } => simple_stmt(alloc, stmt, once, scoped),
        What::Wait { .. } => simple_stmt(alloc, stmt, once, scoped),
        What::Return => simple_stmt(alloc, stmt, once, scoped),
    }
}

/// The statements of a list.
#[cycle(walk)]
pub(crate) fn list<'a>(
    alloc: Global,
    stmts: &'a [Stmt],
    scoped: &mut Scoped<'a>,
) -> Result<(), VerifyFault>
    requires statements { scoped.old.totals.statements ≤ 65536 }
    requires loops { scoped.old.loops ≤ 17 }
    requires ifs { scoped.old.ifs ≤ 17 }
    ensures told { Comes result (told (nest stmts.now) (around_of scoped.old)) (totals_of scoped.new.totals) }
    ensures kept { OnOk result (Extends scoped.old scoped.new) }
    ensures small { OnOk result (scoped.new.totals.statements ≤ 65536) }
{
    let once = released_once(alloc, *scoped.names.hasher(), stmts)?;
    for (place, next) in stmts.iter().enumerate() {
        let stepped = step(alloc, next, once[place], scoped);
        if stepped.is_err() {
            return stepped;
        }
    }
    Ok(())
}
