// One thing on the way to a statement, as code has it. `along_step` takes it.

use affine_ast::{Bound, Name, Stmt, What};
use affine_expr::Set;

/// One thing on the way to a statement; `specs/Steps` says which.
#[derive(Drop)]
pub enum Step<'a> {
    /// Into the body of a loop.
    Round {
        var: &'a Name,
        lower: &'a Bound,
        upper: &'a Bound,
        step: i64,
    },
    /// Into the first region of a condition.
    Given {
        set: &'a Set,
        operands: &'a [Name],
    },
    /// Into the `else` region of a condition, behind its first one.
    Except {
        set: &'a Set,
        operands: &'a [Name],
        first: &'a [Stmt],
    },
    /// Past a statement that has no region.
    Behind {
        what: &'a What,
    },
    /// Past a region.
    Past {
        body: &'a [Stmt],
    },
}

/// A step, with whether its value is needed behind it.
#[derive(Drop)]
pub struct Mark<'a> {
    pub step: Step<'a>,
    pub needed: bool,
}

/// A statement of a module, with the way to it: `here` begins with it.
#[derive(Drop)]
pub struct Found<'a> {
    pub way: Vec<Step<'a>>,
    pub here: &'a [Stmt],
}
